//! The forms of a script's lines, and what is expected at each word.
ghost use Rattle.std.specs.Prelude.{◌≡◌, map};
ghost use Rattle.std.specs.Option.{option_map};
ghost use Rattle.gt_fault_reasons.specs.Fitting.{example_among, example_named, example_word};

use gt_script_lines::is_word;

/// The forms of the lines, as in docs/FORMATS_SCRIPTS.md. A word in capitals is a part; any other is literal.
pub static FORMS: [&str; 30] = [
    "triple TYPE TYPE PERMISSION",
    "wear GENERATION",
    "domain ID LABEL FRAMES TABLEFRAMES VERSION",
    "do ID grant REF page DOM MODE FRAME",
    "do ID grant REF sub DOM MODE FRAME OFF LEN",
    "do ID grant REF via DOM MODE DOM REF",
    "do ID bytes REF HEX",
    "do ID revoke REF",
    "do ID withdraw REF",
    "do ID demote REF",
    "do ID promote REF",
    "do ID map NAME DOM REF FLAGS",
    "do ID unmap NAME",
    "do ID load NAME OFF LEN",
    "do ID store NAME OFF HEX",
    "do ID peek FRAME OFF LEN",
    "do ID poke FRAME OFF HEX",
    "do ID copy gref DOM REF OFF gref DOM REF OFF LEN",
    "do ID copy gref DOM REF OFF frame DOM FRAME OFF LEN",
    "do ID copy frame DOM FRAME OFF gref DOM REF OFF LEN",
    "do ID copy frame DOM FRAME OFF frame DOM FRAME OFF LEN",
    "do ID version NUMBER",
    "do ID setup NUMBER",
    "do ID size DOM",
    "do ID getversion DOM",
    "begin ID revoke REF",
    "tick ID STEPS",
    "show ID REF",
    "tell ID FLAG",
    "await ID FLAG",
];

// A part of a form: its name, a word that fits, and the text of what is expected there.
type FormPart = (&'static str, &'static str, &'static str);

static PARTS: [FormPart; 20] = [
    ("TYPE", "t", "a type, as the policy language has names"),
    (
        "PERMISSION",
        "copy",
        "map_read, map_write, unmap, transfer, setup, copy or query",
    ),
    ("GENERATION", "0", "a generation, 0 to 1048575"),
    ("ID", "0", "the number of a domain"),
    ("LABEL", "u:r:t", "a label USER:ROLE:TYPE"),
    ("FRAMES", "1", "a number of frames"),
    ("TABLEFRAMES", "1", "a number of table frames"),
    ("VERSION", "1", "the version of a table"),
    ("REF", "0", "a reference, a number below 4294967296"),
    ("DOM", "0", "a domain, a number below 65536 or self"),
    ("MODE", "rw", "rw or ro"),
    ("FRAME", "0", "a frame, a number below 18446744073709551616"),
    ("OFF", "0", "an offset, a number below 65536"),
    ("LEN", "0", "a length, a number below 65536"),
    (
        "HEX",
        "-",
        "bytes: an even number of hexadecimal digits, at most 8192, or -",
    ),
    (
        "NAME",
        "a",
        "a label: a letter, and at most 31 letters, digits or _",
    ),
    ("FLAGS", "rw", "flags: rw, ro or a number below 4294967296"),
    ("NUMBER", "0", "a number below 4294967296"),
    ("STEPS", "1", "a number of steps, 1 to 100000"),
    (
        "FLAG",
        "a",
        "a flag: a letter, and at most 31 letters, digits or _",
    ),
];

// Returns the first of these parts that has this name.
fn part_among<'p>(parts: &'p [FormPart], name: &[u8]) -> Option<&'p FormPart>
    ensures { option_map (λ part. part.now.1.now) result
        ≡ example_named name.now (map (λ part. (part.0.now, part.1.now)) parts.entry.now) }
{
    'parts: for part in parts {
        if is_word(name, part.0) {
            return Some(part);
        }
    }
    None
}

// Returns the example of the part of this name among these, or the word itself if there is none.
fn example_among<'w>(parts: &'w [FormPart], word: &'w [u8]) -> &'w [u8]
    ensures { result.now ≡ example_among (map (λ part. (part.0.now, part.1.now)) parts.entry.now) word.entry.now }
{
    match part_among(parts, word) {
        Some((_, example, _)) => example.as_bytes(),
        None => word,
    }
}

/// Returns a word that fits this word of a form.
pub fn example_word<'w>(word: &'w [u8]) -> &'w [u8]
    ensures { result.now ≡ example_word word.entry.now }
{
    example_among(&PARTS, word)
}

/// Returns what is expected at this word of a form; None for a literal word.
pub fn expected_at(word: &[u8]) -> Option<&'static str> {
    match part_among(&PARTS, word) {
        Some((_, _, expected)) => Some(*expected),
        None => None,
    }
}
