//! What each rule means, and the version of the library.
ghost use Rattle.std.specs.Prelude.{◌≡◌, ◌<◌, ◌-◌, ◌++◌, length, replicate};
ghost use Rattle.gt_c.specs.Rules.{rule_bytes, unmade_bytes};

/// A line of `len` bytes, followed by zeros.
#[repr(C)]
#[derive(Clone, Copy)]
pub struct RuleText {
    pub len: usize,
    pub bytes: [u8; 240],
}

/// The version of the library: 65,536 times the major number, plus 256 times the minor one, plus the patch number.
const VERSION: u32 = 0x0002_0000;

// The lines of the rules, by number; 0 is Ok.
const LINES: [&str; 27] = [
    "ok",
    "N1 -2 GNTST_bad_domain: a domain named, or the one that a transitive entry leads to, does not exist in \
     this run; name a domain of this run",
    "N2 -1 GNTST_general_error: the flags of the map or copy, or the version, are not among those taken; use \
     flags 2 or 6 for a map, 0 to 3 for a copy, version 1 or 2",
    "N3 -10 GNTST_bad_copy_arg: offset plus length is above 4096; ask for a range inside the page",
    "N4 -8 GNTST_permission_denied: the copy names a frame of another domain by its number; name one of the \
     caller's frames, or a grant of that domain",
    "N5 -8 GNTST_permission_denied: the policy has no allow rule for these types and this permission; ask for \
     a rule in the policy",
    "N6 -4 GNTST_bad_handle: the caller has no mapping with this handle; map first",
    "N7 -8 GNTST_permission_denied: the store goes through a read-only mapping; map the entry for writing",
    "N8 -1 GNTST_general_error: the caller has 8192 mappings, or has used up its handles; unmap some",
    "N9 -3 GNTST_bad_gntref: the reference is past the table; ask the owner to set up more table frames",
    "N10 -1 GNTST_general_error: the entry is invalid; wait for the owner's grant",
    "N11 -1 GNTST_general_error: the entry names another domain; ask the owner for a grant of its own",
    "N12 -1 GNTST_general_error: the map is of a sub-page or transitive entry; copy instead",
    "N13 -1 GNTST_general_error: the entry is read-only, and the call writes; only read, or ask the owner to \
     promote the entry",
    "N14 -1 GNTST_general_error: the range is not inside the sub-page; ask for a range inside the sub-page",
    "N15 -1 GNTST_general_error: a transitive entry leads to another one; ask the middle domain for a grant of \
     its own page",
    "N16 -9 GNTST_bad_page: the frame number is not one of its owner's frames; name a frame that the owner has",
    "N17 -1 GNTST_general_error: 4095 pins of that kind are live on the entry; try again after others have \
     unmapped",
    "N18 -12 GNTST_eagain: the entry changed during all four tries of a pin, demotion, promotion or \
     withdrawal; try again",
    "N19 -1 GNTST_general_error: the entry is in use: it has live pins (for a demotion: live write pins); try \
     again after the other domains have unmapped; an entry to be revoked or demoted can be withdrawn now",
    "N20 -1 GNTST_general_error: the entry is valid already; revoke it first, or use another reference",
    "N21 -1 GNTST_general_error: the entry given is invalid, or needs a table of version 2; set version 2, or \
     grant a whole page",
    "N22 -1 GNTST_general_error: the entry is at its last generation; use another reference",
    "N23 -1 GNTST_general_error: more than 16 table frames are asked for; ask for at most 16",
    "N24 -1 GNTST_general_error: the table has valid entries; revoke or withdraw all entries first",
    "N25 -1 GNTST_general_error: the bytes are not an entry of a table of this version; fix the field named",
    "N26 -1 GNTST_general_error: out of memory; try again when there is memory",
];

// Returns why a call was not made.
fn unmade(rule: u32) -> &'static str
    ensures bytes { result.now ≡ unmade_bytes rule }
    ensures fits { length result.now < 240 }
{
    match rule {
        256 => "the handle has no domain",
        257 => "the domain is in a copy",
        258 => "memory was refused for records",
        259 => "the domain is in no copy",
        260 => "there is no such mapping, record or entry",
        261 => "the pointer to the handle is null",
        _ => "no such rule",
    }
}

fn text_of(rule: u32) -> &'static str
    ensures bytes { result.now ≡ rule_bytes rule }
    ensures fits { length result.now < 240 }
{
    let number = rule as usize;
    if number < LINES.len() {
        LINES[number]
    } else {
        unmade(rule)
    }
}

// Returns the bytes, followed by zeros.
fn padded(text: &[u8]) -> [u8; 240]
    requires { length text.now < 240 }
    ensures { result ≡ text.now ++ replicate (240 - length text.now) 0 }
{
    let mut all = [0; 240];
    all[..text.len()].copy_from_slice(text);
    all
}

/// Returns what the `rule` of an answer means. For 1 to 26 it is the line that `gthost rules` prints: the rule's name,
/// its status, why it refuses, and what the caller may do. For a number from 256 on it is why the call was not made.
#[unsafe(no_mangle)]
pub extern "C" fn gthost_rule_text(rule: u32) -> RuleText
    ensures len { result.len ≡ length (rule_bytes rule) }
    ensures bytes { result.bytes ≡ rule_bytes rule ++ replicate (240 - length (rule_bytes rule)) 0 }
{
    let text = text_of(rule).as_bytes();
    RuleText {
        len: text.len(),
        bytes: padded(text),
    }
}

/// Returns the version of the library. It is `GTHOST_VERSION` of the header of the same release.
#[unsafe(no_mangle)]
pub extern "C" fn gthost_version() -> u32
    ensures { result ≡ 131072 }
{
    VERSION
}
