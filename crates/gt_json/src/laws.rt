//! Laws: the JSON of a text has the content of the text.
ghost use Rattle.std.specs.Prelude.{◌≡◌, ◌<◌, ℕ, List, All};
ghost use Rattle.std.specs.List.{flat_map, join_with_byte};
ghost use Rattle.gt_json.specs.Lines.{all_said, json_words};
ghost use Rattle.gt_json.specs.Places.{start};
ghost use Rattle.gt_json.specs.Strings.{SpellsString, escaped};
ghost use Rattle.gt_json.specs.declared.places.PrintedText.{PrintedText};

/// A law: the members of a line's object reproduce the line, with blanks between them, if it is known which words were
/// names or colons. So no word is lost and none added.
pub fn every_line_has_its_object()
    ensures { (printed : PrintedText) (line : List ℕ) →
        join_with_byte 32 (all_said (start printed) (json_words line)) ≡ line }
{}

/// A law: what is between the quotes of a string encodes its text by the rules of JSON (RFC 8259), for bytes of any
/// value.
pub fn every_string_spells_its_text()
    ensures { (text : List ℕ) → SpellsString (flat_map escaped text) text }
{}
