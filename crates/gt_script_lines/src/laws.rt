//! A law about hexadecimal text.
ghost use Rattle.std.specs.Prelude.{ℕ, List};
ghost use Rattle.gt_script_lines.specs.Hexadecimal.{GivesItsBytes};

/// A law: each hexadecimal text but `-` is decoded as a whole, to the bytes that its digits encode.
#[tactic(auto, using(crate::proofs::HexadecimalLemmas::says_its_bytes))]
pub fn every_hex_text_gives_its_bytes()
    ensures { (word : List ℕ) → GivesItsBytes word }
{}
