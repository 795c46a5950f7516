//! The bytes of a policy as text.
ghost use Rattle.std.specs.Prelude.{◌≡◌, ◌≤◌, length, IfOk, IfErr};
ghost use Rattle.std.specs.Str.{IsUtf8};
ghost use Rattle.gt_policy_list.specs.Reading.{IsNoText};

use crate::fault::ListingFault;
use gt_policy::{PolicyFault, PolicyFaultKind};
use gt_text::text_of;
use gt_types::LONGEST_TEXT;

/// Returns the bytes as text, or the fault of more than 1,048,576 bytes or of bytes that are not UTF-8.
pub fn policy_text<'a>(bytes: &'a [u8]) -> Result<&'a str, ListingFault>
    ensures text { IfOk result (λ text. text.now ≡ bytes.entry.now) }
    ensures few { IfOk result (λ _. length bytes.entry.now ≤ LONGEST_TEXT) }
    ensures utf8 { IfOk result (λ _. IsUtf8 bytes.entry.now) }
    ensures fault { IfErr result (λ fault. IsNoText bytes.entry.now fault) }
{
    if bytes.len() > LONGEST_TEXT {
        return Err(ListingFault::Policy(PolicyFault {
            line: 1,
            kind: PolicyFaultKind::Limit,
        }));
    }
    match text_of(bytes) {
        Ok(text) => Ok(text),
        Err(line) => Err(ListingFault::Utf8 { line }),
    }
}
