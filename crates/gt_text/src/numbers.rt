//! Numbers, and the parts ` NUMBER` and ` NAME=NUMBER` of a line.
ghost use Rattle.std.specs.Prelude.{◌≡◌, ◌++◌, OnOk, codes};
ghost use Rattle.gt_text.specs.Texts.{StaysText};

use crate::text::push_text;
use itoa::{Buffer, Integer};
use std::alloc::AllocError;

/// Appends a number in decimal digits.
pub fn push_number<I: Integer>(out: &mut Vec<u8>, number: I) -> Result<(), AllocError>
    ensures text { OnOk result (out.new.items ≡ out.old.items ++ I.text number) }
    ensures stays { OnOk result (StaysText out.old.items out.new.items) }
{
    let mut buffer = Buffer::new();
    push_text(out, buffer.format(number))
}

/// Appends ` NUMBER`. After an Err, the blank may have been appended.
pub fn push_next_number<I: Integer>(out: &mut Vec<u8>, value: I) -> Result<(), AllocError>
    ensures text { OnOk result (out.new.items ≡ out.old.items ++ codes " " ++ I.text value) }
    ensures stays { OnOk result (StaysText out.old.items out.new.items) }
{
    push_text(out, " ")?;
    push_number(out, value)
}

/// Appends ` NAME=NUMBER`. After an Err, part of it may have been appended.
pub fn push_part<I: Integer>(out: &mut Vec<u8>, name: &str, number: I) -> Result<(), AllocError>
    ensures text { OnOk result (out.new.items ≡ out.old.items
        ++ codes " " ++ name.now ++ codes "=" ++ I.text number) }
    ensures stays { OnOk result (StaysText out.old.items out.new.items) }
{
    push_text(out, " ")?;
    push_text(out, name)?;
    push_text(out, "=")?;
    push_number(out, number)
}
