//! Texts of further files, which a command compares with its own.
ghost use Rattle.std.specs.Prelude.{◌≡◌, IfOk, IfSome};

use crate::commands::Context;
use crate::failure::Failure;
use crate::reading::read_whole;
use crate::reporting::fail;
use crate::texts::{TextSource, read_fault};
use gt_command_reasons::Reasons;
use gt_text::ReadFault;

// Reads the whole text of the named file.
fn read_named<R, T: TextSource, E>(
    context: &Context<R, T, E>,
    name: &str,
    reasons: &mut Reasons,
) -> Result<Vec<u8>, ReadFault>
    ensures { IfOk result (λ bytes. IfSome (T.file context.now.texts.now name.now) (λ all. bytes.items ≡ all)) }
{
    match context.texts.open(name) {
        Ok(mut file) => read_whole(context.alloc, &mut file, reasons),
        Err(error) => {
            reasons.add_unread(&error);
            Err(read_fault(&error))
        }
    }
}

/// Reads the whole text of the named file. A failure is reported, and the result is None.
pub fn read_given<'a, R, T: TextSource, E: Eprint>(
    context: &Context<R, T, E>,
    name: &'a str,
    reasons: &mut Reasons<'a>,
) -> Option<Vec<u8>>
    ensures { IfSome result (λ bytes. IfSome (T.file context.now.texts.now name.entry.now) (λ all. bytes.items ≡ all)) }
{
    reasons.begin_file(Some(name));
    match read_named(context, name, reasons) {
        Ok(bytes) => Some(bytes),
        Err(fault) => {
            fail(context, Failure::File(fault), reasons);
            None
        }
    }
}
