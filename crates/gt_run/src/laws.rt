//! A fact that follows from the definitions.
ghost use Rattle.std.specs.Prelude.{◌*◌, ◌<◌};

use crate::gate::FLAGS;
use gt_text::READ_LIMIT;

/// States that no script names as many flags as a program's gate has. The line that first names a flag takes eight
/// bytes and the end of the line, and at most [`READ_LIMIT`] bytes are read.
pub fn no_script_names_so_many_flags()
    ensures { READ_LIMIT < 9 * FLAGS }
{}
