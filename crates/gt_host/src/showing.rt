//! The lines that show an entry.
ghost use Rattle.std.specs.Prelude.{◌≡◌, ◌++◌, OnOk, codes};
ghost use Rattle.gt_script_runs.specs.Showing.{part_text, entry_text, counts_text, status_text, entry_view_text};
ghost use Rattle.gt_script_runs.specs.Showing.{show_line};

use gt_core::EntryView;
use gt_entry::{Control, status_word};
use gt_text::{push_entry, push_number, push_part, push_text};
use gt_types::{DomId, GrantRef};
use std::alloc::{AllocError, Global};

fn push_status(alloc: Global, out: &mut Vec<u8>, status: u16) -> Result<(), AllocError>
    ensures { OnOk result (out.new.items ≡ out.old.items ++ status_text status) }
{
    let digits = hex::encode(alloc, status.to_be_bytes())?;
    push_text(out, digits.as_str())
}

fn push_counts(
    out: &mut Vec<u8>,
    generation: u32,
    reads: u16,
    writes: u16,
) -> Result<(), AllocError>
    ensures { OnOk result (out.new.items ≡ out.old.items ++ counts_text generation reads writes) }
{
    push_part(out, "gen", generation)?;
    push_part(out, "reads", reads)?;
    push_part(out, "writes", writes)
}

fn push_shown(alloc: Global, out: &mut Vec<u8>, shown: Option<EntryView>) -> Result<(), AllocError>
    ensures { OnOk result (out.new.items ≡ out.old.items ++ entry_view_text shown) }
{
    let Some(
        EntryView {
            entry,
            generation,
            reads,
            writes,
        },
    ) = shown
    else {
        return push_text(out, "none");
    };
    push_entry(out, entry)?;
    push_counts(out, generation, reads, writes)?;
    push_text(out, " status=")?;
    let control = Control::of_entry(entry, generation, reads, writes);
    push_status(alloc, out, status_word(&control))
}

/// Appends the line of a `show` of an entry; `shown` is None if the reference is out of range of the domain's table.
/// After an Err, part of the line may have been appended.
pub fn push_show_line(
    alloc: Global,
    out: &mut Vec<u8>,
    line: usize,
    dom: DomId,
    gref: GrantRef,
    shown: Option<EntryView>,
) -> Result<(), AllocError>
    ensures { OnOk result (out.new.items ≡ out.old.items ++ show_line line dom gref shown) }
{
    push_number(out, line)?;
    push_text(out, " show ")?;
    push_number(out, dom.0)?;
    push_text(out, " ")?;
    push_number(out, gref.0)?;
    push_text(out, " ")?;
    push_shown(alloc, out, shown)?;
    push_text(out, "\n")
}
