//! Which lines each choice keeps.
ghost use Rattle.std.specs.Prelude.{◌≡◌, ◌++◌, ◌∷◌, ◌<◌, [], IfOk, OnOk, false, length, map, not, true};
ghost use Rattle.std.specs.List.{flat_map};
ghost use Rattle.std.specs.Str.{bytes_eq};
ghost use Rattle.gt_explore_choices.specs.Kinds.{kind_seen, marked_seen};
ghost use Rattle.gt_explore_choices.specs.Choosing.{Open, first_open, has_left, leaving, open_seen, widened, widened_all};
ghost use Rattle.gt_explore_choices.specs.Choosing.{with_kept};
ghost use Rattle.gt_explore_choices.specs.declared.fault.ChoicesFault.TheVariants.{Many};

use crate::fault::ChoicesFault;
use crate::kinds::{LineKind, MarkedLine};
use std::alloc::{AllocError, Global};

/// The largest number of choices.
pub const MOST_CHOICES: usize = 4096;

/// A choice of the lines so far: whether each of them is kept, and the domains that left.
#[derive(Drop)]
pub struct OpenChoice<'a> {
    pub kept: Vec<bool>,
    pub left: Vec<&'a [u8]>,
}

// Returns whether two words name the same domain.
fn is_same(one: &[u8], other: &[u8]) -> bool
    ensures { result ≡ bytes_eq one.now other.now }
{
    one == other
}

// Returns whether a domain is one of these.
fn has_left(left: &[&[u8]], dom: &[u8]) -> bool
    ensures { result ≡ has_left (map (λ d. d.now) left.now) dom.now }
{
    'left: for other in left {
        if is_same(other, dom) {
            return true;
        }
    }
    false
}

// Returns a copy of a choice.
fn copied<'a>(alloc: Global, choice: &OpenChoice<'a>) -> Result<OpenChoice<'a>, AllocError>
    ensures { IfOk result (λ copy. open_seen copy ≡ open_seen choice.now) }
{
    let kept = Vec::from_slice(alloc, choice.kept.as_slice())?;
    let left = Vec::from_slice(alloc, choice.left.as_slice())?;
    Ok(OpenChoice { kept, left })
}

// Appends a choice with one more line.
fn push_with<'a>(
    begun: &mut Vec<OpenChoice<'a>>,
    mut choice: OpenChoice<'a>,
    is_kept: bool,
) -> Result<(), AllocError>
    ensures { OnOk result (map open_seen begun.new.items
        ≡ map open_seen begun.old.items ++ with_kept is_kept (open_seen choice.entry) ∷ []) }
{
    choice.kept.push(is_kept)?;
    begun.push(choice)?;
    Ok(())
}

// Appends a choice with a line, and without it.
fn push_both<'a>(
    alloc: Global,
    begun: &mut Vec<OpenChoice<'a>>,
    choice: OpenChoice<'a>,
) -> Result<(), AllocError>
    ensures { OnOk result (map open_seen begun.new.items ≡ map open_seen begun.old.items
        ++ (with_kept true (open_seen choice.entry) ∷ with_kept false (open_seen choice.entry) ∷ [])) }
{
    let other = copied(alloc, &choice)?;
    push_with(begun, choice, true)?;
    push_with(begun, other, false)
}

// Appends a choice whose domain stays, and one whose domain leaves. The line itself is left out.
fn push_leaving<'a>(
    alloc: Global,
    begun: &mut Vec<OpenChoice<'a>>,
    choice: OpenChoice<'a>,
    dom: &'a [u8],
) -> Result<(), AllocError>
    ensures { OnOk result (map open_seen begun.new.items ≡ map open_seen begun.old.items
        ++ (with_kept false (open_seen choice.entry) ∷ leaving dom.entry.now (open_seen choice.entry) ∷ [])) }
{
    let mut other = copied(alloc, &choice)?;
    push_with(begun, choice, false)?;
    other.left.push(dom)?;
    push_with(begun, other, false)
}

// Appends what a choice becomes at a line.
fn push_widened<'a>(
    alloc: Global,
    begun: &mut Vec<OpenChoice<'a>>,
    choice: OpenChoice<'a>,
    kind: LineKind<'a>,
) -> Result<(), AllocError>
    ensures { OnOk result (map open_seen begun.new.items
        ≡ map open_seen begun.old.items ++ widened (kind_seen kind.entry) (open_seen choice.entry)) }
{
    match kind {
        LineKind::Fixed => push_with(begun, choice, true),
        LineKind::Must(dom) => {
            let is_gone = has_left(choice.left.as_slice(), dom);
            push_with(begun, choice, !is_gone)
        }
        LineKind::May(dom) => {
            if has_left(choice.left.as_slice(), dom) {
                push_with(begun, choice, false)
            } else {
                push_both(alloc, begun, choice)
            }
        }
        LineKind::Leave(dom) => {
            if has_left(choice.left.as_slice(), dom) {
                push_with(begun, choice, false)
            } else {
                push_leaving(alloc, begun, choice, dom)
            }
        }
    }
}

// Returns what these choices become at a line.
fn widened<'a>(
    alloc: Global,
    choices: Vec<OpenChoice<'a>>,
    kind: LineKind<'a>,
) -> Result<Vec<OpenChoice<'a>>, AllocError>
    ensures { IfOk result (λ begun. map open_seen begun.items
        ≡ flat_map (widened (kind_seen kind.entry)) (map open_seen choices.entry.items)) }
{
    let mut begun = Vec::new(alloc);
    'choices: for choice in choices {
        push_widened(alloc, &mut begun, choice, kind)?;
    }
    Ok(begun)
}

// Returns the one choice of no lines.
fn first_open<'a>(alloc: Global) -> Result<Vec<OpenChoice<'a>>, AllocError>
    ensures { IfOk result (λ begun. map open_seen begun.items ≡ first_open ∷ []) }
{
    let mut begun = Vec::new(alloc);
    begun.push(OpenChoice {
        kept: Vec::new(alloc),
        left: Vec::new(alloc),
    })?;
    Ok(begun)
}

/// Returns the choices of these lines.
///
/// # Errors
/// `Many` if there are more than [`MOST_CHOICES`], and `Memory`.
pub fn open_choices<'a>(
    alloc: Global,
    lines: &[MarkedLine<'a>],
) -> Result<Vec<OpenChoice<'a>>, ChoicesFault>
    ensures { IfOk result (λ begun. map open_seen begun.items
        ≡ widened_all (map (λ m. m.kind) (map marked_seen lines.now)) (first_open ∷ [])) }
{
    let mut begun = first_open(alloc)?;
    'lines: for line in lines {
        begun = widened(alloc, begun, line.kind)?;
        if begun.len() > MOST_CHOICES {
            return Err(ChoicesFault::Many);
        }
    }
    Ok(begun)
}
