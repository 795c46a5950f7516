//! What every export does first, and the answers that most of them give.
ghost use Rattle.std.specs.Prelude.{◌≡◌, IfSome, None};
ghost use Rattle.gt_c.specs.Calling.{MayBeCalled, TurnedAway, outcome, RefusesNumber};

use crate::handle::DomainHandle;
use crate::lending::lent_mut;
use gt_attached::{AttachedOutcome, EncodedAnswer};
use gt_types::{Denial, Facts, Rule};

/// The largest number of a domain, an offset, a length or a copy's flags: they have 16 bits. C passes them in 32, so
/// that a larger one is refused and not cut.
pub(crate) const MOST: u32 = 65535;

// Returns why no call is made on a handle: it has no domain, or one in a copy.
#[inline(always)]
pub(crate) fn turned_away(domain: &mut DomainHandle) -> Option<EncodedAnswer>
    ensures away { IfSome result (λ a. TurnedAway domain.old.held.value domain.new.held.value a) }
    ensures may { result ≡ None → MayBeCalled domain.old.held.value domain.new.held.value }
{
    if domain.is_ready {
        return None;
    }
    if !domain.is_live {
        return Some(EncodedAnswer::of(AttachedOutcome::NoDomain));
    }
    if lent_mut(&mut domain.held).attached.is_copying() {
        return Some(EncodedAnswer::of(AttachedOutcome::Busy));
    }
    None
}

// Returns the answer to a call with a number that does not fit: it is not made, and this rule refuses it, unless the
// handle has no domain, or one in a copy.
#[cold]
#[inline(never)]
pub(crate) fn refused_number(domain: &mut DomainHandle, rule: Rule) -> EncodedAnswer
    ensures { RefusesNumber rule result domain.old.held.value domain.new.held.value }
{
    if let Some(answer) = turned_away(domain) {
        return answer;
    }
    EncodedAnswer::of(AttachedOutcome::Denied(Denial::new(rule, Facts::None)))
}

#[inline(always)]
pub(crate) fn done(answer: Result<(), Denial>) -> AttachedOutcome
    ensures { result ≡ outcome answer }
{
    match answer {
        Ok(()) => AttachedOutcome::Done,
        Err(denial) => AttachedOutcome::Denied(denial),
    }
}
