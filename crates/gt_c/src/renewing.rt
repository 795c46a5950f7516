//! What the domain of a handle takes over from the domain of another handle, of another run.
ghost use Rattle.std.specs.Prelude.{◌≡◌, IfSome, None};
ghost use Rattle.gt_c.specs.Calling.{MayBeCalled};
ghost use Rattle.gt_c.specs.Grantees.{noted_first};
ghost use Rattle.gt_c.specs.Renewing.{BothTurnedAway, ComparesHandles, GrantsAllOfHandle};

use crate::c_domain::CDomain;
use crate::calls::{done, turned_away};
use crate::grants::note;
use crate::handle::DomainHandle;
use crate::lending::lent_mut;
use crate::reports::reference;
use gt_attached::EncodedAnswer;
use gt_types::TABLE_ENTRIES;

// Returns why no call is made on two handles: one of them has no domain, or one in a copy.
fn both_turned_away(domain: &mut DomainHandle, other: &mut DomainHandle) -> Option<EncodedAnswer>
    ensures away { IfSome result (λ a. BothTurnedAway a domain.old.held.value domain.new.held.value
        other.old.held.value other.new.held.value) }
    ensures may { result ≡ None → MayBeCalled domain.old.held.value domain.new.held.value
        × MayBeCalled other.old.held.value other.new.held.value }
{
    match turned_away(domain) {
        Some(answer) => Some(answer),
        None => turned_away(other),
    }
}

// Notes to whom each entry of a domain is granted, as the domain has it.
fn note_all(lent: &mut CDomain)
    ensures { lent.new ≡ noted_first TABLE_ENTRIES lent.old }
{
    'entries: for at in 0..TABLE_ENTRIES {
        note(lent, at);
    }
}

/// Grants each valid entry that the domain of another handle has, under the same reference, from the least one on.
/// Returns the first refusal; the entries before it are granted.
#[unsafe(no_mangle)]
pub extern "C" fn gthost_grant_all_of_at(
    domain: &mut DomainHandle,
    other: &mut DomainHandle,
) -> EncodedAnswer
    ensures { GrantsAllOfHandle result domain.old.held.value domain.new.held.value
        other.old.held.value other.new.held.value }
{
    if let Some(answer) = both_turned_away(domain, other) {
        return answer;
    }
    let lent = lent_mut(&mut domain.held);
    let from = lent_mut(&mut other.held);
    let answer = EncodedAnswer::of(done(lent.attached.grant_all_of(&from.attached)));
    note_all(lent);
    answer
}

/// Returns the least reference whose entry is not alike in the domains of two handles: as each domain last changed it,
/// and by the kind, the right, the domain and the pins that one look at it finds.
#[unsafe(no_mangle)]
pub extern "C" fn gthost_difference_at(
    domain: &mut DomainHandle,
    other: &mut DomainHandle,
) -> EncodedAnswer
    ensures { ComparesHandles result domain.old.held.value domain.new.held.value
        other.old.held.value other.new.held.value }
{
    if let Some(answer) = both_turned_away(domain, other) {
        return answer;
    }
    let lent = lent_mut(&mut domain.held);
    let compared = lent_mut(&mut other.held);
    let found = lent.attached.first_difference(&mut compared.attached);
    EncodedAnswer::of(reference(found))
}
