//! What a domain of a new run takes over from a domain of another run: its entries, and whether both are then alike.
ghost use Rattle.std.specs.Prelude.{◌≡◌, ◌↔◌, IsTrue};
ghost use Rattle.gt_attached.specs.Renewing.{IsSameEntry, NoDifferenceIsTheSame, without_generation};

use crate::attached::AttachedDomain;
use gt_entry::{Control, Entry};
use gt_types::{Allows, Denial, GrantRef, TABLE_ENTRIES};

/// An entry of a domain as the domain last changed it, and the control word that a look at it found.
#[derive(Clone, Copy)]
struct EntrySeen {
    entry: Entry,
    found: Option<Control>,
}

// Returns the parts of a control word, with the generation 0.
fn without_generation(found: Option<Control>) -> Option<Control>
    ensures { result ≡ without_generation found }
{
    match found {
        Some(control) => Some(Control {
            generation: 0,
            ..control
        }),
        None => None,
    }
}

// Returns whether two domains have the same entry, with the same pins of each kind.
fn is_same_entry(one: EntrySeen, other: EntrySeen) -> bool
    ensures { IsTrue result ↔ IsSameEntry one other }
{
    one.entry == other.entry && without_generation(one.found) == without_generation(other.found)
}

/// Proves that two domains without a difference have the same entry under each reference.
pub fn domains_without_a_difference_have_the_same_entries()
    ensures { NoDifferenceIsTheSame }
{}

impl<P: Allows + Drop> AttachedDomain<P> {
    ghost use Rattle.std.specs.Prelude.{◌≡◌, None};
    ghost use Rattle.gt_live.specs.Parts.{words_of};
    ghost use Rattle.gt_attached.specs.Seated.{StaysIdle};
    ghost use Rattle.gt_attached.specs.Renewing.{FindsDifference, GrantsAllOf, GrantsValid, Sees};

    // Grants an entry, unless it is Invalid.
    fn grant_valid(&mut self, gref: GrantRef, entry: Entry) -> Result<(), Denial>
        requires idle { self.old.copying ≡ None }
        ensures stays { StaysIdle self.old self.new }
        ensures grants { GrantsValid P.may self.old.monitor self.old.domain gref entry result self.new.domain }
    {
        if entry.is_invalid() {
            return Ok(());
        }
        self.grant(gref, &entry)
    }

    /// Grants each valid entry that another domain has, under the same reference, from the least one on. In a table
    /// that has made no grant, with the version and the size of the other's, none is refused.
    ///
    /// # Errors
    /// The first refusal: N9, N20, N21, N22 or N19. The entries before it are granted.
    pub fn grant_all_of(&mut self, other: &AttachedDomain<P>) -> Result<(), Denial>
        requires idle { self.old.copying ≡ None }
        ensures stays { StaysIdle self.old self.new }
        ensures grants { GrantsAllOf P.may self.old.monitor self.old.domain other.now.domain result self.new.domain }
    {
        'entries: for at in 0..TABLE_ENTRIES {
            let gref = GrantRef(at);
            match self.grant_valid(gref, other.entry_at(gref)) {
                Ok(()) => {}
                Err(denial) => return Err(denial),
            }
        }
        Ok(())
    }

    // Looks once at one of the domain's entries.
    fn see(&mut self, gref: GrantRef) -> EntrySeen
        requires idle { self.old.copying ≡ None }
        ensures stays { StaysIdle self.old self.new }
        ensures sees { Sees (words_of self.old.monitor).layout self.old.domain gref result self.new.domain }
    {
        let found = self.status(gref);
        let entry = self.entry_at(gref);
        EntrySeen { entry, found }
    }

    /// Returns the least reference whose entry is not alike in both domains, or `None` if all are alike, up to the last
    /// that a table may have. An entry is alike if both domains last changed it to the same entry, and one look at each
    /// word finds the same pins of each kind; or if neither table has it. The generation may differ. So if no other
    /// domain makes a call meanwhile, each pin on the one domain's entries has its counterpart on the other's.
    pub fn first_difference(&mut self, other: &mut AttachedDomain<P>) -> Option<GrantRef>
        requires idle { self.old.copying ≡ None }
        requires other_idle { other.old.copying ≡ None }
        ensures stays { StaysIdle self.old self.new }
        ensures other_stays { StaysIdle other.old other.new }
        ensures finds { FindsDifference (words_of self.old.monitor).layout (words_of other.old.monitor).layout
            (record { one = self.old.domain; other = other.old.domain }) result
            (record { one = self.new.domain; other = other.new.domain }) }
    {
        'entries: for at in 0..TABLE_ENTRIES {
            let gref = GrantRef(at);
            let (mine, theirs) = (self.see(gref), other.see(gref));
            if !is_same_entry(mine, theirs) {
                return Some(gref);
            }
        }
        None
    }
}
