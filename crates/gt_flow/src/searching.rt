//! The search for the types that bytes of a type reach.
ghost use Rattle.std.specs.Prelude.{◌≡◌, ◌++◌, ◌<◌, ◌≤◌, ℕ, true, not, filter, map, length, IfOk, OnOk, Option, Some, None};
ghost use Rattle.std.specs.Prelude.{is_some, position};
ghost use Rattle.gt_types.specs.declared.TypeId.{TypeId};
ghost use Rattle.gt_flow.specs.Accesses.{AreAmong, flows, is_among};
ghost use Rattle.gt_flow.specs.Paths.{AllOthers, HasPath, IsSearched, hop_from};

use crate::accesses::{access_between, is_among};
use gt_types::{Allows, TypeId};
use std::alloc::{AllocError, Global};
use std::marker::Model;

/// A type that bytes of the source reach.
#[derive(Clone, Copy)]
pub struct Reach {
    pub id: TypeId,
    /// The place of the type before it on a shortest path. The source has place 0.
    pub from: usize,
    /// The number of accesses on a shortest path.
    pub distance: usize,
}

/// The types that bytes of a source reach, in the order of their distances: first the source. A contract sees the list.
#[derive(Drop)]
pub struct ReachedTypes {
    reached: Vec<Reach>,
}

impl Model for ReachedTypes {
    ghost use Rattle.std.specs.Prelude.{List};
    ghost use Rattle.gt_flow.specs.Paths.{AreBackward};
    ghost use Rattle.gt_flow.specs.declared.searching.Reach.{Reach};

    ghost Value = { List Reach };

    ghost view = { λ s. s.reached.items };

    ghost invariant = { λ s. AreBackward s.reached.items };
}

// Returns all types but this one.
fn others(alloc: Global, count: u16, source: TypeId) -> Result<Vec<TypeId>, AllocError>
    ensures { IfOk result (λ left. AllOthers count source left.items) }
{
    let mut left = Vec::new(alloc);
    'types: for id in 0..count {
        if id != source.0 {
            left.push(TypeId(id))?;
        }
    }
    Ok(left)
}

// A type that bytes of the source reach, with its place among these.
#[derive(Clone, Copy)]
struct PlacedReach {
    at: usize,
    reach: Reach,
}

// Appends the types of `left` that one access from `x` reaches, and returns the others.
fn reach_from<P: Allows>(
    alloc: Global,
    policy: &P,
    trusted: &[TypeId],
    reached: &mut Vec<Reach>,
    left: &[TypeId],
    x: PlacedReach,
) -> Result<Vec<TypeId>, AllocError>
    requires near { x.reach.distance ≤ x.at }
    requires place { x.at < length reached.now.items }
    ensures rest { IfOk result (λ rest. rest.items
        ≡ filter (λ y. not (flows (P.may policy.now) (is_among trusted.now x.reach.id) x.reach.id y)) left.now) }
    ensures found { OnOk result (reached.new.items ≡ reached.old.items ++ map (hop_from x.at x.reach)
        (filter (flows (P.may policy.now) (is_among trusted.now x.reach.id) x.reach.id) left.now)) }
{
    let PlacedReach { at, reach } = x;
    let is_trusted = is_among(trusted, reach.id);
    let distance = reach.distance + 1;
    let mut rest = Vec::new(alloc);
    'left: for y in left {
        let id = *y;
        if access_between(policy, is_trusted, reach.id, id).is_some() {
            reached.push(Reach {
                id,
                from: at,
                distance,
            })?;
        } else {
            rest.push(id)?;
        }
    }
    Ok(rest)
}

/// Searches the types that bytes of a type reach, where a policy has this number of types.
///
/// # Errors
/// `AllocError`.
pub fn search<P: Allows>(
    alloc: Global,
    policy: &P,
    trusted: &[TypeId],
    count: u16,
    source: TypeId,
) -> Result<ReachedTypes, AllocError>
    requires among { AreAmong count (P.may policy.now) }
    ensures { IfOk result (λ found. IsSearched (P.may policy.now) (is_among trusted.now) source found) }
{
    let mut left = others(alloc, count, source)?;
    let mut reached = Vec::new(alloc);
    reached.push(Reach {
        id: source,
        from: 0,
        distance: 0,
    })?;
    let mut at = 0;
    'reached: while at < reached.len() {
        let reach = reached[at];
        let x = PlacedReach { at, reach };
        left = reach_from(alloc, policy, trusted, &mut reached, left.as_slice(), x)?;
        at += 1;
    }
    Ok(ReachedTypes { reached })
}

impl ReachedTypes {
    ghost use Rattle.std.specs.Prelude.{◌≡◌, ◌==◌, ◌<◌, ℕ, Bool, length, IfOk, Option, position};
    ghost use Rattle.std.specs.Option.{option_map};
    ghost use Rattle.gt_types.specs.declared.TypeId.{TypeId};
    ghost use Rattle.gt_flow.specs.Flow.{FlowPolicy};
    ghost use Rattle.gt_flow.specs.Paths.{HasPath, IsSearched};

    /// Returns the types that are reached, with their distances.
    pub fn reached(&self) -> &[Reach]
        ensures { result.now ≡ self.entry.now }
    {
        self.reached.as_slice()
    }

    // Returns the place of a type.
    fn target_place(&self, target: TypeId) -> Option<usize>
        ensures { result ≡ position (λ r. r.id.0 == target.0) self.now }
    {
        self.reached.iter().position(|r| r.id.0 == target.0)
    }

    /// Returns a shortest path to a type: the types after the source, the last of which is the target. None if bytes of
    /// the source don't reach it.
    ///
    /// # Errors
    /// `AllocError`.
    pub fn path_to(&self, alloc: Global, target: TypeId) -> Result<Option<Vec<TypeId>>, AllocError>
        ensures { (may : FlowPolicy) (trusted : TypeId → Bool) (source : TypeId)
            → IsSearched may trusted source self.now → IfOk result (λ path. HasPath may trusted source target (option_map (λ p. p.items) path)) }
    {
        let Some(place) = self.target_place(target) else {
            return Ok(None);
        };
        let mut at = place;
        let mut path = Vec::new(alloc);
        'back: while at > 0 {
            let hop = self.reached[at];
            path.insert(0, hop.id)?;
            at = hop.from;
        }
        Ok(Some(path))
    }
}
