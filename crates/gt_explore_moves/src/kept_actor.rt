//! A domain as a search keeps it.
ghost use Rattle.std.specs.Prelude.{◌≡◌, IfOk, IsTrue};
ghost use Rattle.std.specs.Option.{option_map};
ghost use Rattle.gt_explore_moves.specs.Copies.{SameActor};

use crate::actor::{Actor, ActorCall, LabelledMapping};
use crate::same::{same_mappings, same_open};
use std::alloc::{AllocError, Global};
use std::marker::Model;

/// A domain in a state of the search. Its open call is in a box, since many of the domains that are kept have none.
#[derive(Drop)]
pub struct KeptActor<'a> {
    next: usize,
    mappings: Vec<LabelledMapping<'a>>,
    open: Option<Box<ActorCall>>,
}

impl<'a> Model for KeptActor<'a> {
    ghost use Rattle.std.specs.Option.{option_map};
    ghost use Rattle.gt_explore_moves.specs.declared.actor.Actor.{Actor};

    ghost Value = { Actor };

    ghost view = { λ a. record { next = a.next; mappings = a.mappings; «open» = option_map (λ o. o.value) a.«open» } };
}

// Puts an open call into a box.
fn boxed(alloc: Global, call: Option<ActorCall>) -> Result<Option<Box<ActorCall>>, AllocError>
    ensures { IfOk result (λ kept. option_map (λ o. o.value) kept ≡ call) }
{
    let Some(call) = call else {
        return Ok(None);
    };
    Ok(Some(Box::new(alloc, call)?))
}

impl<'a> KeptActor<'a> {
    /// Keeps a copy of a domain.
    pub fn of(alloc: Global, actor: &Actor<'a>) -> Result<KeptActor<'a>, AllocError>
        ensures { IfOk result (SameActor actor.now) }
    {
        Ok(KeptActor {
            next: actor.next,
            mappings: Vec::from_slice(alloc, actor.mappings.as_slice())?,
            open: boxed(alloc, actor.open)?,
        })
    }

    // Returns the open call.
    fn open_call(&self) -> Option<ActorCall>
        ensures { result ≡ self.now.«open» }
    {
        self.open.as_ref().map(|call| **call)
    }

    /// Returns whether it is this domain.
    pub fn is_of(&self, actor: &Actor) -> bool
        ensures { IsTrue result → SameActor actor.now self.now }
    {
        actor.next == self.next
            && same_mappings(actor.mappings.as_slice(), self.mappings.as_slice())
            && same_open(actor.open, self.open_call())
    }

    /// Copies the domain.
    pub fn copy(&self, alloc: Global) -> Result<KeptActor<'a>, AllocError>
        ensures { IfOk result (SameActor self.now) }
    {
        Ok(KeptActor {
            next: self.next,
            mappings: Vec::from_slice(alloc, self.mappings.as_slice())?,
            open: boxed(alloc, self.open_call())?,
        })
    }

    /// Returns the domain.
    pub fn into_actor(self) -> Actor<'a>
        ensures { result ≡ self.entry }
    {
        let open = self.open_call();
        Actor {
            next: self.next,
            mappings: self.mappings,
            open,
        }
    }
}
