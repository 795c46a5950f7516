//! A domain with its monitor, so that it can move into a thread.
ghost use Rattle.std.specs.Prelude.{◌≡◌};
ghost use Rattle.gt_live.specs.Domains.{HasLeft};
ghost use Rattle.gt_live.specs.Parts.{words_of};
ghost use Rattle.gt_live.specs.declared.domain.Departed.{Departed as Gone};
ghost use Rattle.gt_run.specs.Asking.{IsReadAnswer, plain_answer};

use gt_audit::Trail;
use gt_core::{Answer, Bytes, Request};
use gt_frames::{Copied, Read, Written};
use gt_live::{Departed, Domain, Monitor};
use gt_types::{Allows, Denial};
use std::marker::Model;
use std::sync::Wait;

/// A domain with the monitor that it belongs to. Dropping it finishes the domain.
///
/// A closure captures only values that can be dropped, and a [`Domain`] can't be. So this is what moves into a thread.
pub struct RunningDomain<'m, P: Allows> {
    monitor: &'m Monitor<P>,
    domain: Domain,
}

impl<'m, P: Allows> Model for RunningDomain<'m, P> {
    ghost use Rattle.gt_live.specs.Domains.{BelongsTo};
    ghost use Rattle.gt_run.specs.Asking.{Stand};

    ghost Value = { Stand P };

    ghost view = { λ r. record { monitor = r.monitor.now; domain = r.domain } };

    ghost invariant = { λ r. BelongsTo P.may r.monitor.now r.domain };
}

impl<'m, P: Allows> Drop for RunningDomain<'m, P> {
    fn drop(self)
        ensures { (gone : Gone) × HasLeft (words_of self.entry.monitor).layout self.entry.domain gone }
    {
        let RunningDomain { monitor, domain } = self;
        domain.finish(monitor);
    }
}

// Returns the answer of a call that gives no value.
fn done(answer: Result<(), Denial>) -> Answer
    ensures { result ≡ plain_answer answer }
{
    match answer {
        Ok(()) => Answer::Done,
        Err(denial) => Answer::Denied(denial),
    }
}

fn read(answer: Result<Read, Denial>) -> Answer
    ensures { IsReadAnswer answer result }
{
    match answer {
        Ok(receipt) => Answer::Bytes(Bytes {
            bytes: receipt.into_bytes(),
        }),
        Err(denial) => Answer::Denied(denial),
    }
}

fn written(answer: Result<Written<'_>, Denial>) -> Answer
    ensures { result ≡ plain_answer answer.entry }
{
    match answer {
        Ok(_) => Answer::Done,
        Err(denial) => Answer::Denied(denial),
    }
}

fn copied(answer: Result<Copied, Denial>) -> Answer
    ensures { result ≡ plain_answer answer }
{
    match answer {
        Ok(_) => Answer::Done,
        Err(denial) => Answer::Denied(denial),
    }
}

impl<'m, P: Allows> RunningDomain<'m, P> {
    ghost use Rattle.gt_words.specs.Conditions.{IsSeatOf};
    ghost use Rattle.gt_live.specs.Domains.{BelongsTo};
    ghost use Rattle.gt_live.specs.Parts.{seat_left, trail_of};
    ghost use Rattle.std.specs.Prelude.{MatchBool};
    ghost use Rattle.gt_word_history.specs.declared.view.FlagStep.TheVariants.{Passed};
    ghost use Rattle.gt_model.specs.Asking.{asked};
    ghost use Rattle.gt_calls.specs.Probing.{IsProbe};
    ghost use Rattle.gt_run.specs.Asking.{Asks, IsSameStand, MakesFlagStep, RaisesFlag};

    /// Pairs a domain with its monitor.
    pub fn new(monitor: &'m Monitor<P>, domain: Domain) -> Self
        requires { BelongsTo P.may monitor.now domain }
        ensures { result ≡ record { monitor = monitor.now; domain = domain } }
    {
        RunningDomain { monitor, domain }
    }

    /// Returns the records of its calls so far, in order.
    pub fn trail(&self) -> &Trail
        ensures { result.now ≡ trail_of self.now.domain }
    {
        self.domain.trail()
    }

    /// Leaves the run: releases each mapping with its pin. The entries stay as they are.
    pub fn finish(self) -> Departed
        ensures left { HasLeft (words_of self.entry.monitor).layout self.entry.domain result }
        ensures seat { IsSeatOf (words_of self.entry.monitor) (seat_left result) }
    {
        let RunningDomain { monitor, domain } = self;
        domain.finish(monitor)
    }

    /// Raises a flag, if the run has it.
    pub fn raise_flag(&mut self, flag: usize)
        ensures same { IsSameStand self.old self.new }
        ensures raised { RaisesFlag P.may self.old.monitor flag self.old.domain self.new.domain }
    {
        if self.monitor.has_flag(flag) {
            self.domain.raise_flag(self.monitor, flag);
        }
    }

    /// Passes a flag if it is raised. Otherwise returns false and makes no step.
    pub fn pass_flag(&mut self, flag: usize) -> bool
        ensures same { IsSameStand self.old self.new }
        ensures passed { MatchBool result
            (MakesFlagStep P.may self.old.monitor flag Passed self.old.domain self.new.domain)
            (self.new.domain ≡ self.old.domain) }
    {
        self.monitor.has_flag(flag) && self.domain.pass_flag(self.monitor, flag)
    }

    /// Makes the call that is requested, and returns its answer. A running domain makes no probe.
    pub fn ask<R: Wait>(&mut self, rt: &R, request: Request<'_>) -> Answer
        requires { IsProbe (asked request) → ⊥ }
        ensures monitor { self.new.monitor ≡ self.old.monitor }
        ensures asked { Asks P.may self.old.monitor self.old.domain request.entry result self.new.domain }
    {
        match request {
            Request::Grant { gref, entry } => done(self.domain.grant(self.monitor, gref, &entry)),
            Request::GrantBytes { gref, bytes } => {
                done(self.domain.grant_bytes(self.monitor, gref, bytes))
            }
            Request::Revoke { gref } => done(self.domain.revoke(self.monitor, gref)),
            Request::Withdraw { gref } => done(self.domain.withdraw(self.monitor, gref)),
            Request::Demote { gref } => done(self.domain.demote(self.monitor, gref)),
            Request::Promote { gref } => done(self.domain.promote(self.monitor, gref)),
            Request::Map { dom, gref, flags } => {
                let mapped = self.domain.map(self.monitor, dom, gref, flags);
                mapped.map_or_else(Answer::Denied, Answer::Mapped)
            }
            Request::Unmap { handle } => done(self.domain.unmap(self.monitor, handle)),
            Request::Release { handle } => done(self.domain.release(self.monitor, handle)),
            Request::SetVersion { version } => done(self.domain.set_version(self.monitor, version)),
            Request::SetupTable { frames } => {
                let has = self.domain.setup_table(self.monitor, frames);
                has.map_or_else(Answer::Denied, Answer::Frames)
            }
            Request::QuerySize { dom } => {
                let size = self.domain.query_size(self.monitor, dom);
                size.map_or_else(Answer::Denied, Answer::Size)
            }
            Request::GetVersion { dom } => {
                let version = self.domain.get_version(self.monitor, dom);
                version.map_or_else(Answer::Denied, Answer::Version)
            }
            Request::Load { handle, off, len } => {
                read(self.domain.load(rt, self.monitor, handle, off, len))
            }
            Request::Store { handle, off, bytes } => {
                written(self.domain.store(rt, self.monitor, handle, off, bytes))
            }
            Request::Peek { frame, off, len } => {
                read(self.domain.peek(rt, self.monitor, frame, off, len))
            }
            Request::Poke { frame, off, bytes } => {
                written(self.domain.poke(rt, self.monitor, frame, off, bytes))
            }
            Request::Copy(args) => copied(self.domain.copy(rt, self.monitor, &args)),
            Request::Probe(_) => unreachable!(),
        }
    }
}
