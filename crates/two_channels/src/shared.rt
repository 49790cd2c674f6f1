// A shared channel of either kind.
ghost use Rattle.std.specs.Prelude.{◌≡◌};
ghost use Rattle.channel_face.specs.Counters.{counts_of};
ghost use Rattle.shared_channel.specs.Calls.{state_seen};
ghost use Rattle.channel_lock.specs.Calls.{calls_by};
ghost use Rattle.channel_lock.specs.Turns.{HasAll};
ghost use Rattle.two_channels.specs.Ports.{pass_of as port_pass};
ghost use Rattle.two_channels.specs.Shares.{IsPortOf, LeftIn, LooksIn, StandsClosed, pass_of, table_of};

use crate::port::EitherPort;
use channel_face::Channel;
use shared_channel::{Closed, Joins, Look, Pass, Port, Shared};
use std::sync::Wait;

/// A shared channel that is on a disk, or one that is not.
#[derive(Drop)]
pub enum EitherShared<A: Channel, B: Channel> {
    /// One on a disk.
    Disk(Shared<A>),
    /// One in memory.
    Memory(Shared<B>),
}

/// A channel of either kind that nobody shares any more, and a pass that has seen the calls that it stands for.
#[derive(Drop)]
pub enum EitherClosed<A, B> {
    /// One on a disk.
    Disk(Closed<A>),
    /// One in memory.
    Memory(Closed<B>),
}

impl<A: Channel, B: Channel> EitherShared<A, B> {
    /// A port with this pass, of the kind that the channel is of. It takes no memory.
    pub fn port<'a, R: Wait>(&'a self, rt: &'a R, pass: Pass) -> EitherPort<'a, R, A, B>
        requires { pass.table_id ≡ table_of self.now }
        ensures pass { port_pass result ≡ pass }
        ensures kind { IsPortOf self.now result }
    {
        match self {
            EitherShared::Disk(shared) => EitherPort::Disk(Port::new(rt, shared, pass)),
            EitherShared::Memory(shared) => EitherPort::Memory(Port::new(rt, shared, pass)),
        }
    }
}

impl<A: Channel, B: Channel> EitherShared<A, B> {
    /// What is counted, and whether the channel is broken, of one state, as [`Shared::look`].
    pub fn look<R: Wait>(&self, rt: &R, pass: &mut Pass) -> Look
        requires { pass.old.table_id ≡ table_of self.now }
        ensures same { (pass.new.table_id ≡ pass.old.table_id)
            × (pass.new.number ≡ pass.old.number) }
        ensures look { LooksIn A.stands A.tells B.stands B.tells self.now pass.old.view
            pass.new.view }
        ensures whole { HasAll pass.old.view → pass.new.view.seen ≡ pass.old.view.seen }
        ensures counts { result.counts ≡ counts_of pass.new.view.base pass.new.view.seen }
        ensures broken { result.broken ≡ (state_seen pass.new.view).broken }
    {
        match self {
            EitherShared::Disk(shared) => shared.look(rt, pass),
            EitherShared::Memory(shared) => shared.look(rt, pass),
        }
    }
}

impl<A: Channel + Drop, B: Channel + Drop> EitherShared<A, B> {
    /// Hands the channel back, and a pass that has seen the calls that it then stands for, as [`Shared::close`].
    pub fn close<R: Wait>(self, rt: &R, pass: Pass) -> EitherClosed<A, B>
        requires { pass.table_id ≡ table_of self }
        ensures same { ((pass_of result).table_id ≡ pass.table_id)
            × ((pass_of result).number ≡ pass.number) }
        ensures left { LeftIn A.stands A.tells B.stands B.tells self pass.view result }
        ensures channel { StandsClosed A.stands B.stands self pass.view.base
            (pass_of result).view.seen
            result }
        ensures all { HasAll pass.view → calls_by pass.view.numbers (pass_of result).view.seen ≡
            (pass_of result).view.seen }
        ensures whole { HasAll pass.view → (pass_of result).view.seen ≡ pass.view.seen }
    {
        match self {
            EitherShared::Disk(shared) => EitherClosed::Disk(shared.close(rt, pass)),
            EitherShared::Memory(shared) => EitherClosed::Memory(shared.close(rt, pass)),
        }
    }
}

impl<A: Channel, B: Channel> Joins for EitherShared<A, B> {
    ghost use Rattle.two_channels.specs.Shares.{table_of};

    ghost table = { λ s. table_of s };

    fn join_pass(&self, into: &mut Pass, from: Pass) {
        match self {
            EitherShared::Disk(shared) => shared.join_pass(into, from),
            EitherShared::Memory(shared) => shared.join_pass(into, from),
        }
    }
}
