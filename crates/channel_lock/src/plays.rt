//! The steps at the table.
ghost use Rattle.channel_lock.specs.Views.{dealer, first_opening, dealing, newcomer, both, gone};
ghost use Rattle.channel_lock.specs.Turns.{Kept, Takes, Reads, Counts, CountsOne, Leaves, LooksJoined};

use crate::guarded::{Guarded, Named, Picked};
use crate::named::Opened;
use crate::view::SeatView;
use atomic_table::{Badge, Join, Play, Split, TableRule};
use std::marker::PhantomData;

/// The opening that the history began with, and the number of passes.
pub type Told = (Badge<Opened>, u64);

/// The rule of the table behind the lock: what each holder leaves fits what the others know.
pub struct Turns<C> {
    guarded: PhantomData<C>,
}

impl<C: Guarded> TableRule<Option<C>, SeatView, Told> for Turns<C> {
    ghost holds = { λ k. Kept C.stands (first_opening k.0.views) k.1 };

    ghost first = { λ k. dealer (first_opening k.0.views) k.1 };
}

/// A seat takes the lock, and the value with it.
pub struct Take;

impl<C: Guarded> Play<Option<C>, SeatView> for Take {
    ghost then = { Takes C.stands };
}

/// Who holds the lock learns the history.
pub struct Read;

impl<C> Play<Option<C>, SeatView> for Read {
    ghost then = { Reads };
}

/// Who holds the lock adds a named call to the history.
pub struct Count<E> {
    entry: PhantomData<E>,
}

impl<C, E: Named> Play<Option<C>, SeatView> for Count<E> {
    ghost then = { Counts E.entry };
}

/// Who holds the lock adds one call of those that were picked.
pub struct CountOne<P> {
    picked: PhantomData<P>,
}

impl<C, P: Picked> Play<Option<C>, SeatView> for CountOne<P> {
    ghost then = { CountsOne P.picks };
}

/// Who holds the lock gives the value back.
pub struct Leave;

impl<C> Play<Option<C>, SeatView> for Leave {
    ghost then = { Leaves };
}

/// Whoever has all seats sees the whole history.
pub struct LookJoined;

impl<C> Play<Option<C>, SeatView> for LookJoined {
    ghost then = { LooksJoined };
}

/// One seat more is dealt.
pub struct Deal;

impl Split<SeatView> for Deal {
    ghost left = { dealing };

    ghost right = { newcomer };
}

/// Two seats become one.
pub struct Both;

impl Join<SeatView> for Both {
    ghost both = { both };

    ghost spent = { gone };
}
