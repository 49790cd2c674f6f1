// The workers of a run, all beside one another.
ghost use Rattle.std.specs.Prelude.{All};
ghost use Rattle.crew.specs.Rows.{EachRan};

use crew::{Stop, Work, run_row, run_rows};
use std::sync::Wait;
use std::thread::{Threads, join_mut};

// Runs the workers of four kinds, all beside one another, as `run_rows`. The last of the last kind is run by the caller's
// thread; where there is none, the last of the kind before it is run whether threads can be made or not.
fn run_four<
    A: Work + Send,
    B: Work + Send,
    D: Work + Send,
    L: Work + Send,
    R: Threads + Wait + Sync,
>(rt: &R, stop: &Stop, first: &mut [A], second: &mut [B], third: &mut [D], last: &mut [L])
    requires first { All A.ready first.old }
    requires second { All B.ready second.old }
    requires third { All D.ready third.old }
    requires last { All L.ready last.old }
    ensures first { EachRan A.ran first.old first.new }
    ensures second { EachRan B.ran second.old second.new }
    ensures third { EachRan D.ran third.old third.new }
    ensures last { EachRan L.ran last.old last.new }
{
    join_mut(
        rt,
        &mut ||
            requires { All A.ready first.now × All B.ready second.now }
            ensures { EachRan A.ran first.entry.now first.exit.now × EachRan B.ran second.entry.now
                second.exit.now }
        { run_rows(rt, stop, first, second) },
        &mut ||
            requires { All D.ready third.now × All L.ready last.now }
            ensures { EachRan D.ran third.entry.now third.exit.now × EachRan L.ran last.entry.now
                last.exit.now }
        { run_rows(rt, stop, third, last) },
    );
}

// Runs the workers of five kinds, all beside one another, as `run_four`.
fn run_five<
    E: Work + Send,
    A: Work + Send,
    B: Work + Send,
    D: Work + Send,
    L: Work + Send,
    R: Threads + Wait + Sync,
>(
    rt: &R,
    stop: &Stop,
    kept: &mut [E],
    first: &mut [A],
    second: &mut [B],
    third: &mut [D],
    last: &mut [L],
)
    requires kept { All E.ready kept.old }
    requires first { All A.ready first.old }
    requires second { All B.ready second.old }
    requires third { All D.ready third.old }
    requires last { All L.ready last.old }
    ensures kept { EachRan E.ran kept.old kept.new }
    ensures first { EachRan A.ran first.old first.new }
    ensures second { EachRan B.ran second.old second.new }
    ensures third { EachRan D.ran third.old third.new }
    ensures last { EachRan L.ran last.old last.new }
{
    join_mut(
        rt,
        &mut ||
            requires { All E.ready kept.now }
            ensures { EachRan E.ran kept.entry.now kept.exit.now }
        { run_row(rt, stop, kept) },
        &mut ||
            requires { (All A.ready first.now × All B.ready second.now) ×
                (All D.ready third.now × All L.ready last.now) }
            ensures { (EachRan A.ran first.entry.now first.exit.now × EachRan B.ran second.entry.now
                second.exit.now)
                × (EachRan D.ran third.entry.now third.exit.now × EachRan L.ran last.entry.now
                last.exit.now) }
        { run_four(rt, stop, first, second, third, last) },
    );
}

/// Runs the workers of five lists, all beside one another. The last of the last list is run by the caller's thread; where there is
/// none, the last of the list before it is run whether threads can be made or not.
pub(crate) fn run_lists<
    E: Work + Send,
    A: Work + Send,
    B: Work + Send,
    D: Work + Send,
    L: Work + Send,
    R: Threads + Wait + Sync,
>(
    rt: &R,
    stop: &Stop,
    kept: &mut Vec<E>,
    first: &mut Vec<A>,
    second: &mut Vec<B>,
    third: &mut Vec<D>,
    last: &mut Vec<L>,
)
    requires kept { All E.ready kept.old.items }
    requires first { All A.ready first.old.items }
    requires second { All B.ready second.old.items }
    requires third { All D.ready third.old.items }
    requires last { All L.ready last.old.items }
    ensures kept { EachRan E.ran kept.old.items kept.new.items }
    ensures first { EachRan A.ran first.old.items first.new.items }
    ensures second { EachRan B.ran second.old.items second.new.items }
    ensures third { EachRan D.ran third.old.items third.new.items }
    ensures last { EachRan L.ran last.old.items last.new.items }
{
    run_five(
        rt,
        stop,
        kept.as_mut_slice(),
        first.as_mut_slice(),
        second.as_mut_slice(),
        third.as_mut_slice(),
        last.as_mut_slice(),
    );
}
