// Workers in threads of their own.
ghost use Rattle.std.specs.Prelude.{All};
ghost use Rattle.crew.specs.Rows.{EachRan};

use crate::stop::Stop;
use crate::work::Work;
use std::sync::Wait;
use std::thread;
use std::thread::{Threads, join_mut};

/// Runs each worker in a thread of its own, and returns when all have ended. The last is run by the caller's thread, at once;
/// so is each for which no thread can be made, later. It takes no memory, and there is no error for it.
pub fn run_row<W: Work + Send, R: Threads + Wait + Sync>(rt: &R, stop: &Stop, workers: &mut [W])
    requires { All W.ready workers.old }
    ensures { EachRan W.ran workers.old workers.new }
{
    let threads = workers.len().max(1);
    let run = |_: usize, worker: &mut W|
        requires { W.ready worker.now }
        ensures { W.ran worker.entry.now worker.exit.now }
    { worker.work(rt, stop) };
    thread::for_each_mut(rt, workers, threads, &run);
}

/// Runs the workers of two kinds, all beside each other, as [`run_row`]. The last of the second kind is run by the caller's
/// thread: put the worker there that sets the stop, since it begins whether threads can be made or not.
pub fn run_rows<A: Work + Send, B: Work + Send, R: Threads + Wait + Sync>(
    rt: &R,
    stop: &Stop,
    others: &mut [A],
    last: &mut [B],
)
    requires others { All A.ready others.old }
    requires last { All B.ready last.old }
    ensures others { EachRan A.ran others.old others.new }
    ensures last { EachRan B.ran last.old last.new }
{
    join_mut(
        rt,
        &mut ||
            requires { All A.ready others.now }
            ensures { EachRan A.ran others.entry.now others.exit.now }
        { run_row(rt, stop, others) },
        &mut ||
            requires { All B.ready last.now }
            ensures { EachRan B.ran last.entry.now last.exit.now }
        { run_row(rt, stop, last) },
    );
}

/// Runs the workers of two lists, as [`run_rows`].
pub fn run_all<A: Work + Send, B: Work + Send, R: Threads + Wait + Sync>(
    rt: &R,
    stop: &Stop,
    others: &mut Vec<A>,
    last: &mut Vec<B>,
)
    requires others { All A.ready others.old.items }
    requires last { All B.ready last.old.items }
    ensures others { EachRan A.ran others.old.items others.new.items }
    ensures last { EachRan B.ran last.old.items last.new.items }
{
    run_rows(rt, stop, others.as_mut_slice(), last.as_mut_slice());
}
