// Workers that wait for each other.
use crew::{Stop, Work, run_all};
use std::alloc::Global;
use std::sync::Wait;
use std::sync::atomic::AtomicU64;
use std::sync::atomic::Ordering::SeqCst;
use std::test::Fail;
use std::thread;

// How often a worker looks at what it waits for.
const LOOKS: u32 = 1_000_000_000;

// Waits until it finds the number, and then puts the next one there. The last sets the stop.
#[derive(Drop)]
struct Runner<'a> {
    baton: &'a AtomicU64,
    turn: u64,
    last: u64,
    // It came to its turn.
    came: bool,
    // It found the stop set after it.
    stopped: bool,
}

// Whether the number came, while the looks lasted.
fn wait_for(baton: &AtomicU64, number: u64) -> bool {
    for _ in 0..LOOKS {
        if baton.load(SeqCst) == number {
            return true;
        }
        thread::yield_now();
    }
    false
}

// Whether the stop was set, while the looks lasted.
fn wait_for_stop(stop: &Stop) -> bool {
    for _ in 0..LOOKS {
        if stop.is_set() {
            return true;
        }
        thread::yield_now();
    }
    false
}

impl<'a> Work for Runner<'a> {
    ghost ready = { λ r. Unit {0} };

    ghost ran = { λ old new. Unit {0} };

    fn work<R: Wait>(&mut self, _rt: &R, stop: &Stop) {
        self.came = wait_for(self.baton, self.turn);
        self.baton.store(self.turn.wrapping_add(1), SeqCst);
        if self.turn == self.last {
            stop.set();
        }
        self.stopped = wait_for_stop(stop);
    }
}

// Workers with these turns.
fn runners<'a>(
    alloc: Global,
    baton: &'a AtomicU64,
    turns: &[u64],
    last: u64,
) -> Result<Vec<Runner<'a>>, Fail> {
    let mut list = Vec::new(alloc);
    for turn in turns {
        list.push(Runner {
            baton,
            turn: *turn,
            last,
            came: false,
            stopped: false,
        })?;
    }
    Ok(list)
}

fn all_came(list: &[Runner<'_>]) -> bool {
    list.iter().all(|r| r.came && r.stopped)
}

// The turns of two rows, and the last of all. In each some worker waits for one at a later place, so workers one after
// another would not end.
const ROWS: [(&[u64], &[u64], u64); 4] = [
    (&[2, 0, 1], &[3], 3),
    (&[1], &[2, 0], 2),
    (&[], &[2, 1, 0], 2),
    (&[1, 0], &[], 1),
];

#[test]
fn workers_run_beside_each_other(rt: HostRuntime) -> Result<(), Fail> {
    let alloc = rt.alloc();
    for (others, last, end) in &ROWS {
        let baton = AtomicU64::new(0);
        let stop = Stop::new();
        let mut first = runners(alloc, &baton, others, *end)?;
        let mut second = runners(alloc, &baton, last, *end)?;
        run_all(&rt, &stop, &mut first, &mut second);
        assert!(rt;
            all_came(first.as_slice()) && all_came(second.as_slice()),
            "{:?}",
            others
        );
    }
    Ok(())
}
