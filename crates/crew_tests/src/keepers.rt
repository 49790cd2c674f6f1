// The worker of a channel on a disk.
use crate::clock::PausingClock;
use channel_face::{CheckRefused, Counter, Face, KeepFace, MendFace, OpenCause, PruneRefused};
use crew::{Stop, Work};
use flume_host::Steps;
use host_memory::MemHalt;
use keep_worker::KeepWorker;
use std::alloc::Global;
use std::sync::Wait;
use std::sync::ledger::Ledger;
use std::test::Fail;

// A port that answers by a script, and notes its calls as letters: c of a checkpoint, p of a removal of old files, m of a mend.
#[derive(Drop)]
struct KeptPort {
    // What the first checkpoints are answered; later ones are laid.
    checks: &'static [Result<(), CheckRefused>],
    // What the first removals are answered; later ones find no file.
    prunes: &'static [Result<u64, PruneRefused>],
    // How many of each there were.
    checked: usize,
    pruned: usize,
    calls: Vec<u8>,
    lost: bool,
}

impl KeptPort {
    fn note(&mut self, call: u8) {
        if self.calls.push(call).is_err() {
            self.lost = true;
        }
    }
}

impl Face for KeptPort {
    ghost own = { λ _ _ _ _. ⊥ };

    ghost saw = { λ _ _ _. ⊥ };

    ghost seen = { λ _. 0 };

    ghost kept = { λ _ _. Unit {0} };

    ghost kept_none = { λ _. tt };

    ghost kept_then = { λ _ _ _ _ _. tt };
}

impl MendFace for KeptPort {
    ghost on_disk = { λ _. Unit {0} };

    fn mend<L: Ledger>(&mut self, _steps: &mut Steps<L>) -> Result<bool, OpenCause> {
        self.note(b'm');
        Err(OpenCause::DiskFault)
    }

    fn size(&mut self) -> u64 {
        0
    }
}

impl KeepFace for KeptPort {
    ghost saw_laid = { λ _. Unit {0} };

    ghost saw_pruned = { λ _. Unit {0} };

    fn checkpoint(&mut self) -> Result<(), CheckRefused> {
        self.note(b'c');
        let place = self.checked;
        self.checked = place.saturating_add(1);
        self.checks.get(place).copied().unwrap_or(Ok(()))
    }

    fn prune(&mut self) -> Result<u64, PruneRefused> {
        self.note(b'p');
        let place = self.pruned;
        self.pruned = place.saturating_add(1);
        self.prunes.get(place).copied().unwrap_or(Ok(0))
    }
}

type Keeping = KeepWorker<KeptPort, PausingClock>;

// A run of a worker, and what is seen of it.
struct Row {
    // How often it may go on. It asks before each piece of a pause, which has at most 200 milliseconds.
    after: u64,
    // The interval.
    interval: u32,
    // What the first checkpoints and removals are answered.
    checks: &'static [Result<(), CheckRefused>],
    prunes: &'static [Result<u64, PruneRefused>],
    // Its calls.
    calls: &'static str,
    // The milliseconds of all pauses.
    paused: u64,
}

const NONE: Row = Row {
    after: 0,
    interval: 1_000,
    checks: &[],
    prunes: &[],
    calls: "",
    paused: 0,
};

const ROWS: &[Row] = &[
    // no checkpoint comes before its interval, and none after the stop
    NONE,
    Row {
        after: 4,
        paused: 800,
        ..NONE
    },
    Row {
        after: 5,
        calls: "cp",
        paused: 1_000,
        ..NONE
    },
    Row {
        after: 9,
        calls: "cp",
        paused: 1_800,
        ..NONE
    },
    Row {
        after: 10,
        calls: "cpcp",
        paused: 2_000,
        ..NONE
    },
    Row {
        after: 6,
        interval: 1_001,
        calls: "cp",
        paused: 1_001,
        ..NONE
    },
    Row {
        after: 431_999,
        interval: 86_400_000,
        paused: 86_399_800,
        ..NONE
    },
    // a checkpoint whose file failed, or whose number is at its end, is followed by a removal too, and no mend
    Row {
        after: 10,
        checks: &[
            Err(CheckRefused::CheckFault),
            Err(CheckRefused::Spent {
                counter: Counter::Check,
            }),
        ],
        prunes: &[Ok(3)],
        calls: "cpcp",
        paused: 2_000,
        ..NONE
    },
    // a removal that failed breaks nothing
    Row {
        after: 10,
        prunes: &[Err(PruneRefused::DiskFault)],
        calls: "cpcp",
        paused: 2_000,
        ..NONE
    },
    // a channel that was broken, or that a flush broke, is mended, also where the removal meets it first
    Row {
        after: 10,
        checks: &[Err(CheckRefused::Broken)],
        prunes: &[Err(PruneRefused::Broken)],
        calls: "cpmcp",
        paused: 2_000,
        ..NONE
    },
    Row {
        after: 10,
        checks: &[Err(CheckRefused::DiskFault)],
        prunes: &[Err(PruneRefused::Broken)],
        calls: "cpmcp",
        paused: 2_000,
        ..NONE
    },
    Row {
        after: 15,
        prunes: &[Ok(0), Err(PruneRefused::Broken)],
        calls: "cpcpmcp",
        paused: 3_000,
        ..NONE
    },
];

// The worker of a row.
fn worker_of(alloc: Global, row: &Row) -> Keeping {
    KeepWorker {
        port: KeptPort {
            checks: row.checks,
            prunes: row.prunes,
            checked: 0,
            pruned: 0,
            calls: Vec::new(alloc),
            lost: false,
        },
        channel: 0,
        interval: row.interval,
        clock: PausingClock { paused: 0 },
    }
}

// Whether the worker of a row does as the row says.
fn does_so<R: Wait>(rt: &R, alloc: Global, row: &Row) -> bool {
    let mut worker = worker_of(alloc, row);
    let mut halt = MemHalt {
        after: row.after,
        yes: 0,
    };
    worker.work_until(rt, &mut halt);
    worker.port.calls.as_slice() == row.calls.as_bytes()
        && !worker.port.lost
        && worker.clock.paused == row.paused
        && halt.yes == 1
}

#[test]
fn a_channel_is_kept_after_each_interval(rt: HostRuntime) -> Result<(), Fail> {
    for (place, row) in ROWS.iter().enumerate() {
        let does = does_so(&rt, rt.alloc(), row);
        assert!(rt; does, "{place}");
    }
    Ok(())
}

#[test]
fn a_worker_that_finds_the_stop_set_keeps_nothing(rt: HostRuntime) -> Result<(), Fail> {
    let mut worker = worker_of(rt.alloc(), &NONE);
    let stop = Stop::new();
    stop.set();
    worker.work(&rt, &stop);
    assert!(rt; worker.port.calls.is_empty() && worker.clock.paused == 0);
    Ok(())
}
