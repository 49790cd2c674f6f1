// Pauses, and looks at the stop.
use crew::{Stop, Watch, rest};
use flume_host::{Clock, Halt};
use std::alloc::Global;
use std::test::Fail;

// A clock that notes its pauses.
#[derive(Drop)]
struct NotingClock {
    pauses: Vec<u32>,
    lost: bool,
}

impl Clock for NotingClock {
    ghost use Rattle.std.specs.Prelude.{None};

    ghost moments = { λ c. None };

    fn now(&mut self) -> u64 {
        0
    }

    fn pause(&mut self, ms: u32) {
        if self.pauses.push(ms).is_err() {
            self.lost = true;
        }
    }
}

// Says so from its third look on.
#[derive(Drop)]
struct ThirdLook {
    looks: u64,
    yes: u64,
}

impl Halt for ThirdLook {
    ghost yes = { λ h. h.yes };

    fn asked(&mut self) -> bool {
        self.looks = self.looks.saturating_add(1);
        let told = self.looks >= 3;
        if told {
            self.yes = self.yes.saturating_add(1);
        }
        told
    }

    fn yes(&self) -> u64 {
        self.yes
    }
}

// What a pause was made of, and whether it ended at a stop.
fn pieces<H: Halt>(alloc: Global, halt: &mut H, ms: u32) -> (Vec<u32>, bool) {
    let mut clock = NotingClock {
        pauses: Vec::new(alloc),
        lost: false,
    };
    let told = rest(&mut clock, halt, ms);
    (clock.pauses, told || clock.lost)
}

// How long a pause is, and its pieces.
const PAUSES: [(u32, &[u32]); 5] = [
    (0, &[]),
    (1, &[1]),
    (200, &[200]),
    (450, &[200, 200, 50]),
    (1_000, &[200, 200, 200, 200, 200]),
];

#[test]
fn a_pause_is_made_in_pieces(rt: HostRuntime) -> Result<(), Fail> {
    let alloc = rt.alloc();
    let stop = Stop::new();
    for (ms, wanted) in &PAUSES {
        let (made, told) = pieces(alloc, &mut Watch::new(&stop), *ms);
        assert!(rt; made.as_slice() == *wanted && !told, "{ms}");
    }
    Ok(())
}

#[test]
fn a_pause_ends_at_the_stop(rt: HostRuntime) -> Result<(), Fail> {
    let alloc = rt.alloc();
    let mut third = ThirdLook { looks: 0, yes: 0 };
    let (made, told) = pieces(alloc, &mut third, 1_000);
    assert!(rt; made.as_slice() == [200, 200].as_slice() && told);
    assert_eq!(rt; third.yes(), 1);
    let stop = Stop::new();
    stop.set();
    let mut watch = Watch::new(&stop);
    let (made, told) = pieces(alloc, &mut watch, 1_000);
    assert!(rt; made.is_empty() && told);
    assert_eq!(rt; watch.yes(), 1);
    Ok(())
}
