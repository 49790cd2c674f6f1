// The ring of the events that are left.
use event_core::NoMemory;
use event_ring::Ring;
use record_form::Pointer;
use std::alloc::Global;
use std::test::Fail;

fn place(at: u64) -> Pointer {
    Pointer {
        file: 1,
        at,
        length: 12,
    }
}

// Three slots: 4 is held, 7 is gone and leaves a gap, and 12 finds room where the gap is closed.
fn three_left(alloc: Global) -> Result<Ring, NoMemory> {
    let mut ring = Ring::make(alloc, 3)?;
    ring.push(4, place(30));
    ring.push(7, place(60));
    ring.push(9, place(90));
    ring.mark(4);
    ring.gone(7);
    ring.push(12, place(120));
    Ok(ring)
}

// The least number above this one, and the offset of its record.
fn next(ring: &Ring, after: Option<u64>) -> Option<(u64, u64)> {
    let (number, place) = ring.next_live(after)?;
    Some((number, place.at))
}

// A number or none, and what is above it.
const NEXT: [(Option<u64>, Option<(u64, u64)>); 5] = [
    (None, Some((4, 30))),
    (Some(4), Some((9, 90))),
    (Some(9), Some((12, 120))),
    (Some(12), None),
    (Some(u64::MAX), None),
];

#[test]
fn a_gap_is_closed_and_a_held_event_stays(rt: HostRuntime) -> Result<(), Fail> {
    let ring = three_left(rt.alloc())?;
    assert!(rt; ring.len() == 3 && ring.first_free() == Some(9));
    for row in &NEXT {
        let (after, above) = *row;
        assert!(rt; next(&ring, after) == above, "after {after:?}");
    }
    Ok(())
}
