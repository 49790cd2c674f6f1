// The worker that drains an input which nobody wants.
use crew::{DrainEnd, DrainWorker, Stop, Work};
use host_memory::MemSource;
use std::test::Fail;

// How many bytes there are, which reads fail, what ends the reading, and after how many reads. At most 4,096 bytes are read at
// once, and the end takes a read of its own.
const INPUTS: [(usize, &[u64], DrainEnd, u64); 5] = [
    (0, &[], DrainEnd::End, 1),
    (5, &[], DrainEnd::End, 2),
    (10_000, &[], DrainEnd::End, 4),
    (5, &[0], DrainEnd::ReadFault, 1),
    (10_000, &[1], DrainEnd::ReadFault, 2),
];

#[test]
fn a_drained_input_sets_the_stop(rt: HostRuntime) -> Result<(), Fail> {
    let alloc = rt.alloc();
    for (size, fails, end, reads) in &INPUTS {
        let bytes = vec![in alloc; b'x'; *size]?;
        let stop = Stop::new();
        let mut worker = DrainWorker {
            input: MemSource::new(alloc, bytes).failing_at(fails.to_vec(alloc)?),
            end: None,
        };
        worker.work(&rt, &stop);
        assert!(rt; worker.end == Some(*end) && stop.is_set(), "{size}");
        assert_eq!(rt; worker.input.calls(), *reads, "{size}");
    }
    Ok(())
}
