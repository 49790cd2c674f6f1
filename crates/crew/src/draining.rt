// An input that nobody wants.
ghost use Rattle.std.specs.Prelude.{◌≡◌, ◌<◌, ◌≤◌, Some};
ghost use Rattle.crew.specs.Drains.{DrainRan, Drained};

use crate::stop::Stop;
use crate::work::Work;
use flume_host::Source;
use std::sync::Wait;

/// What ended the reading of an input.
#[derive(Clone, Copy, Debug, PartialEq, Eq)]
pub enum DrainEnd {
    /// It was read to its end.
    End,
    /// 2^40 bytes were read.
    Full,
    /// It failed.
    ReadFault,
}

/// The most bytes that are read.
const LIMIT: u64 = 1 << 40;

/// How many bytes are read at once.
const PIECE: u64 = 4096;

/// Reads an input until it ends, fails or has given 2^40 bytes, and drops what it gives. It takes no memory.
pub fn drain<S: Source>(input: &mut S) -> DrainEnd
    ensures { Drained result (S.left input.old) (S.left input.new) (S.faults input.old)
        (S.faults input.new) }
{
    let mut taken = 0;
    while taken < LIMIT {
        let mut buf = [0u8; PIECE as usize];
        let room = (LIMIT - taken).min(PIECE) as usize;
        match input.read(&mut buf[..room]) {
            Ok(0) => return DrainEnd::End,
            Ok(n) => taken += n as u64,
            Err(_) => return DrainEnd::ReadFault,
        }
    }
    DrainEnd::Full
}

/// The worker of an agent whose standard input is no source: it drains it, and then sets the stop, whatever ended it.
#[derive(Drop)]
pub struct DrainWorker<S> {
    /// The input that is drained.
    pub input: S,
    /// What ended the reading, once it has run.
    pub end: Option<DrainEnd>,
}

impl<S: Source> Work for DrainWorker<S> {
    ghost ready = { λ w. Unit {0} };

    ghost ran = { λ old new. DrainRan S.left S.faults old new };

    fn work<R: Wait>(&mut self, _rt: &R, stop: &Stop) {
        self.end = Some(drain(&mut self.input));
        stop.set();
    }
}
