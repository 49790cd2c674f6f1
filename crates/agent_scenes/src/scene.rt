// What the words of a scenario work on: what the next run is given, the host of the last one, and what came of it.
use crate::ended::Ended;
use crate::objects::Notes;
use crate::own_host::{Gate, OwnHost};
use host_memory::{DiskFault, Flag, MemDisk, MemHost, MemLink, MemRoll, Named, Offer};
use std::alloc::{AllocError, Global};

/// What a host is made of. What is not said is empty.
#[derive(Drop)]
pub struct Given {
    /// The file `x.conf`.
    pub text: Vec<u8>,
    /// The bytes of the input.
    pub input: Vec<u8>,
    /// How many bytes of any kind come before them.
    pub more: u64,
    /// How many bytes each read of the input gives at most.
    pub input_pieces: Vec<usize>,
    /// How many bytes each write of the output takes at most.
    pub output_pieces: Vec<usize>,
    /// Which reads of the input fail.
    pub input_fails: Vec<u64>,
    /// Which calls of the output fail.
    pub output_fails: Vec<u64>,
    /// Which calls of the folder `out` fail.
    pub rolls_fail: Vec<u64>,
    /// Which openings fail.
    pub opens_fail: Vec<u64>,
    /// Which openings lack memory.
    pub opens_lack: Vec<u64>,
    /// The folder `d`.
    pub disk: Option<MemDisk>,
    /// Which calls of its disk fail.
    pub disk_faults: Vec<DiskFault>,
    /// The first read of the input sets the one flag and waits for the other.
    pub held: Option<(Flag, Flag)>,
    /// Folders of rolled files besides `out`.
    pub rolls: Vec<Named<MemRoll>>,
    /// What each draw is.
    pub draw: u64,
    /// Is set once a rolled file of `out` was flushed.
    pub flushed: Option<Flag>,
    /// The ports that are listened at, and what an accept there does.
    pub ports: Vec<(u16, Vec<Offer>)>,
    /// The links of the dialer of `far`, port 4545.
    pub dials: Vec<Option<MemLink>>,
    /// Where the syncs of the first disk that is opened wait.
    pub gate: Option<Gate>,
    /// Is set once a pause has lasted for more than a second.
    pub slow: Option<Flag>,
}

impl Given {
    /// Nothing.
    pub fn new(alloc: Global) -> Given {
        Given {
            text: Vec::new(alloc),
            input: Vec::new(alloc),
            more: 0,
            input_pieces: Vec::new(alloc),
            output_pieces: Vec::new(alloc),
            input_fails: Vec::new(alloc),
            output_fails: Vec::new(alloc),
            rolls_fail: Vec::new(alloc),
            opens_fail: Vec::new(alloc),
            opens_lack: Vec::new(alloc),
            disk: None,
            disk_faults: Vec::new(alloc),
            held: None,
            rolls: Vec::new(alloc),
            draw: 0,
            flushed: None,
            ports: Vec::new(alloc),
            dials: Vec::new(alloc),
            gate: None,
            slow: None,
        }
    }
}

/// A scenario on its way.
#[derive(Drop)]
pub struct Scene {
    /// Where memory comes from.
    pub alloc: Global,
    /// What the next host is made of.
    pub given: Given,
    /// The flags 0 to 3.
    pub flags: Vec<Flag>,
    /// The host that was run on, until a new one is given.
    pub host: Option<OwnHost>,
    /// How many bytes it had written before the last run.
    pub written: usize,
    /// How many lines it had said before the last run.
    pub said: usize,
    /// What the last run ended with.
    pub ended: Ended,
    /// How many calls of the disk were noted.
    pub noted: u64,
    /// What the objects that were handed in have written down.
    pub notes: Notes,
    /// Some run was made.
    pub has_run: bool,
}

fn four_flags(alloc: Global) -> Result<Vec<Flag>, AllocError> {
    let mut flags = Vec::new(alloc);
    for _ in 0..4 {
        flags.push(Flag::new(alloc)?)?;
    }
    Ok(flags)
}

impl Scene {
    /// A scenario of which nothing was said.
    pub fn new(alloc: Global) -> Result<Scene, AllocError> {
        let flags = four_flags(alloc)?;
        Ok(Scene {
            alloc,
            given: Given::new(alloc),
            flags,
            host: None,
            written: 0,
            said: 0,
            ended: Ended::new(alloc),
            noted: 0,
            notes: Notes::new(alloc)?,
            has_run: false,
        })
    }

    /// The host that was run on.
    pub fn host(&self) -> Option<&MemHost> {
        match &self.host {
            Some(own) => Some(&own.host),
            None => None,
        }
    }

    /// The flag of this number.
    pub fn flag(&self, number: &str) -> Option<Flag> {
        match self.flags.get(number.parse::<usize>().ok()?) {
            Some(flag) => flag.handle().ok(),
            None => None,
        }
    }
}
