// The outside in memory, by what no clause says: chosen failures happen, and calls succeed with ample memory.
use flume_host::{
    Clock, Disk, Failed, FileName, FileRefused, Host, NameRefused, Random, RollDir, Sink, Source,
};
use host_memory::{
    DiskFault, MemClock, MemDisk, MemFile, MemHost, MemRandom, MemRoll, MemSink, MemSource, Named,
    Part, Stood,
};
use std::alloc::{AllocError, Global};
use std::test::Fail;

const ONE: FileName = FileName::Log(1);

const TWO: FileName = FileName::Log(2);

const THREE: FileName = FileName::Check(3);

fn source(
    alloc: Global,
    text: &[u8],
    pieces: &[usize],
    fails: &[u64],
) -> Result<MemSource, AllocError> {
    let source = MemSource::new(alloc, text.to_vec(alloc)?).in_pieces(pieces.to_vec(alloc)?);
    Ok(source.failing_at(fails.to_vec(alloc)?))
}

// What the reads of a source answer in order.
const READS: [Result<usize, Failed>; 5] = [Ok(1), Ok(1), Ok(4), Err(Failed), Ok(0)];

#[test]
fn a_source_gives_pieces_and_fails_where_chosen(rt: HostRuntime) -> Result<(), Fail> {
    let mut source = source(rt.alloc(), b"abcdef", &[1, 0, 9], &[3])?;
    let mut into = [0u8; 4];
    for (row, want) in READS.iter().enumerate() {
        let want = *want;
        assert!(rt; source.read(&mut into) == want, "row {row}");
    }
    assert!(rt; into.as_slice() == b"cdef".as_slice());
    assert!(rt; (source.calls(), source.faults()) == (5, 1));
    Ok(())
}

// Calls of a sink: a write of these bytes, or a flush; and how many bytes are taken.
const SINK_CALLS: [(Option<&[u8]>, Result<usize, Failed>); 5] = [
    (Some(b"abc"), Ok(2)),
    (Some(b"cde"), Ok(3)),
    (Some(b"f"), Err(Failed)),
    (None, Err(Failed)),
    (None, Ok(0)),
];

fn sink_call(sink: &mut MemSink, bytes: Option<&[u8]>) -> Result<usize, Failed> {
    match bytes {
        Some(bytes) => sink.write(bytes),
        None => {
            sink.flush()?;
            Ok(0)
        }
    }
}

fn sink(alloc: Global, pieces: &[usize], fails: &[u64]) -> Result<MemSink, AllocError> {
    let sink = MemSink::new(alloc).in_pieces(pieces.to_vec(alloc)?);
    Ok(sink.failing_at(fails.to_vec(alloc)?))
}

#[test]
fn a_sink_takes_pieces_and_fails_where_chosen(rt: HostRuntime) -> Result<(), Fail> {
    let mut sink = sink(rt.alloc(), &[2, 9], &[2, 3])?;
    for (row, case) in SINK_CALLS.iter().enumerate() {
        let (bytes, want) = *case;
        assert!(rt; sink_call(&mut sink, bytes) == want, "row {row}");
    }
    assert!(rt; sink.bytes() == b"abcde".as_slice());
    assert!(rt; (sink.calls(), sink.faults()) == (5, 2));
    Ok(())
}

#[derive(Clone, Copy)]
enum Step {
    Make(FileName),
    Write(FileName, u64, &'static [u8]),
    Sync(FileName),
    Settle,
    Remove(FileName),
    Len(FileName),
}

fn try_make(disk: &mut MemDisk, name: FileName) -> Option<bool> {
    match disk.file(name) {
        None => Some(disk.make(name).is_ok()),
        Some(_) => None,
    }
}

fn try_write(disk: &mut MemDisk, name: FileName, at: u64, bytes: &[u8]) -> Option<bool> {
    match disk.file(name) {
        Some(was) if at <= was.len() as u64 => Some(disk.write_at(name, at, bytes).is_ok()),
        _ => None,
    }
}

fn try_sync(disk: &mut MemDisk, name: FileName) -> Option<bool> {
    match disk.file(name) {
        Some(_) => Some(disk.sync(name).is_ok()),
        None => None,
    }
}

fn try_remove(disk: &mut MemDisk, name: FileName) -> Option<bool> {
    match disk.file(name) {
        Some(_) => Some(disk.remove(name).is_ok()),
        None => None,
    }
}

fn try_len(disk: &mut MemDisk, name: FileName) -> Option<bool> {
    match disk.file(name) {
        Some(_) => Some(disk.len(name).is_ok()),
        None => None,
    }
}

// Makes a call whose condition holds, and says whether it answered Ok. A call whose condition does not hold is not made.
fn try_step(disk: &mut MemDisk, step: Step) -> Option<bool> {
    match step {
        Step::Make(name) => try_make(disk, name),
        Step::Write(name, at, bytes) => try_write(disk, name, at, bytes),
        Step::Sync(name) => try_sync(disk, name),
        Step::Settle => Some(disk.settle().is_ok()),
        Step::Remove(name) => try_remove(disk, name),
        Step::Len(name) => try_len(disk, name),
    }
}

fn file(alloc: Global, name: FileName, bytes: &[u8]) -> Result<MemFile, AllocError> {
    Ok(MemFile {
        name,
        bytes: bytes.to_vec(alloc)?,
    })
}

fn disk(alloc: Global) -> Result<MemDisk, AllocError> {
    let mut files = Vec::new(alloc);
    files.push(file(alloc, THREE, b"seven")?)?;
    files.push(file(alloc, ONE, b"old")?)?;
    MemDisk::with_files(alloc, files)
}

// The place of the first call that is not answered Ok.
fn first_not_done(disk: &mut MemDisk, steps: &[Step]) -> Option<usize> {
    for (row, step) in steps.iter().enumerate() {
        if try_step(disk, *step) != Some(true) {
            return Some(row);
        }
    }
    None
}

const CALLS_THAT_SUCCEED: [Step; 7] = [
    Step::Make(TWO),
    Step::Write(TWO, 0, b"abc"),
    Step::Write(TWO, 2, b"xyz"),
    Step::Sync(TWO),
    Step::Remove(ONE),
    Step::Settle,
    Step::Len(TWO),
];

const FILES_AFTER_THEM: [(FileName, Option<&[u8]>); 3] = [
    (ONE, None),
    (TWO, Some(b"abxyz")),
    (THREE, Some(b"seven")),
];

// A name, and the next one that is there.
const NEXT_NAMES: [(Option<FileName>, Option<FileName>); 3] = [
    (None, Some(TWO)),
    (Some(TWO), Some(THREE)),
    (Some(THREE), None),
];

// The first of the files that holds something else, or is there where none is to be.
fn first_other_file(disk: &MemDisk) -> Option<FileName> {
    for (name, bytes) in &FILES_AFTER_THEM {
        if disk.file(*name) != *bytes {
            return Some(*name);
        }
    }
    None
}

// The place of the first name after which another one comes.
fn first_other_next(disk: &mut MemDisk) -> Option<usize> {
    for (row, (after, next)) in NEXT_NAMES.iter().enumerate() {
        if disk.next_name(*after) != Ok(*next) {
            return Some(row);
        }
    }
    None
}

#[test]
fn a_disk_does_what_is_asked(rt: HostRuntime) -> Result<(), Fail> {
    let mut disk = disk(rt.alloc())?;
    let wrong = first_not_done(&mut disk, &CALLS_THAT_SUCCEED);
    assert!(rt; wrong.is_none(), "{wrong:?}");
    let wrong = first_other_file(&disk);
    assert!(rt; wrong.is_none(), "{wrong:?}");
    let wrong = first_other_next(&mut disk);
    assert!(rt; wrong.is_none(), "{wrong:?}");
    assert!(rt; (disk.calls(), disk.syncs(), disk.faults()) == (10, 1, 0));
    Ok(())
}

// The first calls, which fail, and what is left of each.
const FAULTS: [DiskFault; 10] = [
    DiskFault {
        call: 0,
        part: Part::Nothing,
    },
    DiskFault {
        call: 1,
        part: Part::Front(0),
    },
    DiskFault {
        call: 2,
        part: Part::Front(2),
    },
    DiskFault {
        call: 3,
        part: Part::Nothing,
    },
    DiskFault {
        call: 4,
        part: Part::Front(9),
    },
    DiskFault {
        call: 5,
        part: Part::Nothing,
    },
    DiskFault {
        call: 6,
        part: Part::Nothing,
    },
    DiskFault {
        call: 7,
        part: Part::Nothing,
    },
    DiskFault {
        call: 8,
        part: Part::Front(1),
    },
    DiskFault {
        call: 9,
        part: Part::Nothing,
    },
];

const CALLS_THAT_FAIL: [(Step, bool); 11] = [
    (Step::Make(TWO), false),
    (Step::Make(TWO), false),
    (Step::Write(TWO, 0, b"abc"), false),
    (Step::Write(TWO, 2, b"x"), false),
    (Step::Write(TWO, 1, b"yz"), false),
    (Step::Sync(TWO), false),
    (Step::Settle, false),
    (Step::Remove(ONE), false),
    (Step::Remove(ONE), false),
    (Step::Len(TWO), false),
    (Step::Len(TWO), true),
];

fn failing_disk(alloc: Global) -> Result<MemDisk, AllocError> {
    Ok(disk(alloc)?.failing_at(FAULTS.to_vec(alloc)?))
}

#[test]
fn a_disk_fails_where_chosen(rt: HostRuntime) -> Result<(), Fail> {
    let mut disk = failing_disk(rt.alloc())?;
    for (row, case) in CALLS_THAT_FAIL.iter().enumerate() {
        let (step, ok) = *case;
        assert!(rt; try_step(&mut disk, step) == Some(ok), "row {row}");
    }
    assert!(rt; disk.file(ONE).is_none() && disk.file(TWO) == Some(b"ayz".as_slice()));
    assert!(rt; (disk.calls(), disk.syncs(), disk.faults()) == (11, 1, 10));
    Ok(())
}

const CALLS_BEFORE_A_STOP: [Step; 5] = [
    Step::Make(TWO),
    Step::Write(TWO, 0, b"abc"),
    Step::Sync(TWO),
    Step::Write(TWO, 0, b"XY"),
    Step::Remove(ONE),
];

struct Stop {
    moment: u64,
    // what stands of the second write and of the removal
    written: Stood,
    removed: Stood,
    // what a crash then leaves of the second file, and whether the first is there
    two: &'static [u8],
    one: bool,
}

const STOPS: [Stop; 7] = [
    Stop {
        moment: 2,
        written: Stood::Old,
        removed: Stood::Old,
        two: b"abc",
        one: true,
    },
    Stop {
        moment: 3,
        written: Stood::Old,
        removed: Stood::Old,
        two: b"abc",
        one: true,
    },
    Stop {
        moment: 3,
        written: Stood::New,
        removed: Stood::Old,
        two: b"XYc",
        one: true,
    },
    Stop {
        moment: 3,
        written: Stood::Front(1),
        removed: Stood::Old,
        two: b"Xbc",
        one: true,
    },
    Stop {
        moment: 4,
        written: Stood::Garbage(b'?'),
        removed: Stood::Old,
        two: b"??c",
        one: true,
    },
    Stop {
        moment: 4,
        written: Stood::Old,
        removed: Stood::New,
        two: b"abc",
        one: false,
    },
    Stop {
        moment: 5,
        written: Stood::Old,
        removed: Stood::Old,
        two: b"abc",
        one: false,
    },
];

// Whether a crash of the disk leaves what is said.
fn is_left(disk: &MemDisk, stop: &Stop) -> Result<bool, AllocError> {
    let stood = [
        Stood::New,
        Stood::New,
        Stood::Old,
        stop.written,
        stop.removed,
    ];
    let left = disk.stopped_at(stop.moment, &stood)?;
    Ok(left.file(TWO) == Some(stop.two) && left.file(ONE).is_some() == stop.one)
}

#[test]
fn a_stop_leaves_what_is_chosen(rt: HostRuntime) -> Result<(), Fail> {
    let mut disk = disk(rt.alloc())?;
    let wrong = first_not_done(&mut disk, &CALLS_BEFORE_A_STOP);
    assert!(rt; wrong.is_none(), "{wrong:?}");
    assert!(rt; disk.moments() == 5);
    for (row, stop) in STOPS.iter().enumerate() {
        assert!(rt; is_left(&disk, stop)?, "row {row}");
    }
    Ok(())
}

fn kept_folder(alloc: Global) -> Result<Vec<Named<MemDisk>>, AllocError> {
    let mut folders = Vec::new(alloc);
    folders.push(Named {
        path: String::from_str(alloc, "kept")?,
        object: Some(disk(alloc)?),
    })?;
    Ok(folders)
}

fn host(alloc: Global) -> Result<MemHost, AllocError> {
    let folders = kept_folder(alloc)?;
    let fails = [2].as_slice().to_vec(alloc)?;
    let input = source(alloc, b"in", &[], &[0])?;
    Ok(MemHost::new(alloc, input, MemSink::new(alloc), folders).failing_opens(fails))
}

#[test]
fn a_host_hands_its_input_out_and_takes_it_back(rt: HostRuntime) -> Result<(), Fail> {
    let mut host = host(rt.alloc())?;
    let mut input = host.take_input();
    for want in [Err(Failed), Ok(2)] {
        assert!(rt; input.read(&mut [0; 4]) == want);
    }
    host.keep_input(input);
    assert!(rt; (host.faults(), host.take_input().faults()) == (1, 0));
    Ok(())
}

// What was written to the output that was given back.
fn kept_output<'a>(host: &'a MemHost) -> &'a [u8] {
    match host.output() {
        Some(sink) => sink.bytes(),
        None => b"",
    }
}

// What was said first.
fn first_line<'a>(host: &'a MemHost) -> &'a str {
    match host.said() {
        [line, ..] => line.as_str(),
        [] => "",
    }
}

#[test]
fn a_host_keeps_its_output_and_what_is_said(rt: HostRuntime) -> Result<(), Fail> {
    let mut host = host(rt.alloc())?;
    let mut output = host.take_output();
    assert!(rt; output.write(b"out") == Ok(3));
    host.keep_output(output);
    host.say("a line");
    assert!(rt; kept_output(&host) == b"out".as_slice());
    assert!(rt; first_line(&host) == "a line");
    Ok(())
}

// Opens a folder and gives its disk back, and says whether it was opened.
fn is_opened(host: &mut MemHost, path: &str) -> bool {
    match host.open_disk(path) {
        Ok(disk) => {
            host.keep_disk(path, disk);
            true
        }
        Err(_) => false,
    }
}

// Whether the first file is in a folder that was given back.
fn has_one(host: &MemHost, path: &str) -> bool {
    match host.disk(path) {
        Some(disk) => disk.file(ONE).is_some(),
        None => false,
    }
}

const OPENINGS: [(&str, bool); 4] = [("kept", true), ("new", true), ("new", false), ("new", true)];

#[test]
fn a_host_opens_folders(rt: HostRuntime) -> Result<(), Fail> {
    let mut host = host(rt.alloc())?;
    for (row, case) in OPENINGS.iter().enumerate() {
        let (path, opened) = *case;
        assert!(rt; is_opened(&mut host, path) == opened, "row {row}");
    }
    assert!(rt; has_one(&host, "kept"));
    assert!(rt; host.open_disk("new").is_ok());
    assert!(rt; matches!(host.open_disk("new"), Err(NameRefused::Failed)));
    assert!(rt; (host.opens(), host.faults(), host.disk_faults()) == (6, 2, 0));
    Ok(())
}

// The bytes of the file of this name.
fn rolled<'a>(roll: &'a MemRoll, name: &str) -> Option<&'a [u8]> {
    for file in roll.files() {
        if file.name.as_str() == name {
            return Some(&file.bytes);
        }
    }
    None
}

#[derive(Clone, Copy)]
enum RollCall {
    Begin(&'static str),
    Write(&'static [u8]),
    Flush,
}

// Calls of a folder of rolled files, and how many bytes are taken.
const ROLL_CALLS: [(RollCall, Result<usize, Failed>); 9] = [
    (RollCall::Write(b"abc"), Err(Failed)),
    (RollCall::Begin("one"), Ok(0)),
    (RollCall::Write(b"abc"), Ok(2)),
    (RollCall::Begin("one"), Err(Failed)),
    (RollCall::Begin("two"), Err(Failed)),
    (RollCall::Write(b"lost"), Err(Failed)),
    (RollCall::Begin("two"), Ok(0)),
    (RollCall::Write(b"z"), Ok(1)),
    (RollCall::Flush, Ok(0)),
];

fn roll_call(roll: &mut MemRoll, call: RollCall) -> Result<usize, Failed> {
    match call {
        RollCall::Begin(name) => roll.begin(name)?,
        RollCall::Write(bytes) => return roll.write(bytes),
        RollCall::Flush => roll.flush()?,
    }
    Ok(0)
}

// The files, and what they hold then.
const ROLLED: [(&str, &[u8]); 2] = [("one", b"ab"), ("two", b"z")];

// The place of the first file that holds something else.
fn first_other_roll(roll: &MemRoll) -> Option<usize> {
    for (row, (name, want)) in ROLLED.iter().enumerate() {
        if rolled(roll, name) != Some(*want) {
            return Some(row);
        }
    }
    None
}

fn roll(alloc: Global, pieces: &[usize], fails: &[u64]) -> Result<MemRoll, AllocError> {
    let roll = MemRoll::new(alloc).in_pieces(pieces.to_vec(alloc)?);
    Ok(roll.failing_at(fails.to_vec(alloc)?))
}

#[test]
fn rolled_files_take_pieces_and_fail_where_chosen(rt: HostRuntime) -> Result<(), Fail> {
    let mut roll = roll(rt.alloc(), &[2], &[4])?;
    for (row, case) in ROLL_CALLS.iter().enumerate() {
        let (call, want) = *case;
        assert!(rt; roll_call(&mut roll, call) == want, "row {row}");
    }
    let wrong = first_other_roll(&roll);
    assert!(rt; wrong.is_none(), "{wrong:?}");
    assert!(rt; (roll.faults(), roll.calls()) == (4, 9));
    Ok(())
}

const CLOCK: MemClock = MemClock {
    moment: 5000,
    step: 10,
};

const RANDOM: MemRandom = MemRandom {
    number: u64::MAX,
    step: 2,
};

#[test]
fn a_host_hands_out_times(rt: HostRuntime) -> Result<(), Fail> {
    let mut host = host(rt.alloc())?.with_times(CLOCK, RANDOM);
    let mut clock = host.clock();
    assert!(rt; (clock.now(), clock.now()) == (5000, 5010));
    let mut random = host.random();
    assert!(rt; (random.draw(), random.draw()) == (u64::MAX, 1));
    Ok(())
}

// Whether the folder of this path was given back with this file.
fn has_rolled(host: &MemHost, path: &str, name: &str, bytes: &[u8]) -> bool {
    match host.roll(path) {
        Some(roll) => rolled(roll, name) == Some(bytes),
        None => false,
    }
}

#[test]
fn a_host_hands_out_rolled_files(rt: HostRuntime) -> Result<(), Fail> {
    let mut host = host(rt.alloc())?;
    let Ok(mut roll) = host.open_roll("out") else {
        return Err(Fail::from("not opened"));
    };
    assert!(rt; (roll.begin("5000-1"), roll.write(b"x\n")) == (Ok(()), Ok(2)));
    match host.open_roll("out") {
        Ok(_) => return Err(Fail::from("opened twice")),
        Err(_) => host.keep_roll("out", roll),
    }
    assert!(rt; has_rolled(&host, "out", "5000-1", b"x\n"));
    assert!(rt; (host.faults(), host.opens()) == (1, 2));
    Ok(())
}

// Files of a host, and their sizes.
const FILES: [(&str, usize); 3] = [("small", 3), ("largest", 1_048_576), ("large", 1_048_577)];

// A host with these files.
fn host_with_files(alloc: Global) -> Result<MemHost, AllocError> {
    let mut files = Vec::new(alloc);
    for (path, size) in &FILES {
        files.push(Named {
            path: String::from_str(alloc, path)?,
            object: Some(vec![in alloc; b'x'; *size]?),
        })?;
    }
    Ok(host(alloc)?.with_files(files))
}

// Readings of files in order, of which the third is to fail; how many bytes are read, and the count of faults then.
const READINGS: [(&str, Result<usize, FileRefused>, u64); 5] = [
    ("small", Ok(3), 0),
    ("largest", Ok(1_048_576), 0),
    ("small", Err(FileRefused::Failed), 1),
    ("large", Err(FileRefused::TooLarge { size: 1_048_577 }), 1),
    ("none", Err(FileRefused::Failed), 2),
];

// How many bytes the file of this path has, as it is read.
fn size_read(host: &mut MemHost, path: &str) -> Result<usize, FileRefused> {
    Ok(host.read_file(path)?.len())
}

#[test]
fn a_host_reads_whole_files(rt: HostRuntime) -> Result<(), Fail> {
    let mut host = host_with_files(rt.alloc())?;
    for (row, case) in READINGS.iter().enumerate() {
        let (path, want, faults) = *case;
        assert!(rt; size_read(&mut host, path) == want, "row {row}");
        assert!(rt; host.faults() == faults, "row {row}");
    }
    Ok(())
}
