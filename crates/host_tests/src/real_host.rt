// What the real host does with real files and streams.
use flume_host::{
    Clock, Disk, Failed, FileName, FileRefused, Host, NameRefused, Random, RollDir, Sink, Source,
};
use host_real::{RealDisk, RealHost};
use std::fs;
use std::test::Fail;

const SEVEN: FileName = FileName::Log(7);

const ZERO: FileName = FileName::Check(0);

// What a read into no bytes answers.
fn nothing_read(source: &mut impl Source) -> Result<usize, Failed> {
    source.read(&mut [])
}

// What two writes and a flush answer.
type Written = (
    Result<usize, Failed>,
    Result<usize, Failed>,
    Result<(), Failed>,
);

fn written(sink: &mut impl Sink) -> Written {
    (sink.write(b"out\n"), sink.write(b""), sink.flush())
}

// What a read of the host's input answers, and what writes to its output do. Both are handed out, and given back.
fn streamed(host: &mut RealHost) -> (Result<usize, Failed>, Written) {
    let mut input = host.take_input();
    let read = nothing_read(&mut input);
    host.keep_input(input);
    let mut output = host.take_output();
    let wrote = written(&mut output);
    host.keep_output(output);
    (read, wrote)
}

#[test]
fn a_stream_is_handed_out(rt: HostRuntime) {
    let mut host = RealHost::new(rt);
    assert!(rt; streamed(&mut host) == (Ok(0), (Ok(4), Ok(0), Ok(()))));
    host.say("a line");
    assert!(rt; (host.faults(), host.disk_faults()) == (0, 0));
}

// Whether the opening of a folder fails.
fn fails_to_open(host: &mut RealHost, path: &str) -> bool {
    matches!(host.open_disk(path), Err(NameRefused::Failed))
}

#[test]
fn a_file_is_no_folder(rt: HostRuntime) -> Result<(), Fail> {
    fs::write(&rt, "a-file", "x")?;
    let mut host = RealHost::new(rt);
    for path in ["a-file", "a-file/inner"] {
        assert!(rt; fails_to_open(&mut host, path), "{path}");
    }
    assert!(rt; (host.faults(), host.disk_faults()) == (2, 0));
    Ok(())
}

// A disk in a new folder of this name, below another new one.
fn new_disk(rt: HostRuntime, path: &str) -> Result<RealDisk, Fail> {
    let _ = fs::remove_dir_all(&rt, path);
    let path = format!(in rt.alloc(); "{path}/inner")?;
    Ok(RealDisk::open(rt, path)?)
}

#[derive(Clone, Copy)]
enum Call {
    Make(FileName),
    Write(FileName, u64, &'static [u8]),
    Sync(FileName),
    Settle,
    Len(FileName),
    // at this place, of one byte
    Read(FileName, u64),
    Remove(FileName),
}

use Call::{Len, Make, Read, Remove, Settle, Sync, Write};

// What a call answers: a length, a count of bytes, or 0 for one that is done.
fn answer_of(disk: &mut RealDisk, call: Call) -> Result<u64, Failed> {
    match call {
        Make(name) => disk.make(name)?,
        Write(name, at, bytes) => disk.write_at(name, at, bytes)?,
        Sync(name) => disk.sync(name)?,
        Settle => disk.settle()?,
        Len(name) => return disk.len(name),
        Read(name, at) => return disk.read(name, at, &mut [0]).map(|count| count as u64),
        Remove(name) => disk.remove(name)?,
    }
    Ok(0)
}

// The place of the first call whose answer is another one.
fn first_wrong(disk: &mut RealDisk, rows: &[(Call, Result<u64, Failed>)]) -> Option<usize> {
    for (row, (call, want)) in rows.iter().enumerate() {
        if answer_of(disk, *call) != *want {
            return Some(row);
        }
    }
    None
}

const DONE: Result<u64, Failed> = Ok(0);

const CALLS_OF_A_FOLDER: &[(Call, Result<u64, Failed>)] = &[
    (Make(SEVEN), DONE),
    (Make(ZERO), DONE),
    (Write(SEVEN, 0, b"abcd"), DONE),
    (Write(SEVEN, 2, b"xyz"), DONE),
    (Sync(SEVEN), DONE),
    (Settle, DONE),
    (Len(SEVEN), Ok(5)),
    (Len(ZERO), Ok(0)),
    (Read(SEVEN, u64::MAX), Ok(0)),
];

// Whether a read at the second place gives the bytes up to the end of the file.
fn reads_to_the_end(disk: &mut RealDisk) -> bool {
    let mut into = *b"........";
    let count = disk.read(SEVEN, 1, &mut into);
    count == Ok(4) && into.as_slice() == b"bxyz....".as_slice()
}

// Whether a file holds these bytes.
fn holds(rt: HostRuntime, path: &str, bytes: &[u8]) -> Result<bool, Fail> {
    Ok(fs::read(&rt, path)?.as_slice() == bytes)
}

// Whether the file can be removed, the other one is then the first, and no call has failed.
fn is_removed(disk: &mut RealDisk) -> bool {
    let is_done = disk.remove(SEVEN).is_ok();
    is_done && disk.next_name(None) == Ok(Some(ZERO)) && disk.faults() == 0
}

#[test]
fn a_disk_is_a_folder(rt: HostRuntime) -> Result<(), Fail> {
    let mut disk = new_disk(rt, "disk-test")?;
    let wrong = first_wrong(&mut disk, CALLS_OF_A_FOLDER);
    assert!(rt; wrong.is_none(), "{wrong:?}");
    assert!(rt; reads_to_the_end(&mut disk));
    assert!(rt; holds(rt, "disk-test/inner/log-7", b"abxyz")?);
    assert!(rt; is_removed(&mut disk));
    Ok(())
}

// Why the folder of this path is not opened, if it is not, and how many faults the host has counted then.
fn refused(host: &mut RealHost, path: &str) -> (Option<NameRefused>, u64) {
    let cause = host.open_disk(path).err();
    (cause, host.faults())
}

#[test]
fn an_open_folder_is_locked(rt: HostRuntime) -> Result<(), Fail> {
    let first = new_disk(rt, "lock-test")?;
    let mut host = RealHost::new(rt);
    assert!(rt; refused(&mut host, "lock-test/inner") == (Some(NameRefused::Failed), 1));
    drop(first);
    assert!(rt; refused(&mut host, "lock-test/inner") == (None, 1));
    Ok(())
}

const CALLS_THAT_FAIL: &[(Call, Result<u64, Failed>)] = &[
    (Make(SEVEN), DONE),
    (Make(SEVEN), Err(Failed)),
    (Write(SEVEN, u64::MAX >> 1, b"a"), Err(Failed)),
    (Write(ZERO, 0, b"a"), Err(Failed)),
    (Read(ZERO, 0), Err(Failed)),
    (Len(ZERO), Err(Failed)),
    (Sync(ZERO), Err(Failed)),
    (Remove(ZERO), Err(Failed)),
];

#[test]
fn a_disk_counts_its_faults(rt: HostRuntime) -> Result<(), Fail> {
    let mut disk = new_disk(rt, "faults-test")?;
    let wrong = first_wrong(&mut disk, CALLS_THAT_FAIL);
    assert!(rt; wrong.is_none(), "{wrong:?}");
    assert!(rt; disk.faults() == 7);
    Ok(())
}

const OTHER_NAMES: [&str; 8] = [
    "log-+1",
    "log-01",
    "log-4294967296",
    "log-",
    "log-1a",
    "Log-1",
    "checkpoint-00",
    "log-٣",
];

const NAMES: [&str; 5] = ["checkpoint-0", "log-4294967295", "log-0", "log-20", "log-3"];

// The files of these names in their order.
const IN_ORDER: [FileName; 5] = [
    FileName::Log(0),
    FileName::Log(3),
    FileName::Log(20),
    FileName::Log(u32::MAX),
    ZERO,
];

// Makes a file in the folder of the disk.
fn add_file(rt: HostRuntime, name: &str) -> Result<(), Fail> {
    let path = format!(in rt.alloc(); "names-test/inner/{name}")?;
    Ok(fs::write(&rt, path, "x")?)
}

#[test]
fn names_of_other_files_are_ignored(rt: HostRuntime) -> Result<(), Fail> {
    let mut disk = new_disk(rt, "names-test")?;
    for name in &OTHER_NAMES {
        let name = *name;
        add_file(rt, name)?;
    }
    assert!(rt; disk.next_name(None) == Ok(None));
    for name in &NAMES {
        let name = *name;
        add_file(rt, name)?;
    }
    let mut after = None;
    for want in &IN_ORDER {
        let want = *want;
        assert!(rt; disk.next_name(after) == Ok(Some(want)));
        after = Some(want);
    }
    assert!(rt; disk.next_name(after) == Ok(None));
    Ok(())
}

// How many bytes the file of this path has, as it is read.
fn size_read(host: &mut RealHost, path: &str) -> Result<usize, FileRefused> {
    Ok(host.read_file(path)?.len())
}

// Sizes of a file, and what is read of it.
const SIZES: [(usize, Result<usize, FileRefused>); 3] = [
    (0, Ok(0)),
    (1_048_576, Ok(1_048_576)),
    (1_048_577, Err(FileRefused::TooLarge { size: 1_048_577 })),
];

#[test]
fn a_file_is_read_whole(rt: HostRuntime) -> Result<(), Fail> {
    let mut host = RealHost::new(rt);
    for case in &SIZES {
        let (size, wanted) = *case;
        fs::write(&rt, "a-text", &vec![in rt.alloc(); b'x'; size]?)?;
        assert!(rt; size_read(&mut host, "a-text") == wanted, "{size}");
    }
    assert!(rt; host.faults() == 0);
    assert!(rt; size_read(&mut host, "no-such-file") == Err(FileRefused::Failed));
    assert!(rt; host.faults() == 1);
    Ok(())
}

#[derive(Clone, Copy)]
enum RollCall {
    Begin(&'static str),
    Write(&'static [u8]),
    Flush,
}

// What a call of a folder of rolled files answers: how many bytes are taken.
fn roll_answer(roll: &mut impl RollDir, call: RollCall) -> Result<usize, Failed> {
    match call {
        RollCall::Begin(name) => roll.begin(name)?,
        RollCall::Write(bytes) => return roll.write(bytes),
        RollCall::Flush => roll.flush()?,
    }
    Ok(0)
}

const ROLL_CALLS: [(RollCall, Result<usize, Failed>); 9] = [
    (RollCall::Flush, Ok(0)),
    (RollCall::Write(b"x"), Err(Failed)),
    (RollCall::Begin("1-1"), Ok(0)),
    (RollCall::Write(b"one\n"), Ok(4)),
    (RollCall::Begin("1-2"), Ok(0)),
    (RollCall::Write(b"two\n"), Ok(4)),
    (RollCall::Flush, Ok(0)),
    (RollCall::Begin("1-1"), Err(Failed)),
    (RollCall::Write(b"x"), Err(Failed)),
];

// The rolled files, and what they hold.
const ROLLED: [(&str, &[u8]); 2] = [
    ("roll-test/inner/1-1", b"one\n"),
    ("roll-test/inner/1-2", b"two\n"),
];

#[test]
fn rolled_files_are_files_of_a_folder(rt: HostRuntime) -> Result<(), Fail> {
    let _ = fs::remove_dir_all(&rt, "roll-test");
    let mut host = RealHost::new(rt);
    let Ok(mut roll) = host.open_roll("roll-test/inner") else {
        return Err(Fail::from("not opened"));
    };
    for (row, case) in ROLL_CALLS.iter().enumerate() {
        let (call, want) = *case;
        assert!(rt; roll_answer(&mut roll, call) == want, "row {row}");
    }
    assert!(rt; roll.faults() == 3);
    host.keep_roll("roll-test/inner", roll);
    for case in &ROLLED {
        let (path, want) = *case;
        assert!(rt; holds(rt, path, want)?, "{path}");
    }
    assert!(rt; (host.faults(), host.disk_faults()) == (0, 0));
    Ok(())
}

#[test]
fn time_goes_on(rt: HostRuntime) -> Result<(), Fail> {
    let mut host = RealHost::new(rt);
    let mut clock = host.clock();
    let before = clock.now();
    clock.pause(20);
    let after = clock.now();
    // 2020 in milliseconds
    assert!(rt; before > 1_577_836_800_000);
    assert!(rt; after >= before.saturating_add(20));
    let mut random = host.random();
    assert!(rt; random.draw() != random.draw());
    Ok(())
}
