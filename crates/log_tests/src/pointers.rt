// Events read at pointers: in the frame that waits, through the block that the writer keeps, and from the file alone.
ghost use Rattle.std.specs.Prelude.{◌≤◌, ◌≡◌, IfSome, IsSome};
ghost use Rattle.flume_host.specs.Told.{WhereTold};
ghost use Rattle.flume_host.specs.declared.names.FileName.TheVariants.{Log};
ghost use Rattle.event_core.specs.Content.{size};
ghost use Rattle.channel_log.specs.Writer.{IsUnused};
ghost use Rattle.host_memory.specs.Words.{told_in};

use channel_log::{LogWriter, ReadRefused, read_put};
use event_core::Event;
use host_memory::MemDisk;
use record_form::{Pointer, Rec};
use scenarios::{Scene, number_of, pass, word_and_rest};
use std::alloc::Global;
use std::test::Fail;
use test_fixtures::event;

// What was read: how long a body, or what refused it.
type Answer = Result<usize, ReadRefused>;

fn answer(read: Result<Event, ReadRefused>) -> Answer {
    match read {
        Ok(event) => Ok(event.body().len()),
        Err(refused) => Err(refused),
    }
}

// What is read at a pointer into the frame that waits: an event's PUT.
fn waiting(alloc: Global, disk: &mut MemDisk, event: &Event, p: &Pointer) -> Option<Answer>
    requires unused { IsUnused (told_in disk.old) 1 }
    requires small { size event.now ≤ 1_048_576 }
    requires file { p.now.file ≡ 1 }
{
    let Ok(mut writer) = LogWriter::begin(alloc, disk, 1, 1, 1_000_000) else {
        return None;
    };
    writer.append_put(1, event);
    Some(answer(writer.read_at(alloc, disk, p)))
}

// Writes log file 1 of one frame: an event's PUT and its commit.
fn flushed(alloc: Global, disk: &mut MemDisk, event: &Event) -> Option<LogWriter>
    requires unused { IsUnused (told_in disk.old) 1 }
    requires small { size event.now ≤ 1_048_576 }
    ensures { IfSome result (λ w. WhereTold (told_in disk.new) (λ t. IsSome (t.reads (Log 1)))) }
{
    let Ok(mut writer) = LogWriter::begin(alloc, disk, 1, 1, 1_000_000) else {
        return None;
    };
    writer.append_put(1, event);
    let commit = Rec::CommitPut {
        txn: 1,
        first: 0,
        count: 1,
    };
    writer.append(&commit);
    match writer.flush(disk) {
        Ok(()) => Some(writer),
        Err(_) => None,
    }
}

// What is read at a pointer into that file, through the writer and from the file alone.
fn settled(
    alloc: Global,
    disk: &mut MemDisk,
    event: &Event,
    p: &Pointer,
) -> Option<(Answer, Answer)>
    requires unused { IsUnused (told_in disk.old) 1 }
    requires small { size event.now ≤ 1_048_576 }
    requires file { p.now.file ≡ 1 }
{
    let mut writer = flushed(alloc, disk, event)?;
    let kept = answer(writer.read_at(alloc, disk, p));
    Some((kept, answer(read_put(alloc, disk, p))))
}

// A place, the length that its pointer has, and what is read there: an event's body of so many bytes, or the length of the event that
// stands there, if one does. The commit byte stands at 16, the PUT of an event of 9 bytes at 17, its commit at 39, and END at 60.
const ROWS: &str = "An event is read at its pointer.
read 17 9 body 1
read 17 8 found 9
read 17 0 found 9
read 17 10 found 9
read 17 2000000 found 9
read 0 9 found -
read 16 9 found -
read 18 9 found -
read 39 9 found -
read 60 9 found -
read 65 9 found -
read 1000000000000 9 found -";

// What a row expects.
fn wanted(length: u32, want: &str) -> Option<Answer> {
    match word_and_rest(want) {
        ("body", length) => Some(Ok(length.parse::<usize>().ok()?)),
        ("found", found) => Some(Err(ReadRefused::Damaged {
            kept: length,
            found: found.parse::<u32>().ok(),
        })),
        _ => None,
    }
}

fn is_read(alloc: Global, event: &Event, p: &Pointer, want: Answer) -> bool
    requires small { size event.now ≤ 1_048_576 }
    requires file { p.now.file ≡ 1 }
{
    let (mut one, mut two) = (MemDisk::new(alloc), MemDisk::new(alloc));
    waiting(alloc, &mut one, event, p) == Some(want)
        && settled(alloc, &mut two, event, p) == Some((want, want))
}

// Whether the event of one byte is read so at a place, as `17 9 body 1`.
fn is_read_so(alloc: Global, row: &str) -> bool {
    let (at, rest) = word_and_rest(row);
    let (length, want) = word_and_rest(rest);
    let (Some(at), Ok(length)) = (number_of(at), length.parse::<u32>()) else {
        return false;
    };
    let (Some(want), Ok(event)) = (wanted(length, want), event(alloc, b"a")) else {
        return false;
    };
    let p = Pointer {
        file: 1,
        at,
        length,
    };
    event.size() == 9 && is_read(alloc, &event, &p, want)
}

// Rows of pointers.
#[derive(Drop)]
struct Pointers {
    alloc: Global,
    has_tried: bool,
}

impl Scene for Pointers {
    fn begin(alloc: Global) -> Pointers {
        Pointers {
            alloc,
            has_tried: false,
        }
    }

    fn holds(&mut self, word: &str, rest: &str) -> bool {
        self.has_tried = true;
        word == "read" && is_read_so(self.alloc, rest)
    }

    fn has_tried(&self) -> bool {
        self.has_tried
    }
}

#[test]
fn an_event_is_read_at_its_pointer(rt: HostRuntime) -> Result<(), Fail> {
    pass::<Pointers>(rt.alloc(), ROWS)
}
