// A disk on which a frame was flushed, and what may stand of its calls.
ghost use Rattle.std.specs.Prelude.{◌≤◌};
ghost use Rattle.event_core.specs.Content.{size};
ghost use Rattle.channel_log.specs.Writer.{IsUnused};
ghost use Rattle.host_memory.specs.Words.{told_in};

use channel_log::LogWriter;
use event_core::Event;
use host_memory::{MemDisk, Stood};
use record_form::Rec;
use std::alloc::Global;
use test_fixtures::event;

// Begins log file 1 and flushes a frame: an event's PUT and its commit.
fn flush_one(alloc: Global, disk: &mut MemDisk, event: &Event) -> bool
    requires unused { IsUnused (told_in disk.old) 1 }
    requires small { size event.now ≤ 1_048_576 }
{
    let Ok(mut writer) = LogWriter::begin(alloc, disk, 1, 1, 1_000_000) else {
        return false;
    };
    writer.append_put(1, event);
    let commit = Rec::CommitPut {
        txn: 1,
        first: 0,
        count: 1,
    };
    writer.append(&commit);
    writer.flush(disk).is_ok()
}

/// A disk on which a frame of one event was flushed.
pub fn flushed(alloc: Global) -> Option<MemDisk> {
    let event = event(alloc, b"a").ok()?;
    if event.size() != 9 {
        return None;
    }
    let mut disk = MemDisk::new(alloc);
    if flush_one(alloc, &mut disk, &event) {
        Some(disk)
    } else {
        None
    }
}

/// What may stand of a call, as `old`, `new`, `front:20` or `garbage:1`.
pub fn stood_of(stood: &str) -> Option<Stood> {
    match stood {
        "old" => Some(Stood::Old),
        "new" => Some(Stood::New),
        _ => match stood.split_once(':')? {
            ("front", most) => Some(Stood::Front(most.parse::<usize>().ok()?)),
            ("garbage", byte) => Some(Stood::Garbage(byte.parse::<u8>().ok()?)),
            _ => None,
        },
    }
}
