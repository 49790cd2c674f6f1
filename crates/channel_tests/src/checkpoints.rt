// The file of a checkpoint, byte by byte. The disk shows nothing to contracts, so that a checkpoint may name any place.
use checkpoint::{Next, Place, lay, open_gate};
use event_ring::Ring;
use flume_host::FileName;
use host_memory::MemDisk;
use open_table::{Item, OpenTable, TableRefused};
use record_form::Pointer;
use scenarios::{Scene, add_text, number_of, pass, two_numbers, word_and_rest};
use std::alloc::{AllocError, Global};
use std::test::Fail;

const CHECKPOINTS: &str =
    r#"Two events are left, and nothing is open: the place is byte 114 of log 1, the next numbers are 2 and 3.
place 1 114
next 2 3
events 2
laid
holds 0 \x00\x46\x4c\x55\x4d\x45\x43\x48\x4b\x00\x00\x00\x01\x00\x00\x00
holds 16 \x01\x00\x00\x00\x00\x00\x00\x00\x72\x00\x00\x00\x00\x00\x00\x00
holds 32 \x02\x00\x00\x00\x00\x00\x00\x00\x03\x00\x00\x00\x02\x00\x00\x00
holds 48 \x00\x00\x00\x00\x00\x00\x00\x00\x01\x00\x00\x00\x00\x00\x00\x00
holds 64 \x11\x00\x00\x00\x09\x00\x00\x00\x00\x00\x00\x00\x01\x00\x00\x00
holds 80 \x01\x00\x00\x00\x00\x00\x00\x00\x42\x00\x00\x00\x09\x00\x00\x00
holds 96 \x00\x00\x00\x00\x00
long 101
opened
holds 0 \x01\x46\x4c\x55\x4d\x45\x43\x48\x4b\x00\x00\x00\x01\x00\x00\x00
holds 16 \x01\x00\x00\x00\x00\x00\x00\x00\x72\x00\x00\x00\x00\x00\x00\x00
holds 32 \x02\x00\x00\x00\x00\x00\x00\x00\x03\x00\x00\x00\x02\x00\x00\x00
holds 48 \x00\x00\x00\x00\x00\x00\x00\x00\x01\x00\x00\x00\x00\x00\x00\x00
holds 64 \x11\x00\x00\x00\x09\x00\x00\x00\x00\x00\x00\x00\x01\x00\x00\x00
holds 80 \x01\x00\x00\x00\x00\x00\x00\x00\x42\x00\x00\x00\x09\x00\x00\x00
holds 96 \x00\x00\x00\x00\x00
long 101

The same events at byte 16 of log 3, with the two transactions that have done something; the next numbers are 2 and 10.
place 3 16
next 2 10
events 2
four-open
opened
holds 0 \x01\x46\x4c\x55\x4d\x45\x43\x48\x4b\x00\x00\x00\x01\x00\x00\x00
holds 16 \x03\x00\x00\x00\x00\x00\x00\x00\x10\x00\x00\x00\x00\x00\x00\x00
holds 32 \x02\x00\x00\x00\x00\x00\x00\x00\x0a\x00\x00\x00\x02\x00\x00\x00
holds 48 \x00\x00\x00\x00\x00\x00\x00\x00\x01\x00\x00\x00\x00\x00\x00\x00
holds 64 \x11\x00\x00\x00\x09\x00\x00\x00\x00\x00\x00\x00\x01\x00\x00\x00
holds 80 \x01\x00\x00\x00\x00\x00\x00\x00\x42\x00\x00\x00\x09\x00\x00\x00
holds 96 \x01\x00\x00\x00\x00\x00\x00\x00\x09\x00\x00\x00\x02\x00\x00\x00
holds 112 \x01\x00\x00\x00\x00\x00\x00\x00\xc8\x00\x00\x00\x09\x00\x00\x00
holds 128 \x01\x00\x00\x00\x00\x00\x00\x00\xf0\x00\x00\x00\x09\x00\x00\x00
holds 144 \x01\x00\x00\x00\x00\x00\x00\x00\x04\x00\x00\x00\x01\x00\x00\x00
holds 160 \x00\x00\x00\x00\x01
long 165

5,000 events make more than one piece: 53 bytes and 24 for each event. The last one has number 4,999.
place 1 245017
next 5000 5001
events 5000
opened
long 120053
holds 41 \x00\x00\x13\x88
holds 120021 \x00\x00\x00\x00\x00\x00\x13\x87
holds 120033 \x00\x00\x00\x00\x00\x03\xbc\xe8"#;

fn pointer(at: u64) -> Pointer {
    Pointer {
        file: 1,
        at,
        length: 9,
    }
}

// Events from number 0 on, whose records stand 49 bytes apart.
fn events(alloc: Global, count: u32) -> Option<Ring> {
    let mut ring = Ring::make(alloc, count).ok()?;
    for number in 0..count as u64 {
        ring.push(number, pointer(17 + 49 * number));
    }
    Some(ring)
}

// Transaction 9 has two puts and transaction 4 takes event 1; 6 and 7 have done nothing.
fn four_open(alloc: Global) -> Result<OpenTable, TableRefused> {
    let Ok(mut table) = OpenTable::new(alloc) else {
        return Err(TableRefused::NoMemory);
    };
    table.begin(9, true, 2)?;
    table.begin(6, true, 2)?;
    table.begin(4, false, 1)?;
    table.begin(7, false, 1)?;
    table.add(9, Item::Put(pointer(200)));
    table.add(9, Item::Put(pointer(240)));
    table.add(4, Item::Take(1));
    Ok(table)
}

// A checkpoint, and what its file holds.
#[derive(Drop)]
struct Check {
    alloc: Global,
    place: Place,
    next: Next,
    events: u32,
    has_open: bool,
    bytes: Vec<u8>,
    has_tried: bool,
}

fn set_place(scene: &mut Check, numbers: &str) -> bool {
    match two_numbers(numbers) {
        Some((file, at)) => {
            scene.place = Place {
                file: (file % 10) as u32,
                at,
            };
            true
        }
        None => false,
    }
}

fn set_next(scene: &mut Check, numbers: &str) -> bool {
    match two_numbers(numbers) {
        Some((number, txn)) => {
            scene.next = Next { number, txn };
            true
        }
        None => false,
    }
}

fn set_events(scene: &mut Check, count: &str) -> bool {
    match count.parse::<u32>() {
        Ok(count) => {
            scene.events = count;
            true
        }
        Err(_) => false,
    }
}

fn table_of(scene: &Check) -> Option<OpenTable> {
    if scene.has_open {
        four_open(scene.alloc).ok()
    } else {
        OpenTable::new(scene.alloc).ok()
    }
}

// The file of checkpoint 1 once it is laid, and once its commit byte is open.
fn files(
    alloc: Global,
    place: Place,
    next: Next,
    ring: &Ring,
    table: &OpenTable,
) -> Result<(Vec<u8>, Vec<u8>), AllocError> {
    let mut disk = MemDisk::new(alloc).silent();
    let mut buffer = Vec::with_capacity(alloc, 65_536)?;
    let mut both = (Vec::new(alloc), Vec::new(alloc));
    if lay(&mut disk, 1, place, ring, table, next, &mut buffer).is_ok() {
        both.0
            .extend_from_slice(disk.file(FileName::Check(1)).unwrap_or_default())?;
    }
    if open_gate(&mut disk, 1).is_ok() {
        both.1
            .extend_from_slice(disk.file(FileName::Check(1)).unwrap_or_default())?;
    }
    Ok(both)
}

// The one of these that is asked for.
fn file_of(scene: &Check, opens: bool) -> Option<Vec<u8>> {
    let (table, ring) = (table_of(scene)?, events(scene.alloc, scene.events)?);
    let (laid, opened) = files(scene.alloc, scene.place, scene.next, &ring, &table).ok()?;
    Some(if opens { opened } else { laid })
}

fn is_made(scene: &mut Check, opens: bool) -> bool {
    scene.has_tried = true;
    match file_of(scene, opens) {
        Some(bytes) => {
            scene.bytes = bytes;
            true
        }
        None => false,
    }
}

// Whether the file has these bytes from an offset on, as `1 FLUMECHK`.
fn holds_bytes(scene: &Check, row: &str) -> bool {
    let (offset, text) = word_and_rest(row);
    let Ok(from) = offset.parse::<usize>() else {
        return false;
    };
    let mut want = Vec::new(scene.alloc);
    add_text(&mut want, text)
        && scene
            .bytes
            .get(from..)
            .unwrap_or_default()
            .starts_with(want.as_slice())
}

impl Scene for Check {
    fn begin(alloc: Global) -> Check {
        Check {
            alloc,
            place: Place { file: 1, at: 16 },
            next: Next { number: 0, txn: 1 },
            events: 0,
            has_open: false,
            bytes: Vec::new(alloc),
            has_tried: false,
        }
    }

    fn holds(&mut self, word: &str, rest: &str) -> bool {
        match word {
            "place" => set_place(self, rest),
            "next" => set_next(self, rest),
            "events" => set_events(self, rest),
            "four-open" => {
                self.has_open = true;
                true
            }
            "laid" => is_made(self, false),
            "opened" => is_made(self, true),
            "holds" => holds_bytes(self, rest),
            "long" => number_of(rest) == Some(self.bytes.len() as u64),
            _ => false,
        }
    }

    fn has_tried(&self) -> bool {
        self.has_tried
    }
}

#[test]
fn checkpoints_are_spelled(rt: HostRuntime) -> Result<(), Fail> {
    pass::<Check>(rt.alloc(), CHECKPOINTS)
}
