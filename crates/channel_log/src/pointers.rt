// The event at a pointer into a log file.
ghost use Rattle.std.specs.Prelude.{◌≡◌, ◌≤◌, ◌↔◌, ◌+◌, ℕ, List, drop, length, min, take, IfErr, IfOk, IsErrOf, IsTrue, Some, IsSome};
ghost use Rattle.flume_host.specs.Causes.{Rose};
ghost use Rattle.flume_host.specs.Told.{WhereTold};
ghost use Rattle.flume_host.specs.declared.names.FileName.TheVariants.{Log};
ghost use Rattle.record_form.specs.declared.record.Pointer as pointers;
ghost use Rattle.record_form.specs.Grammar.{read_of};
ghost use Rattle.record_form.specs.Record.{IsWithinLimits};
ghost use Rattle.record_form.specs.declared.record.Read.TheVariants.{Part};
ghost use Rattle.channel_log.specs.Pointers.{FoundAt, IsEventOf, IsNoDamage, IsOfLength};

use event_core::Event;
use flume_host::{Disk, FileName};
use record_form::{MAX_PUT_SIZE, Pointer, Read, Rec, read_record, rec_of};
use std::alloc::Global;

/// Why an event could not be read.
#[derive(Clone, Copy, Debug, PartialEq, Eq)]
pub enum ReadRefused {
    /// The disk failed.
    ReadFault,
    /// No PUT of an event of the pointer's length stands there.
    Damaged {
        /// The length that the pointer has.
        kept: u32,
        /// The length of the event of the PUT that was read there, if one was.
        found: Option<u32>,
    },
    /// Out of memory.
    NoMemory,
}

// How many bytes a PUT of an event of this length has, or the greatest one.
pub(crate) fn put_length(length: u32) -> usize
    ensures { result ≡ min length 1_048_576 + 13 }
{
    length.min(MAX_PUT_SIZE) as usize + 13
}

// The event of a PUT, if it has this length.
fn event_of(rec: Rec, length: u32) -> Result<Event, ReadRefused>
    requires { IsWithinLimits rec }
    ensures { IsEventOf rec length result }
{
    let found = match rec {
        Rec::Put { event, .. } if event.size() == length as u64 => return Ok(event),
        Rec::Put { event, .. } => Some(event.size() as u32),
        _ => None,
    };
    Err(ReadRefused::Damaged {
        kept: length,
        found,
    })
}

// The event of the PUT that a front of the bytes spells, if it has this length.
pub(crate) fn event_in(alloc: Global, bytes: &[u8], length: u32) -> Result<Event, ReadRefused>
    ensures found { (p : pointers.Pointer) → p.at ≡ 0 → p.length ≡ length
        → FoundAt bytes.now p result }
    ensures length { IsOfLength length result }
    ensures read { IsErrOf result ReadRefused.ReadFault → ⊥ }
{
    let Read::Whole { .. } = read_record(bytes) else {
        return Err(ReadRefused::Damaged {
            kept: length,
            found: None,
        });
    };
    match rec_of(alloc, bytes) {
        Ok(rec) => event_of(rec, length),
        Err(_) => Err(ReadRefused::NoMemory),
    }
}

// How many bytes the PUT of the greatest event has.
pub(crate) const GREATEST_PUT: usize = 1_048_589;

// Whether a record that the bytes begin ends after them.
pub(crate) fn is_cut(bytes: &[u8]) -> bool
    ensures { IsTrue result ↔ (read_of bytes.now ≡ Part) }
{
    matches!(read_record(bytes), Read::Part)
}

// The bytes of a pointer's file from its offset on, so many or as far as there are.
fn read_block<D: Disk>(
    alloc: Global,
    disk: &mut D,
    p: &Pointer,
    size: usize,
) -> Result<Vec<u8>, ReadRefused>
    requires there { WhereTold (D.told disk.old) (λ t. IsSome (t.reads (Log p.now.file))) }
    ensures read { IfOk result (λ block. WhereTold (D.told disk.old) (λ t. (bytes : List ℕ)
        → t.reads (Log p.now.file) ≡ Some bytes → block.items ≡ take size (drop p.now.at bytes))) }
    ensures plain { IfErr result (λ refused. IsNoDamage refused) }
    ensures same { D.told disk.new ≡ D.told disk.old }
    ensures fault { IsErrOf result ReadRefused.ReadFault
        → Rose (D.faults disk.old) (D.faults disk.new) }
    ensures later { D.faults disk.old ≤ D.faults disk.new }
    ensures well { (IsErrOf result ReadRefused.ReadFault → ⊥)
        → D.faults disk.new ≡ D.faults disk.old }
{
    let mut block = Vec::new(alloc);
    if block.resize(size, 0).is_err() {
        return Err(ReadRefused::NoMemory);
    }
    let Ok(filled) = disk.read(FileName::Log(p.file), p.at, &mut block) else {
        return Err(ReadRefused::ReadFault);
    };
    block.truncate(filled);
    Ok(block)
}

/// The event at a pointer, read from the files alone. The pointer's file must be there.
pub fn read_put<D: Disk>(alloc: Global, disk: &mut D, p: &Pointer) -> Result<Event, ReadRefused>
    requires there { WhereTold (D.told disk.old) (λ t. IsSome (t.reads (Log p.now.file))) }
    ensures found { WhereTold (D.told disk.old) (λ t. (bytes : List ℕ)
        → t.reads (Log p.now.file) ≡ Some bytes → FoundAt bytes p.now result) }
    ensures length { IsOfLength p.now.length result }
    ensures same { D.told disk.new ≡ D.told disk.old }
    ensures fault { IsErrOf result ReadRefused.ReadFault
        → Rose (D.faults disk.old) (D.faults disk.new) }
    ensures later { D.faults disk.old ≤ D.faults disk.new }
    ensures well { (IsErrOf result ReadRefused.ReadFault → ⊥)
        → D.faults disk.new ≡ D.faults disk.old }
{
    let block = read_block(alloc, disk, p, put_length(p.length))?;
    if !is_cut(&block) {
        return event_in(alloc, &block, p.length);
    }
    let whole = read_block(alloc, disk, p, GREATEST_PUT)?;
    event_in(alloc, &whole, p.length)
}
