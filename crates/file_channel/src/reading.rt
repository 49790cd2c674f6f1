// Reads the events that stand at the pointers of a channel.
ghost use Rattle.std.specs.Prelude.{◌≡◌, ◌≤◌, IsErrOf, IsSome};
ghost use Rattle.flume_host.specs.Causes.{Rose};
ghost use Rattle.flume_host.specs.Told.{WhereTold};
ghost use Rattle.flume_host.specs.declared.names.FileName.TheVariants.{Log};
ghost use Rattle.event_core.specs.Content.{Content};
ghost use Rattle.channel_log.specs.declared.pointers.ReadRefused.{ReadRefused};
ghost use Rattle.channel_face.specs.Machine.{is_some_of};
ghost use Rattle.channel_places.specs.Looks.{Known, StandsIn};
ghost use Rattle.file_channel.specs.Placed.{ArePlaced};
ghost use Rattle.file_channel.specs.Stepped.{ReadsAs, as_take};

use channel_face::TakeRefused;
use channel_log::ReadRefused;
use channel_writing::Writing;
use event_core::Event;
use flume_host::Disk;
use record_form::Pointer;

/// The event at a known pointer.
pub(crate) fn read_event<D: Disk + Drop>(
    writing: &mut Writing<D>,
    pointer: &Pointer,
) -> Result<Event, ReadRefused>
    requires own { WhereTold (D.told writing.old.disk) (λ t. IsSome
        (t.reads (Log writing.old.log.file))) }
    requires known { (settled : Known) × (known : Known) × (event : Content)
        × ArePlaced (D.told writing.old.disk) writing.old.log settled known × StandsIn known
        pointer.now event }
    ensures gives { (settled known : Known) (event : Content)
        → ArePlaced (D.told writing.old.disk) writing.old.log settled known
        → StandsIn known pointer.now event
        → ReadsAs (is_some_of (D.told writing.old.disk)) event result }
    ensures placed { (settled known : Known) (event : Content)
        → ArePlaced (D.told writing.old.disk) writing.old.log settled known
        → StandsIn known pointer.now event
        → ArePlaced (D.told writing.new.disk) writing.new.log settled known }
    ensures log { writing.new.log ≡ record writing.old.log { kept = writing.new.log.kept } }
    ensures busy { writing.new.busy ≡ writing.old.busy }
    ensures same { D.told writing.new.disk ≡ D.told writing.old.disk }
    ensures fault { IsErrOf result ReadRefused.ReadFault
        → Rose (D.faults writing.old.disk) (D.faults writing.new.disk) }
    ensures later { D.faults writing.old.disk ≤ D.faults writing.new.disk }
    ensures well { (IsErrOf result ReadRefused.ReadFault → ⊥)
        → D.faults writing.new.disk ≡ D.faults writing.old.disk }
{
    writing
        .log
        .read_at(writing.alloc, &mut writing.disk, pointer)
}

/// Why a take gives no event where its record was not read.
pub(crate) fn of_read(refused: ReadRefused) -> TakeRefused
    ensures { result ≡ as_take refused }
{
    match refused {
        ReadRefused::ReadFault => TakeRefused::ReadFault,
        ReadRefused::Damaged { kept, found } => TakeRefused::Damaged { kept, found },
        ReadRefused::NoMemory => TakeRefused::NoMemory,
    }
}
