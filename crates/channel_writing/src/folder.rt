// Which files a folder has, and why it is not opened.
ghost use Rattle.std.specs.Prelude.{◌≡◌, IfOk};
ghost use Rattle.flume_host.specs.Causes.{HasCause};
ghost use Rattle.flume_host.specs.Told.{WhereTold};
ghost use Rattle.channel_writing.specs.Folders.{IsLastLog, as_cause, log_name};

use channel_face::OpenCause;
use checkpoint_opening::OpeningRefused;
use flume_host::{Disk, Failed, FileName};

// The log file of this number.
fn log_name(number: Option<u32>) -> Option<FileName>
    ensures { result ≡ log_name number }
{
    match number {
        Some(number) => Some(FileName::Log(number)),
        None => None,
    }
}

/// The greatest number of a log file, if there is one.
pub fn last_log<D: Disk>(disk: &mut D) -> Result<Option<u32>, Failed>
    ensures last { IfOk result (λ last. WhereTold (D.told disk.old) (λ t. IsLastLog t.reads last)) }
    ensures same { D.told disk.new ≡ D.told disk.old }
    ensures cause { HasCause (D.faults disk.old) (D.faults disk.new) result }
{
    let mut last = None;
    loop {
        match disk.next_name(log_name(last)) {
            Ok(Some(FileName::Log(number))) => last = Some(number),
            Ok(Some(FileName::Check(_))) => return Ok(last),
            Ok(None) => return Ok(last),
            Err(failed) => return Err(failed),
        }
    }
}

/// The refusal of a folder that was not opened from its newest checkpoint.
pub fn of_opening(refused: OpeningRefused) -> OpenCause
    ensures { result ≡ as_cause refused }
{
    match refused {
        OpeningRefused::DiskFault => OpenCause::DiskFault,
        OpeningRefused::BadCheck { file, at } => OpenCause::BadCheck { file, at },
        OpeningRefused::BadLog { file, at } => OpenCause::BadLog { file, at },
        OpeningRefused::OverCapacity { count } => OpenCause::OverCapacity { count },
        OpeningRefused::NoMemory => OpenCause::NoMemory,
    }
}
