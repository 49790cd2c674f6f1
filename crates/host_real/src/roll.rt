// A folder of the file system as a folder of rolled files.
ghost use Rattle.std.specs.Prelude.{◌≡◌, ◌≤◌, None, IfOk, IsErr};
ghost use Rattle.std.specs.Io.{WritesAtMost};
ghost use Rattle.flume_host.specs.Causes.{HasCause, Rose};

use crate::disk::{make_folder, sync_folder};
use crate::host::Teller;
use flume_host::{Failed, RollDir};
use std::fs::File;
use std::io;
use std::io::{ErrorKind, Write};

/// A folder of rolled files. Its other files are left alone.
#[derive(Drop)]
pub struct RealRoll {
    teller: Teller,
    path: String,
    // the file that gets what is written
    file: Option<File>,
    pub faults: u64,
}

// Writes some bytes to a file.
fn write_some(file: &mut File, bytes: &[u8]) -> io::Result<usize>
    ensures { WritesAtMost result bytes.now }
{
    for _ in 0..u64::MAX {
        match file.write(bytes) {
            Err(e) if e.kind() == ErrorKind::Interrupted => {}
            answer => return answer,
        }
    }
    Err(io::Error::from(ErrorKind::Interrupted))
}

impl RealRoll {
    /// Opens a folder, which it makes if it isn't there.
    pub fn open(rt: HostRuntime, path: String) -> io::Result<Self>
        ensures { IfOk result (λ roll. roll.faults ≡ 0) }
    {
        make_folder(&rt, path.as_str())?;
        Ok(RealRoll {
            teller: Teller::new(rt),
            path,
            file: None,
            faults: 0,
        })
    }

    // Makes a new file, and its name stable.
    fn make_file(&mut self, name: &str) -> io::Result<()>
        ensures { self.new.faults ≡ self.old.faults }
    {
        self.file = None;
        let folder = self.path.as_str();
        let path = format!(in self.teller.rt.alloc(); "{folder}/{name}")?;
        let file = File::create_new(&self.teller.rt, path.as_str())?;
        sync_folder(&self.teller.rt, folder)?;
        self.file = Some(file);
        Ok(())
    }

    // A failure, counted and told.
    fn fail<T>(&mut self, error: &io::Error) -> Result<T, Failed>
        ensures counted { Rose self.old.faults self.new.faults ×
            (self.old.faults ≤ self.new.faults) }
        ensures failed { IsErr result }
    {
        self.teller.fails(self.path.as_str(), error);
        self.faults = self.faults.saturating_add(1);
        Err(Failed)
    }
}

impl RollDir for RealRoll {
    ghost rolled = { λ _. None };

    ghost faults = { λ r. r.faults };

    fn begin(&mut self, name: &str) -> Result<(), Failed> {
        match self.make_file(name) {
            Ok(()) => Ok(()),
            Err(e) => self.fail(&e),
        }
    }

    fn write(&mut self, bytes: &[u8]) -> Result<usize, Failed> {
        let Some(file) = &mut self.file else {
            return self.fail(&io::Error::from(ErrorKind::NotFound));
        };
        match write_some(file, bytes) {
            Ok(n) if n > 0 || bytes.is_empty() => Ok(n),
            Ok(_) => self.fail(&io::Error::from(ErrorKind::WriteZero)),
            Err(e) => self.fail(&e),
        }
    }

    // What a delivery was answered for stays when the machine stops.
    fn flush(&mut self) -> Result<(), Failed> {
        let synced = match &self.file {
            Some(file) => file.sync_all(),
            None => Ok(()),
        };
        match synced {
            Ok(()) => {
                self.teller.works(self.path.as_str());
                Ok(())
            }
            Err(e) => self.fail(&e),
        }
    }

    fn faults(&self) -> u64 {
        self.faults
    }
}
