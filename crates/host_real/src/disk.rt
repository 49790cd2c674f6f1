// A folder of the file system as a disk.
ghost use Rattle.std.specs.Prelude.{◌≡◌, ◌≤◌, ◌<◌, ◌+◌, ◌^◌, None, IfOk, OnOk, IfSome, length};
ghost use Rattle.flume_host.specs.Causes.{HasCause};
ghost use Rattle.flume_host.specs.Folder.{IsAbove};

use crate::host::Teller;
use flume_host::{Disk, Failed, FileName};
use std::fs::{File, OpenOptions};
use std::io::ErrorKind;
use std::os::unix::fs::FileExt;
use std::{fs, io};

// No file has more bytes than this.
const MOST: u64 = 9223372036854775807;

// A file that is kept open for the next call on it.
#[derive(Drop)]
struct OpenFile {
    name: FileName,
    file: File,
}

/// A folder, in which log file 7 is `log-7` and checkpoint 3 is `checkpoint-3`. Its other files are no files of the disk.
#[derive(Drop)]
pub struct RealDisk {
    teller: Teller,
    path: String,
    // the file that was used last
    kept: Option<OpenFile>,
    // the folder, locked for as long as the disk is open
    lock: File,
    pub faults: u64,
}

// A number in decimal without leading zeros.
fn number(digits: &str) -> Option<u32> {
    let first = digits.bytes().next()?;
    if !first.is_ascii_digit() || (first == b'0' && digits.len() > 1) {
        return None;
    }
    digits.parse::<u32>().ok()
}

// The name of a file of the folder, if it is one of the disk's.
fn name_of(file_name: &str) -> Option<FileName> {
    if let Some(digits) = file_name.strip_prefix("log-") {
        return Some(FileName::Log(number(digits)?));
    }
    if let Some(digits) = file_name.strip_prefix("checkpoint-") {
        return Some(FileName::Check(number(digits)?));
    }
    None
}

// The path of a file of the folder.
fn file_path(rt: &HostRuntime, folder: &str, name: FileName) -> io::Result<String> {
    let path = match name {
        FileName::Log(n) => format!(in rt.alloc(); "{folder}/log-{n}")?,
        FileName::Check(n) => format!(in rt.alloc(); "{folder}/checkpoint-{n}")?,
    };
    Ok(path)
}

/// Makes the names of a folder stable.
pub fn sync_folder(rt: &HostRuntime, folder: &str) -> io::Result<()> {
    File::open(rt, folder)?.sync_all()
}

fn is_folder(rt: &HostRuntime, path: &str) -> bool {
    match fs::metadata(rt, path) {
        Ok(metadata) => metadata.is_dir(),
        Err(_) => false,
    }
}

// The folder that this one is named in.
fn parent_of(path: &str) -> &str {
    match path.rsplit_once('/') {
        Some(("", _)) => "/",
        Some((parent, _)) => parent,
        None => ".",
    }
}

// Makes one folder if it isn't there, and its name stable.
fn make_one_folder(rt: &HostRuntime, path: &str) -> io::Result<()> {
    if is_folder(rt, path) {
        return Ok(());
    }
    fs::create_dir(rt, path)?;
    sync_folder(rt, parent_of(path))
}

/// Makes a folder and those above it where they aren't there, and their names stable.
pub fn make_folder(rt: &HostRuntime, path: &str) -> io::Result<()> {
    for end in 1..path.len() {
        if let Some((above, rest)) = path.split_at_checked(end)
            && rest.starts_with('/')
        {
            make_one_folder(rt, above)?;
        }
    }
    make_one_folder(rt, path)
}

// The lesser of the two, where the new name is above another.
fn better(name: FileName, after: Option<FileName>, best: Option<FileName>) -> Option<FileName>
    requires { IfSome best (λ n. IsAbove after n) }
    ensures { IfSome result (λ n. IsAbove after n) }
{
    let is_above = match after {
        Some(low) => low.is_below(name),
        None => true,
    };
    let is_least = match best {
        Some(least) => name.is_below(least),
        None => true,
    };
    if is_above && is_least {
        Some(name)
    } else {
        best
    }
}

// The least name above another, or the least of all.
fn least_above(
    rt: &HostRuntime,
    folder: &str,
    after: Option<FileName>,
) -> io::Result<Option<FileName>>
    ensures { IfOk result (λ next. IfSome next (λ n. IsAbove after n)) }
{
    let mut best = None;
    for entry in fs::read_dir(rt, folder)? {
        match entry {
            Ok(entry) => {
                if let Some(name) = name_of(entry.file_name()) {
                    best = better(name, after, best);
                }
            }
            // A name that isn't UTF-8 is no name of the disk's.
            Err(e) if e.kind() == ErrorKind::InvalidFilename => {}
            Err(e) => return Err(e),
        }
    }
    Ok(best)
}

// Makes every file of the disk stable, and then their names.
fn settle_all(rt: &HostRuntime, folder: &str) -> io::Result<()> {
    for entry in fs::read_dir(rt, folder)? {
        match entry {
            Ok(entry) => {
                if name_of(entry.file_name()).is_some() {
                    File::open(rt, entry.path())?.sync_all()?;
                }
            }
            Err(e) if e.kind() == ErrorKind::InvalidFilename => {}
            Err(e) => return Err(e),
        }
    }
    sync_folder(rt, folder)
}

// Fills `into` from the offset on, and fills less only where the file ends.
fn read_whole(file: &File, at: u64, into: &mut [u8]) -> io::Result<usize>
    ensures { IfOk result (λ n. n ≤ length into.old) }
{
    let mut filled = 0;
    for _ in 0..u64::MAX {
        if filled >= into.len() || at > MOST - filled as u64 {
            break;
        }
        match file.read_at(&mut into[filled..], at + filled as u64) {
            Ok(0) => break,
            Ok(n) => filled += n,
            Err(e) if e.kind() == ErrorKind::Interrupted => {}
            Err(e) => return Err(e),
        }
    }
    Ok(filled)
}

impl RealDisk {
    /// Opens a folder, which it makes if it isn't there, and locks it. Fails where it is locked already, by another process or
    /// by another disk of this one: two writers of one log would lose what they acknowledged. The system takes the lock off
    /// when the process ends, however it ends.
    pub fn open(rt: HostRuntime, path: String) -> io::Result<Self>
        ensures { IfOk result (λ disk. disk.faults ≡ 0) }
    {
        make_folder(&rt, path.as_str())?;
        let lock = File::open(&rt, path.as_str())?;
        lock.try_lock()?;
        Ok(RealDisk {
            teller: Teller::new(rt),
            path,
            kept: None,
            lock,
            faults: 0,
        })
    }

    // A call's answer, where a failure is counted and told.
    fn counted<T>(&mut self, answer: io::Result<T>) -> Result<T, Failed>
        ensures cause { HasCause self.old.faults self.new.faults result }
        ensures same { IfOk result (λ value. answer ≡ Ok value) }
    {
        match answer {
            Ok(value) => Ok(value),
            Err(e) => {
                self.teller.fails(self.path.as_str(), &e);
                self.faults = self.faults.saturating_add(1);
                Err(Failed)
            }
        }
    }

    // The file of this name, kept open or opened.
    fn take_file(&mut self, name: FileName) -> io::Result<File>
        ensures { self.new.faults ≡ self.old.faults }
    {
        if let Some(OpenFile { name: kept, file }) = self.kept.take()
            && kept == name
        {
            return Ok(file);
        }
        let path = file_path(&self.teller.rt, self.path.as_str(), name)?;
        OpenOptions::new()
            .read(true)
            .write(true)
            .open(&self.teller.rt, path.as_str())
    }

    fn keep_file(&mut self, name: FileName, file: File)
        ensures { self.new.faults ≡ self.old.faults }
    {
        self.kept = Some(OpenFile { name, file });
    }

    // Makes a new file, and its name stable.
    fn make_file(&mut self, name: FileName) -> io::Result<()>
        ensures { self.new.faults ≡ self.old.faults }
    {
        let path = file_path(&self.teller.rt, self.path.as_str(), name)?;
        let file = File::create_new(&self.teller.rt, path.as_str())?;
        sync_folder(&self.teller.rt, self.path.as_str())?;
        self.keep_file(name, file);
        Ok(())
    }

    fn file_len(&mut self, name: FileName) -> io::Result<u64>
        ensures bounded { IfOk result (λ n. n < 2 ^ 63) }
        ensures faults { self.new.faults ≡ self.old.faults }
    {
        let file = self.take_file(name)?;
        let len = file.metadata()?.len();
        self.keep_file(name, file);
        if len > MOST {
            return Err(io::Error::from(ErrorKind::FileTooLarge));
        }
        Ok(len)
    }

    fn read_file(&mut self, name: FileName, at: u64, into: &mut [u8]) -> io::Result<usize>
        ensures filled { IfOk result (λ n. n ≤ length into.old) }
        ensures faults { self.new.faults ≡ self.old.faults }
    {
        let file = self.take_file(name)?;
        let filled = read_whole(&file, at, into)?;
        self.keep_file(name, file);
        Ok(filled)
    }

    fn write_file(&mut self, name: FileName, at: u64, bytes: &[u8]) -> io::Result<()>
        ensures bounded { OnOk result (at + length bytes.now < 2 ^ 63) }
        ensures faults { self.new.faults ≡ self.old.faults }
    {
        if at > MOST || bytes.len() as u64 > MOST - at {
            return Err(io::Error::from(ErrorKind::FileTooLarge));
        }
        let file = self.take_file(name)?;
        file.write_all_at(bytes, at)?;
        self.keep_file(name, file);
        Ok(())
    }

    fn sync_file(&mut self, name: FileName) -> io::Result<()>
        ensures { self.new.faults ≡ self.old.faults }
    {
        let file = self.take_file(name)?;
        file.sync_all()?;
        self.keep_file(name, file);
        Ok(())
    }

    // Removes a file, and makes that stable.
    fn remove_file(&mut self, name: FileName) -> io::Result<()>
        ensures { self.new.faults ≡ self.old.faults }
    {
        self.kept = None;
        let path = file_path(&self.teller.rt, self.path.as_str(), name)?;
        fs::remove_file(&self.teller.rt, path.as_str())?;
        sync_folder(&self.teller.rt, self.path.as_str())
    }
}

impl Disk for RealDisk {
    ghost use Rattle.flume_host.proofs.Telling.{silent};

    ghost told = { λ _. None };

    ghost faults = { λ d. d.faults };

    ghost reads_are_left = { λ d t is. absurd (silent t is) };

    fn faults(&self) -> u64 {
        self.faults
    }

    fn make(&mut self, name: FileName) -> Result<(), Failed> {
        let made = self.make_file(name);
        self.counted(made)
    }

    fn len(&mut self, name: FileName) -> Result<u64, Failed> {
        let len = self.file_len(name);
        self.counted(len)
    }

    fn read(&mut self, name: FileName, at: u64, into: &mut [u8]) -> Result<usize, Failed> {
        let filled = self.read_file(name, at, into);
        self.counted(filled)
    }

    fn write_at(&mut self, name: FileName, at: u64, bytes: &[u8]) -> Result<(), Failed> {
        let written = self.write_file(name, at, bytes);
        self.counted(written)
    }

    fn sync(&mut self, name: FileName) -> Result<(), Failed> {
        let synced = self.sync_file(name);
        if synced.is_ok() {
            self.teller.works(self.path.as_str());
        }
        self.counted(synced)
    }

    fn settle(&mut self) -> Result<(), Failed> {
        let settled = settle_all(&self.teller.rt, self.path.as_str());
        self.counted(settled)
    }

    fn remove(&mut self, name: FileName) -> Result<(), Failed> {
        let removed = self.remove_file(name);
        self.counted(removed)
    }

    fn next_name(&mut self, after: Option<FileName>) -> Result<Option<FileName>, Failed> {
        let next = least_above(&self.teller.rt, self.path.as_str(), after);
        self.counted(next)
    }
}
