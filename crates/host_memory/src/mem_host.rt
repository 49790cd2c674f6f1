// A host in memory, with folders by their paths.
ghost use Rattle.std.specs.Prelude.{◌≡◌, [], None, Some, MatchOption, string_bytes};
ghost use Rattle.flume_host.specs.Causes.{Counts};
ghost use Rattle.flume_host.specs.Listens.{no_links};
ghost use Rattle.host_memory.specs.Ends.{none_out};
ghost use Rattle.host_memory.specs.Listens.{listener_told, dialer_told};
ghost use Rattle.host_memory.specs.Times.{moments_of, draws_of};
ghost use Rattle.host_memory.specs.Folders.{file_of, folder_of, roll_of};

use crate::address::{Address, Placed, take_at};
use crate::ends::Ends;
use crate::named::{add_room, give_back, place_of, take_out};
use crate::script::Script;
use crate::{
    MemClock, MemDialer, MemDisk, MemListener, MemRandom, MemRoll, MemSink, MemSource, Named,
};
use flume_host::{FILE_LIMIT, FileRefused, Host, NameRefused, NoMemory};
use std::alloc::Global;

/// A host in memory. A folder of a path that it does not have is empty, and opening makes it.
#[derive(Drop)]
pub struct MemHost {
    alloc: Global,
    // None while it is handed out
    input: Option<MemSource>,
    output: Option<MemSink>,
    folders: Vec<Named<MemDisk>>,
    rolls: Vec<Named<MemRoll>>,
    files: Vec<Named<Vec<u8>>>,
    // what is to be handed out, by its address
    new_listeners: Vec<Placed<MemListener>>,
    new_dialers: Vec<Placed<MemDialer>>,
    // what was handed out, and what came back
    listeners: Ends<MemListener>,
    dialers: Ends<MemDialer>,
    name: String,
    address: String,
    clock: MemClock,
    random: MemRandom,
    said: Vec<String>,
    opens: Script,
    // the openings for which there is no memory
    lacking: Vec<u64>,
    faults: u64,
    disk_faults: u64,
}

impl MemHost {
    ghost use Rattle.std.specs.Prelude.{[], IfSome, IsSome, Some};
    ghost use Rattle.host_memory.specs.Words.{left_in, took_in, handed_in, told_in, rolled_in, no_files};
    ghost use Rattle.host_memory.specs.HostWords.{state_in, folder_in, roll_in, open_calls, open_fails, said_in, HasFolder, HasRoll};

    /// A host with this input, this output and these folders with disks. Where a path stands twice, its first folder
    /// counts. It has no files to be read, no rolled files, no links and an empty name, and its clocks stand at 0.
    pub fn new(
        alloc: Global,
        input: MemSource,
        output: MemSink,
        folders: Vec<Named<MemDisk>>,
    ) -> Self
        ensures state { state_in result ≡ record {
          input = left_in input;
          output = took_in output;
          handed = handed_in output;
          files = file_of [];
          moments = Some
              (moments_of (record { moment = 0; step = 0 }));
          draws = Some
              (draws_of (record { number = 0; step = 0 }));
          listeners = Some none_out;
          dialers = Some
              none_out;
          name = Some [];
          address = Some [];
          faults = 0;
          disk_faults = 0;
        } }
        ensures folders { (folder_in result ≡ folder_of folders.items) ×
            (roll_in result ≡ roll_of []) }
    {
        MemHost {
            alloc,
            input: Some(input),
            output: Some(output),
            folders,
            rolls: Vec::new(alloc),
            files: Vec::new(alloc),
            new_listeners: Vec::new(alloc),
            new_dialers: Vec::new(alloc),
            listeners: Ends::new(alloc),
            dialers: Ends::new(alloc),
            name: String::new(alloc),
            address: String::new(alloc),
            clock: MemClock { moment: 0, step: 0 },
            random: MemRandom { number: 0, step: 0 },
            said: Vec::new(alloc),
            opens: Script::new(alloc),
            lacking: Vec::new(alloc),
            faults: 0,
            disk_faults: 0,
        }
    }

    /// With these files to be read, by their paths. Where a path stands twice, its first file counts.
    pub fn with_files(mut self, files: Vec<Named<Vec<u8>>>) -> Self
        ensures state { state_in result ≡ record (state_in self) { files = file_of files.items } }
        ensures folders { (folder_in result ≡ folder_in self) × (roll_in result ≡ roll_in self) }
        ensures script { (open_fails result ≡ open_fails self) ×
            (open_calls result ≡ open_calls self) }
    {
        self.files = files;
        self
    }

    /// With these folders of rolled files. Where a path stands twice, its first folder counts.
    pub fn with_rolls(mut self, rolls: Vec<Named<MemRoll>>) -> Self
        ensures state { state_in result ≡ state_in self }
        ensures folders { (folder_in result ≡ folder_in self) ×
            (roll_in result ≡ roll_of rolls.items) }
        ensures script { (open_fails result ≡ open_fails self) ×
            (open_calls result ≡ open_calls self) }
    {
        self.rolls = rolls;
        self
    }

    /// Each clock and each chance that is handed out begins as this one.
    pub fn with_times(mut self, clock: MemClock, random: MemRandom) -> Self
        ensures state { state_in result ≡ record (state_in self)
            { moments = Some (moments_of clock); draws = Some (draws_of random) } }
        ensures folders { (folder_in result ≡ folder_in self) × (roll_in result ≡ roll_in self) }
        ensures script { (open_fails result ≡ open_fails self) ×
            (open_calls result ≡ open_calls self) }
    {
        self.clock = clock;
        self.random = random;
        self
    }

    /// With these listeners, by their addresses. A call for an address gets its first one that was not handed out, and
    /// after them all one that only waits.
    pub fn with_listeners(mut self, listeners: Vec<Placed<MemListener>>) -> Self
        ensures state { state_in result ≡ state_in self }
        ensures folders { (folder_in result ≡ folder_in self) × (roll_in result ≡ roll_in self) }
        ensures script { (open_fails result ≡ open_fails self) ×
            (open_calls result ≡ open_calls self) }
    {
        self.new_listeners = listeners;
        self
    }

    /// With these dialers, by their addresses. A call for an address gets its first one that was not handed out, and
    /// after them all one whose dials fail.
    pub fn with_dialers(mut self, dialers: Vec<Placed<MemDialer>>) -> Self
        ensures state { state_in result ≡ state_in self }
        ensures folders { (folder_in result ≡ folder_in self) × (roll_in result ≡ roll_in self) }
        ensures script { (open_fails result ≡ open_fails self) ×
            (open_calls result ≡ open_calls self) }
    {
        self.new_dialers = dialers;
        self
    }

    /// With this name and this address.
    pub fn named(mut self, name: String, address: String) -> Self
        ensures state { state_in result ≡ record (state_in self)
            { name = Some (string_bytes name); address = Some (string_bytes address) } }
        ensures folders { (folder_in result ≡ folder_in self) × (roll_in result ≡ roll_in self) }
        ensures script { (open_fails result ≡ open_fails self) ×
            (open_calls result ≡ open_calls self) }
    {
        self.name = name;
        self.address = address;
        self
    }

    /// The openings of disks, folders and listeners, the readings of files and the askings for the name, of these numbers
    /// fail. The first one has the number 0.
    pub fn failing_opens(mut self, calls: Vec<u64>) -> Self
        ensures state { state_in result ≡ state_in self }
        ensures folders { (folder_in result ≡ folder_in self) × (roll_in result ≡ roll_in self) }
        ensures script { (open_fails result ≡ calls.items) × (open_calls result ≡ open_calls self) }
    {
        self.opens.fails = calls;
        self
    }

    /// For those of these numbers there is no memory, unless they fail.
    pub fn lacking_opens(mut self, calls: Vec<u64>) -> Self
        ensures state { state_in result ≡ state_in self }
        ensures folders { (folder_in result ≡ folder_in self) × (roll_in result ≡ roll_in self) }
        ensures script { (open_fails result ≡ open_fails self) ×
            (open_calls result ≡ open_calls self) }
    {
        self.lacking = calls;
        self
    }

    // The next opening has no memory.
    fn lacks(&self) -> bool {
        self.lacking.contains(&self.opens.calls)
    }

    /// How many openings, readings and askings there were.
    pub fn opens(&self) -> u64
        ensures { result ≡ open_calls self.now }
    {
        self.opens.calls
    }

    /// The lines that were said to standard error, for as many as there was memory.
    pub fn said(&self) -> &[String]
        ensures { result.now ≡ said_in self.now }
    {
        &self.said
    }

    /// Standard output, while it is not handed out.
    pub fn output(&self) -> Option<&MemSink>
        ensures took { IfSome result (λ sink. took_in sink.now ≡ (state_in self.now).output) }
        ensures there { IsSome (state_in self.now).output → IsSome result }
    {
        self.output.as_ref()
    }

    /// The disk of a folder, where the folder is there and not handed out.
    pub fn disk(&self, path: &str) -> Option<&MemDisk>
        ensures told { IfSome result (λ disk. told_in disk.now ≡ folder_in self.now path.now) }
        ensures there { HasFolder self.now path.now → IsSome (folder_in self.now path.now) → IsSome
            result }
    {
        match place_of(&self.folders, path) {
            Some(index) => self.folders[index].object.as_ref(),
            None => None,
        }
    }

    /// The rolled files of a folder, where the folder is there and not handed out.
    pub fn roll(&self, path: &str) -> Option<&MemRoll>
        ensures told { IfSome result (λ roll. rolled_in roll.now ≡ roll_in self.now path.now) }
        ensures there { HasRoll self.now path.now → IsSome (roll_in self.now path.now) → IsSome
            result }
    {
        match place_of(&self.rolls, path) {
            Some(index) => self.rolls[index].object.as_ref(),
            None => None,
        }
    }

    /// The listeners that came back, in that order.
    pub fn listeners(&self) -> &[Placed<MemListener>]
        ensures { result.now ≡ self.now.listeners.back.items }
    {
        self.listeners.back()
    }

    /// The dialers that came back, in that order.
    pub fn dialers(&self) -> &[Placed<MemDialer>]
        ensures { result.now ≡ self.now.dialers.back.items }
    {
        self.dialers.back()
    }

    // The bytes of the first file of a path.
    fn bytes_of(&self, path: &str) -> Option<&[u8]>
        ensures { MatchOption result (file_of self.now.files.items path.now ≡ None)
            (λ bytes. file_of self.now.files.items path.now ≡ Some bytes.now) }
    {
        let index = place_of(&self.files, path)?;
        match &self.files[index].object {
            Some(bytes) => Some(bytes),
            None => None,
        }
    }
}

// The count after an object with this count was given back.
fn count_after(before: u64, own: u64) -> u64
    ensures { Counts before result own }
{
    if own == 0 {
        before
    } else {
        before.saturating_add(1)
    }
}

// The first listener of an address, which is taken out, or one that only waits. Nothing was asked of it yet.
fn listener_at(alloc: Global, listeners: &mut Vec<Placed<MemListener>>, at: Address) -> MemListener
    ensures told { listener_told result ≡ Some no_links }
    ensures at { result.at ≡ Some at }
    ensures counts { (result.faults ≡ 0) × (result.waits ≡ 0) }
{
    match take_at(listeners, &at) {
        Some(listener) => listener.fresh(at),
        None => MemListener::new(alloc, Vec::new(alloc)).fresh(at),
    }
}

// The first dialer of an address, which is taken out, or one whose dials fail. Nothing was asked of it yet.
fn dialer_at(alloc: Global, dialers: &mut Vec<Placed<MemDialer>>, at: Address) -> MemDialer
    ensures told { dialer_told result ≡ Some no_links }
    ensures at { result.at ≡ Some at }
    ensures count { result.faults ≡ 0 }
{
    match take_at(dialers, &at) {
        Some(dialer) => dialer.fresh(at),
        None => MemDialer::new(alloc, Vec::new(alloc)).fresh(at),
    }
}

impl Host for MemHost {
    ghost use Rattle.host_memory.specs.HostWords.{folders_in, state_in};

    type Source = MemSource;

    type Sink = MemSink;

    type Disk = MemDisk;

    type Roll = MemRoll;

    type Listener = MemListener;

    type Dialer = MemDialer;

    type Clock = MemClock;

    type Random = MemRandom;

    ghost state = { state_in };

    ghost folders = { folders_in };

    fn take_input(&mut self) -> MemSource {
        match self.input.take() {
            Some(mut input) => {
                input.faults = 0;
                input
            }
            None => MemSource::new(self.alloc, Vec::new(self.alloc)).silent(),
        }
    }

    fn keep_input(&mut self, input: MemSource) {
        self.faults = count_after(self.faults, input.faults);
        self.input = Some(input);
    }

    fn take_output(&mut self) -> MemSink {
        match self.output.take() {
            Some(mut output) => {
                output.faults = 0;
                output
            }
            None => MemSink::new(self.alloc).silent(),
        }
    }

    fn keep_output(&mut self, output: MemSink) {
        self.faults = count_after(self.faults, output.faults);
        self.output = Some(output);
    }

    fn say(&mut self, line: &str) {
        if let Ok(line) = String::from_str(self.alloc, line) {
            let _ = self.said.push(line);
        }
    }

    fn open_disk(&mut self, path: &str) -> Result<MemDisk, NameRefused> {
        let lacks = self.lacks();
        if self.opens.next_fails() {
            self.faults = self.faults.saturating_add(1);
            return Err(NameRefused::Failed);
        }
        if lacks {
            return Err(NameRefused::NoMemory);
        }
        let Some(index) = place_of(&self.folders, path) else {
            return match add_room(self.alloc, &mut self.folders, path) {
                Ok(()) => Ok(MemDisk::new(self.alloc)),
                Err(_) => Err(NameRefused::NoMemory),
            };
        };
        match take_out(&mut self.folders, index) {
            Some(mut disk) => {
                disk.faults = 0;
                Ok(disk)
            }
            None => {
                self.faults = self.faults.saturating_add(1);
                Err(NameRefused::Failed)
            }
        }
    }

    fn keep_disk(&mut self, path: &str, disk: MemDisk) {
        self.disk_faults = count_after(self.disk_faults, disk.faults);
        let index = place_of(&self.folders, path).unwrap();
        give_back(&mut self.folders, index, disk);
    }

    fn read_file(&mut self, path: &str) -> Result<Vec<u8>, FileRefused> {
        let lacks = self.lacks();
        if self.opens.next_fails() {
            self.faults = self.faults.saturating_add(1);
            return Err(FileRefused::Failed);
        }
        if lacks {
            return Err(FileRefused::NoMemory);
        }
        let Some(bytes) = self.bytes_of(path) else {
            self.faults = self.faults.saturating_add(1);
            return Err(FileRefused::Failed);
        };
        let size = bytes.len() as u64;
        if size > FILE_LIMIT {
            return Err(FileRefused::TooLarge { size });
        }
        match bytes.to_vec(self.alloc) {
            Ok(bytes) => Ok(bytes),
            Err(_) => Err(FileRefused::NoMemory),
        }
    }

    fn open_roll(&mut self, path: &str) -> Result<MemRoll, NameRefused> {
        let lacks = self.lacks();
        if self.opens.next_fails() {
            self.faults = self.faults.saturating_add(1);
            return Err(NameRefused::Failed);
        }
        if lacks {
            return Err(NameRefused::NoMemory);
        }
        let Some(index) = place_of(&self.rolls, path) else {
            return match add_room(self.alloc, &mut self.rolls, path) {
                Ok(()) => Ok(MemRoll::new(self.alloc)),
                Err(_) => Err(NameRefused::NoMemory),
            };
        };
        match take_out(&mut self.rolls, index) {
            Some(mut roll) => {
                roll.begun = false;
                roll.failed = false;
                roll.faults = 0;
                Ok(roll)
            }
            None => {
                self.faults = self.faults.saturating_add(1);
                Err(NameRefused::Failed)
            }
        }
    }

    fn keep_roll(&mut self, path: &str, roll: MemRoll) {
        let index = place_of(&self.rolls, path).unwrap();
        give_back(&mut self.rolls, index, roll);
    }

    fn listen(&mut self, bind: &str, port: u16) -> Result<MemListener, NameRefused> {
        let lacks = self.lacks();
        if self.opens.next_fails() {
            self.faults = self.faults.saturating_add(1);
            return Err(NameRefused::Failed);
        }
        if lacks {
            return Err(NameRefused::NoMemory);
        }
        let Ok(at) = Address::new(self.alloc, bind, port) else {
            return Err(NameRefused::NoMemory);
        };
        match self.listeners.hand_out(self.alloc, bind, port) {
            Ok(()) => Ok(listener_at(self.alloc, &mut self.new_listeners, at)),
            Err(_) => Err(NameRefused::NoMemory),
        }
    }

    fn keep_listener(&mut self, bind: &str, port: u16, listener: MemListener) {
        self.listeners.take_back(bind, port, listener);
    }

    fn dialer(&mut self, host: &str, port: u16) -> Result<MemDialer, NoMemory> {
        let Ok(at) = Address::new(self.alloc, host, port) else {
            return Err(NoMemory);
        };
        match self.dialers.hand_out(self.alloc, host, port) {
            Ok(()) => Ok(dialer_at(self.alloc, &mut self.new_dialers, at)),
            Err(_) => Err(NoMemory),
        }
    }

    fn keep_dialer(&mut self, host: &str, port: u16, dialer: MemDialer) {
        self.dialers.take_back(host, port, dialer);
    }

    fn host_name(&mut self, use_ip: bool) -> Result<String, NameRefused> {
        let lacks = self.lacks();
        if self.opens.next_fails() {
            self.faults = self.faults.saturating_add(1);
            return Err(NameRefused::Failed);
        }
        if lacks {
            return Err(NameRefused::NoMemory);
        }
        let text = if use_ip { &self.address } else { &self.name };
        match String::from_str(self.alloc, text.as_str()) {
            Ok(text) => Ok(text),
            Err(_) => Err(NameRefused::NoMemory),
        }
    }

    fn clock(&mut self) -> MemClock {
        self.clock
    }

    fn random(&mut self) -> MemRandom {
        self.random
    }

    fn faults(&self) -> u64 {
        self.faults
    }

    fn disk_faults(&self) -> u64 {
        self.disk_faults
    }
}
