// What hands the outside out and takes it back.
ghost use Rattle.std.specs.Prelude.{◌≡◌, ◌≤◌, ℕ, Option, None, MatchResult, IfOk, OnErr, OnOk, IsTrue, string_bytes};
ghost use Rattle.flume_host.specs.Causes.{Counts, Rose};
ghost use Rattle.flume_host.specs.HostState.{ButDisk, ButRoll, Folders, HostState, WasRead, NotRead};
ghost use Rattle.flume_host.specs.Rolled.{opened};
ghost use Rattle.flume_host.specs.Listens.{IsFrom};
ghost use Rattle.flume_host.specs.HandedOut.{HandedOut, FaultsBy, HandsOut, IsOut, Names, TakesBack, endpoint_of, fresh_links};

use crate::{
    Clock, Dialer, Disk, FileRefused, Listener, NameRefused, NoMemory, Random, RollDir, Sink,
    Source,
};

/// The outside of one run. An object that is handed out starts with a count of 0 faults, and giving it back raises a
/// count of the host exactly where the object's own count isn't 0. Giving back takes no memory.
pub trait Host {
    type Source: Source + Send + Drop;

    type Sink: Sink + Send + Drop;

    type Disk: Disk + Send + Drop;

    type Roll: RollDir + Send + Drop;

    type Listener: Listener + Send + Drop;

    type Dialer: Dialer + Send + Drop;

    type Clock: Clock + Send + Drop;

    type Random: Random + Send + Drop;

    /// What it shows of itself.
    ghost state: { Self → HostState };

    /// What its folders show, by their paths.
    ghost folders: { Self → Folders };

    /// Hands standard input out.
    fn take_input(&mut self) -> Self::Source
        ensures left { Self.Source.left result ≡ (state self.old).input }
        ensures count { Self.Source.faults result ≡ 0 }
        ensures state { state self.new ≡ record (state self.old) { input = None } }
        ensures folders { folders self.new ≡ folders self.old };

    /// Takes standard input back.
    fn keep_input(&mut self, input: Self::Source)
        ensures state { (n : ℕ) × (state self.new
            ≡ record (state self.old) { input = Self.Source.left input; faults = n })
            × Counts (state self.old).faults n (Self.Source.faults input) }
        ensures folders { folders self.new ≡ folders self.old };

    /// Hands standard output out.
    fn take_output(&mut self) -> Self::Sink
        ensures took { Self.Sink.took result ≡ (state self.old).output }
        ensures count { Self.Sink.faults result ≡ 0 }
        ensures state { state self.new ≡ record (state self.old) { output = None; handed = None } }
        ensures folders { folders self.new ≡ folders self.old };

    /// Takes standard output back.
    fn keep_output(&mut self, output: Self::Sink)
        ensures state { (n : ℕ) × (state self.new
            ≡ record (state self.old) {
              output = Self.Sink.took output;
              handed = Self.Sink.handed output;
              faults = n;
            })
            × Counts (state self.old).faults n (Self.Sink.faults output) }
        ensures folders { folders self.new ≡ folders self.old };

    /// Writes a line to standard error. Its failures are ignored and not counted.
    fn say(&mut self, line: &str)
        ensures state { state self.new ≡ state self.old }
        ensures folders { folders self.new ≡ folders self.old };

    /// Opens the disk of a folder, which it makes if it isn't there.
    fn open_disk(&mut self, path: &str) -> Result<Self::Disk, NameRefused>
        ensures told { IfOk result (λ disk. (Self.Disk.told disk
            ≡ (folders self.old).disks path.now) × (Self.Disk.faults disk ≡ 0)) }
        ensures state { (n : ℕ) × (state self.new ≡ record (state self.old) { faults = n })
            × MatchResult result (λ _. n ≡ (state self.old).faults)
            (λ e. e ≡ NameRefused.Failed → Rose (state self.old).faults n) }
        ensures later { (state self.old).faults ≤ (state self.new).faults }
        ensures others { ButDisk path.now (folders self.old) (folders self.new) }
        ensures opened { OnOk result (IsTrue ((folders self.new).disk_opened path.now)) }
        ensures refused { OnErr result (folders self.new ≡ folders self.old) };

    /// Takes the disk of a folder back.
    fn keep_disk(&mut self, path: &str, disk: Self::Disk)
        requires { IsTrue ((folders self.old).disk_opened path.now) }
        ensures told { (folders self.new).disks path.now ≡ Self.Disk.told disk }
        ensures others { ButDisk path.now (folders self.old) (folders self.new) }
        ensures opened { IsTrue ((folders self.new).disk_opened path.now) }
        ensures state { (n : ℕ) × (state self.new ≡ record (state self.old) { disk_faults = n })
            × Counts (state self.old).disk_faults n (Self.Disk.faults disk) };

    /// The bytes of a file, of which there are at most 1,048,576.
    fn read_file(&mut self, path: &str) -> Result<Vec<u8>, FileRefused>
        ensures state { (n : ℕ) × (state self.new ≡ record (state self.old) { faults = n })
            × MatchResult result (λ bytes. WasRead ((state self.old).files path.now)
            (state self.old).faults n bytes.items)
            (NotRead ((state self.old).files path.now) (state self.old).faults n) }
        ensures folders { folders self.new ≡ folders self.old };

    /// Opens a folder of rolled files, which it makes if it isn't there.
    fn open_roll(&mut self, path: &str) -> Result<Self::Roll, NameRefused>
        ensures told { IfOk result (λ roll. (Self.Roll.rolled roll
            ≡ opened ((folders self.old).rolls path.now)) × (Self.Roll.faults roll ≡ 0)) }
        ensures state { (n : ℕ) × (state self.new ≡ record (state self.old) { faults = n })
            × MatchResult result (λ _. n ≡ (state self.old).faults)
            (λ e. e ≡ NameRefused.Failed → Rose (state self.old).faults n) }
        ensures later { (state self.old).faults ≤ (state self.new).faults }
        ensures others { ButRoll path.now (folders self.old) (folders self.new) }
        ensures opened { OnOk result (IsTrue ((folders self.new).roll_opened path.now)) }
        ensures refused { OnErr result (folders self.new ≡ folders self.old) };

    /// Takes a folder of rolled files back. Its faults are in no count of the host.
    fn keep_roll(&mut self, path: &str, roll: Self::Roll)
        requires { IsTrue ((folders self.old).roll_opened path.now) }
        ensures told { (folders self.new).rolls path.now ≡ Self.Roll.rolled roll }
        ensures others { ButRoll path.now (folders self.old) (folders self.new) }
        ensures opened { IsTrue ((folders self.new).roll_opened path.now) }
        ensures state { state self.new ≡ state self.old };

    /// A listener at this address and port. A further call of the same two gives a further listener of them, and each link
    /// of a peer is given by one of these only.
    fn listen(&mut self, bind: &str, port: u16) -> Result<Self::Listener, NameRefused>
        ensures told { IfOk result (λ listener. Self.Listener.told listener
            ≡ fresh_links (state self.old).listeners) }
        ensures endpoint { IfOk result (λ listener. Self.Listener.endpoint listener
            ≡ endpoint_of bind.now port (state self.old).listeners) }
        ensures counts { IfOk result (λ listener. (Self.Listener.faults listener ≡ 0)
            × (Self.Listener.waits listener ≡ 0)) }
        ensures state { (n : ℕ) × (listeners : Option HandedOut)
            × (state self.new ≡ record (state self.old) { listeners = listeners; faults = n })
            × HandsOut result bind.now port (state self.old).listeners listeners
            × FaultsBy result (state self.old).faults n }
        ensures folders { folders self.new ≡ folders self.old };

    /// Takes a listener back that it handed out for this address and port. Its faults are in no count of the host.
    fn keep_listener(&mut self, bind: &str, port: u16, listener: Self::Listener)
        requires out { IsOut bind.now port (state self.old).listeners }
        requires from { IsFrom bind.now port (Self.Listener.endpoint listener) }
        ensures state { (listeners : Option HandedOut)
            × (state self.new ≡ record (state self.old) { listeners = listeners })
            × TakesBack (record {
              host = bind.now;
              port = port;
              told = Self.Listener.told listener;
              waits = Self.Listener.waits listener;
              faults = Self.Listener.faults listener;
            })
            (state self.old).listeners listeners }
        ensures folders { folders self.new ≡ folders self.old };

    /// A dialer of this address and port. Nothing outside is touched: a fault shows only when it dials.
    fn dialer(&mut self, host: &str, port: u16) -> Result<Self::Dialer, NoMemory>
        ensures told { IfOk result (λ dialer. Self.Dialer.told dialer
            ≡ fresh_links (state self.old).dialers) }
        ensures endpoint { IfOk result (λ dialer. Self.Dialer.endpoint dialer
            ≡ endpoint_of host.now port (state self.old).dialers) }
        ensures count { IfOk result (λ dialer. Self.Dialer.faults dialer ≡ 0) }
        ensures state { (dialers : Option HandedOut)
            × (state self.new ≡ record (state self.old) { dialers = dialers })
            × HandsOut result host.now port (state self.old).dialers dialers }
        ensures folders { folders self.new ≡ folders self.old };

    /// Takes a dialer back that it handed out for this address and port. Its faults are in no count of the host.
    fn keep_dialer(&mut self, host: &str, port: u16, dialer: Self::Dialer)
        requires out { IsOut host.now port (state self.old).dialers }
        requires from { IsFrom host.now port (Self.Dialer.endpoint dialer) }
        ensures state { (dialers : Option HandedOut)
            × (state self.new ≡ record (state self.old) { dialers = dialers })
            × TakesBack (record {
              host = host.now;
              port = port;
              told = Self.Dialer.told dialer;
              waits = 0;
              faults = Self.Dialer.faults dialer;
            }) (state self.old).dialers dialers }
        ensures folders { folders self.new ≡ folders self.old };

    /// The host's name, or its address as text where `use_ip` is true.
    fn host_name(&mut self, use_ip: bool) -> Result<String, NameRefused>
        ensures name { IfOk result (λ text. Names use_ip (state self.old).name
            (state self.old).address (string_bytes text)) }
        ensures state { (n : ℕ) × (state self.new ≡ record (state self.old) { faults = n })
            × FaultsBy result (state self.old).faults n }
        ensures folders { folders self.new ≡ folders self.old };

    /// A clock.
    fn clock(&mut self) -> Self::Clock
        ensures moments { Self.Clock.moments result ≡ (state self.old).moments }
        ensures state { state self.new ≡ state self.old }
        ensures folders { folders self.new ≡ folders self.old };

    /// Chance.
    fn random(&mut self) -> Self::Random
        ensures draws { Self.Random.draws result ≡ (state self.old).draws }
        ensures state { state self.new ≡ state self.old }
        ensures folders { folders self.new ≡ folders self.old };

    /// How often the host failed, and the input and the output that were given back.
    fn faults(&self) -> u64
        ensures { result ≡ (state self.now).faults };

    /// How often the disks failed that were given back.
    fn disk_faults(&self) -> u64
        ensures { result ≡ (state self.now).disk_faults };
}
