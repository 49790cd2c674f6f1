// The open transactions of a log: the table of them, what each has open, and the lists that are kept of those that ended for
// those that begin.
ghost use Rattle.std.specs.Prelude.{◌≡◌, ◌<◌, ◌≤◌, ◌+◌, ◌↔◌, [], length, None, Some, IsSome, IfOk, OnOk, OnErr, MatchOption, MatchResult, option_map, ℕ, ◌-◌, ◌^◌, true, map, vec_capacity};
ghost use Rattle.open_table.specs.Tables.{open_at, HasAt, MayAdd, MayMove, IsNext, added, begun, is_open, listed_of, moved_open, puts_of, takes_of, wider, Puts, is_behind, moved_pointer, IsOf, size, with_item, capacity_of, moved, MayMoveOne, is_puts};
ghost use Rattle.open_table.specs.declared.table.TableRefused.TheVariants.{TooManyOpen};

use event_core::{MOST_OPEN, NoMemory};
use record_form::Pointer;
use std::alloc::Global;
use std::collections::BTreeMap;
use std::marker::Model;
use std::ops::Bound;

/// Why a transaction was not begun.
#[derive(Clone, Copy, Debug, PartialEq, Eq)]
pub enum TableRefused {
    /// 1,024 are open.
    TooManyOpen,
    /// Out of memory.
    NoMemory,
}

/// The open transactions, by their numbers.
#[derive(Drop)]
pub struct OpenTable {
    alloc: Global,
    opened: BTreeMap<u64, Opened>,
    spare: Spare,
}

impl Model for OpenTable {
    ghost use Rattle.open_table.specs.Tables.{Table};

    ghost Value = { Table };

    ghost view = { λ t. t.opened.entries };
}

impl OpenTable {
    /// A table in which no transaction is open.
    pub fn new(alloc: Global) -> Result<OpenTable, NoMemory>
        ensures { IfOk result (λ t. t ≡ []) }
    {
        Ok(OpenTable {
            alloc,
            opened: BTreeMap::new(alloc),
            spare: Spare::new(alloc)?,
        })
    }

    /// Begins a transaction of puts, or of takes where `puts` is false, with room for so many. It goes on in a list that was handed
    /// back, where there is one: then it takes memory for its list only where that one's room is less.
    ///
    /// `TooManyOpen` comes exactly where 1,024 are open.
    pub fn begin(&mut self, txn: u64, puts: bool, room: u32) -> Result<(), TableRefused>
        requires { open_at self.old txn ≡ None }
        ensures begun { OnOk result (HasAt txn (Some (begun puts room)) self.old self.new
            × (length self.new ≡ length self.old + 1)) }
        ensures many { MatchResult result (λ _. length self.old < 1024)
            (λ e. (e ≡ TooManyOpen) ↔ (1024 ≤ length self.old)) }
        ensures same { OnErr result (self.new ≡ self.old) }
    {
        if self.opened.len() >= MOST_OPEN {
            return Err(TableRefused::TooManyOpen);
        }
        let Ok(list) = self.spare.list(self.alloc, puts, room) else {
            return Err(TableRefused::NoMemory);
        };
        let opened = Opened::new(list, room);
        match self.opened.insert(txn, opened) {
            Ok(_) => Ok(()),
            Err(_) => Err(TableRefused::NoMemory),
        }
    }

    /// Adds a put or a take to a transaction that is open, is of that kind, and has fewer than its room. It takes no memory.
    pub fn add(&mut self, txn: u64, item: Item)
        requires { MayAdd item (open_at self.old txn) }
        ensures added { HasAt txn (added item (open_at self.old txn)) self.old self.new }
        ensures count { length self.new ≡ length self.old }
    {
        if let Some(opened) = self.opened.get_mut(&txn) {
            opened.add(item);
        }
    }

    /// Makes room in an open transaction for as many again and one more, where its room is used up.
    pub fn widen(&mut self, txn: u64) -> Result<(), NoMemory>
        requires { IsSome (open_at self.old txn) }
        ensures wider { OnOk result (HasAt txn (option_map wider (open_at self.old txn)) self.old
            self.new) }
        ensures count { length self.new ≡ length self.old }
        ensures same { OnErr result (HasAt txn (open_at self.old txn) self.old self.new) }
    {
        match self.opened.get_mut(&txn) {
            Some(opened) => opened.widen(),
            None => Ok(()),
        }
    }

    /// Takes a transaction that is open out of the table, and hands out what it had. It takes no memory.
    pub fn end(&mut self, txn: u64) -> Ended
        requires { IsSome (open_at self.old txn) }
        ensures ended { option_map (λ o. o.listed) (open_at self.old txn)
            ≡ Some (listed_of result) }
        ensures rest { HasAt txn None self.old self.new }
        ensures count { length self.new + 1 ≡ length self.old }
    {
        self.opened.remove(&txn).unwrap().into_list()
    }

    /// Hands back what an ended transaction had, so that one that begins takes no memory for its list. Four lists of puts and four of
    /// takes are kept. It takes no memory.
    pub fn hand_back(&mut self, ended: Ended)
        ensures { self.new ≡ self.old }
    {
        self.spare.keep(ended);
    }

    /// The least open transaction above `after`, or the least of all. It takes no memory.
    pub fn next_txn(&self, after: Option<u64>) -> Option<u64>
        ensures { IsNext self.now after result }
    {
        let start = match after {
            Some(after) => Bound::Excluded(after),
            None => Bound::Unbounded,
        };
        match self.opened.range((start, Bound::Unbounded)).next() {
            Some((txn, _)) => Some(*txn),
            None => None,
        }
    }

    /// The puts of an open transaction, in the order of its calls. Of a transaction of takes there are none.
    pub fn puts(&self, txn: u64) -> &[Pointer]
        requires { IsSome (open_at self.now txn) }
        ensures { option_map (λ o. puts_of o.listed) (open_at self.now txn) ≡ Some result.now }
    {
        self.opened[&txn].puts()
    }

    /// The takes of an open transaction, in the order of its calls. Of a transaction of puts there are none.
    pub fn takes(&self, txn: u64) -> &[u64]
        requires { IsSome (open_at self.now txn) }
        ensures { option_map (λ o. takes_of o.listed) (open_at self.now txn) ≡ Some result.now }
    {
        self.opened[&txn].takes()
    }

    /// Whether the transaction is open, and is one of puts, or of takes where `puts` is false.
    pub fn has(&self, txn: u64, puts: bool) -> bool
        ensures { result ≡ is_open puts (open_at self.now txn) }
    {
        match self.opened.get(&txn) {
            Some(opened) => opened.has_puts() == puts,
            None => false,
        }
    }

    fn move_at(&mut self, txn: u64, file: u32, at: u64, to_file: u32, to_at: u64)
        requires { MatchOption (open_at self.old txn) (Unit {0})
            (λ o. MayMove file at to_at o.listed) }
        ensures moved { HasAt txn (option_map (moved_open file at to_file to_at)
            (open_at self.old txn)) self.old self.new }
        ensures count { length self.new ≡ length self.old }
    {
        if let Some(opened) = self.opened.get_mut(&txn) {
            opened.move_puts(file, at, to_file, to_at);
        }
    }

    /// Moves each put that stands in `file` at the offset `at` or after it to `to_file`, where it stands as far after
    /// `to_at`. It takes no memory.
    pub fn moved(&mut self, file: u32, at: u64, to_file: u32, to_at: u64)
        requires { (txn : ℕ) → MatchOption (open_at self.old txn) (Unit {0})
            (λ o. MayMove file at to_at o.listed) }
        ensures moved { (txn : ℕ) → open_at self.new txn
            ≡ option_map (moved_open file at to_file to_at) (open_at self.old txn) }
        ensures count { length self.new ≡ length self.old }
    {
        let mut after = None;
        while let Some(txn) = self.next_txn(after) {
            self.move_at(txn, file, at, to_file, to_at);
            after = Some(txn);
        }
    }
}

/// A put or a take.
#[derive(Clone, Copy, Debug, PartialEq, Eq)]
pub enum Item {
    /// A put, by the place of its record.
    Put(Pointer),
    /// A take, by the number of its event.
    Take(u64),
}

/// What a transaction had open when it ended, in the order of its calls.
#[derive(Drop)]
pub enum Ended {
    /// The places of its puts.
    Puts(Vec<Pointer>),
    /// The numbers that it takes.
    Takes(Vec<u64>),
}

/// What a transaction has open, with room for so many puts or takes.
#[derive(Drop)]
pub struct Opened {
    list: Ended,
    room: u32,
}

impl Model for Opened {
    ghost use Rattle.std.specs.Prelude.{◌≤◌};
    ghost use Rattle.open_table.specs.Tables.{Open, listed_of, capacity_of};

    ghost Value = { Open };

    ghost view = { λ o. record { listed = listed_of o.list; room = o.room } };

    ghost invariant = { λ o. o.room ≤ capacity_of o.list };
}

fn move_pointer(pointer: &mut Pointer, file: u32, at: u64, to_file: u32, to_at: u64)
    requires { MayMoveOne file at to_at pointer.old }
    ensures { pointer.new ≡ moved_pointer file at to_file to_at pointer.old }
{
    if pointer.file == file && pointer.at >= at {
        pointer.file = to_file;
        pointer.at = to_at + (pointer.at - at);
    }
}

fn move_pointers(pointers: &mut [Pointer], file: u32, at: u64, to_file: u32, to_at: u64)
    requires { MayMove file at to_at (Puts pointers.old) }
    ensures { pointers.new ≡ map (moved_pointer file at to_file to_at) pointers.old }
{
    for pointer in pointers.iter_mut() {
        move_pointer(pointer, file, at, to_file, to_at);
    }
}

impl Ended {
    /// Moves its pointers into a file at this offset or after it to another file. It takes no memory.
    pub fn move_puts(&mut self, file: u32, at: u64, to_file: u32, to_at: u64)
        requires { MayMove file at to_at (listed_of self.old) }
        ensures moved { listed_of self.new ≡ moved file at to_file to_at (listed_of self.old) }
        ensures room { capacity_of self.new ≡ capacity_of self.old }
    {
        if let Ended::Puts(pointers) = self {
            move_pointers(pointers, file, at, to_file, to_at);
        }
    }
}

// The most puts or takes for which more room can be made.
const MOST_WIDENED: usize = 0x7fff_ffff;

// Makes room for so many in all, at least.
pub(crate) fn room_for<T: Drop>(list: &mut Vec<T>, room: u32) -> Result<(), NoMemory>
    ensures items { list.new.items ≡ list.old.items }
    ensures room { OnOk result (room ≤ vec_capacity list.new) }
    ensures kept { vec_capacity list.old ≤ vec_capacity list.new }
{
    let more = (room as usize).saturating_sub(list.len());
    match list.reserve_exact(more) {
        Ok(()) => Ok(()),
        Err(_) => Err(NoMemory),
    }
}

// Makes room in a list for so many in all, at least.
fn make_room(list: &mut Ended, room: u32) -> Result<(), NoMemory>
    ensures listed { listed_of list.new ≡ listed_of list.old }
    ensures room { OnOk result (room ≤ capacity_of list.new) }
    ensures kept { capacity_of list.old ≤ capacity_of list.new }
{
    match list {
        Ended::Puts(pointers) => room_for(pointers, room),
        Ended::Takes(numbers) => room_for(numbers, room),
    }
}

impl Opened {
    /// A transaction that has what is in this list, which has room for so many.
    pub fn new(list: Ended, room: u32) -> Opened
        requires { room ≤ capacity_of list }
        ensures { result ≡ record { listed = listed_of list; room = room } }
    {
        Opened { list, room }
    }

    /// Adds a put or a take. It takes no memory.
    pub fn add(&mut self, item: Item)
        requires { IsOf item self.old.listed × (size self.old.listed < self.old.room) }
        ensures { self.new ≡ record self.old { listed = with_item item self.old.listed } }
    {
        match (&mut self.list, item) {
            (Ended::Puts(pointers), Item::Put(pointer)) => pointers.push_reserved(pointer),
            (Ended::Takes(numbers), Item::Take(number)) => numbers.push_reserved(number),
            (Ended::Puts(_), Item::Take(_)) | (Ended::Takes(_), Item::Put(_)) => {}
        }
    }

    // How many puts or takes it has.
    fn len(&self) -> usize
        ensures { result ≡ size self.now.listed }
    {
        match &self.list {
            Ended::Puts(pointers) => pointers.len(),
            Ended::Takes(numbers) => numbers.len(),
        }
    }

    /// Makes room for as many again and one more, where its room is used up.
    pub fn widen(&mut self) -> Result<(), NoMemory>
        ensures wider { OnOk result (self.new ≡ wider self.old) }
        ensures same { OnErr result (self.new ≡ self.old) }
    {
        let len = self.len();
        if len < self.room as usize {
            return Ok(());
        }
        if len > MOST_WIDENED {
            return Err(NoMemory);
        }
        let room = 2 * len as u32 + 1;
        make_room(&mut self.list, room)?;
        self.room = room;
        Ok(())
    }

    /// Moves its pointers into a file at this offset or after it to another file.
    pub fn move_puts(&mut self, file: u32, at: u64, to_file: u32, to_at: u64)
        requires { MayMove file at to_at self.old.listed }
        ensures { self.new ≡ record self.old {
          listed = moved file at to_file to_at self.old.listed;
        } }
    {
        self.list.move_puts(file, at, to_file, to_at);
    }

    /// Whether it has puts.
    pub fn has_puts(&self) -> bool
        ensures { result ≡ is_puts self.now.listed }
    {
        matches!(self.list, Ended::Puts(_))
    }

    /// The places of its puts.
    pub fn puts(&self) -> &[Pointer]
        ensures { result.now ≡ puts_of self.now.listed }
    {
        match &self.list {
            Ended::Puts(pointers) => pointers,
            Ended::Takes(_) => &[],
        }
    }

    /// The numbers that it takes.
    pub fn takes(&self) -> &[u64]
        ensures { result.now ≡ takes_of self.now.listed }
    {
        match &self.list {
            Ended::Puts(_) => &[],
            Ended::Takes(numbers) => numbers,
        }
    }

    /// What it has.
    pub fn into_list(self) -> Ended
        ensures { listed_of result ≡ self.listed }
    {
        self.list
    }
}

// The most lists of a kind that are kept.
const MOST_KEPT: usize = 4;

/// Lists for puts and for takes. What they hold counts for nothing: each is emptied before it is handed out.
#[derive(Drop)]
pub struct Spare {
    puts: Vec<Vec<Pointer>>,
    takes: Vec<Vec<u64>>,
}

// A list that has nothing, with room for so many: one of those that are kept, or a new one.
fn list_from<T: Drop>(alloc: Global, kept: &mut Vec<Vec<T>>, room: u32) -> Result<Vec<T>, NoMemory>
    ensures empty { IfOk result (λ list. list.items ≡ []) }
    ensures room { IfOk result (λ list. room ≤ vec_capacity list) }
{
    let mut list = match kept.pop() {
        Some(list) => list,
        None => Vec::new(alloc),
    };
    list.clear();
    room_for(&mut list, room)?;
    Ok(list)
}

// Keeps a list where there is a place for it.
fn keep_in<T: Drop>(kept: &mut Vec<Vec<T>>, list: Vec<T>) {
    if kept.len() < MOST_KEPT && kept.len() < kept.capacity() {
        kept.push_reserved(list);
    }
}

impl Spare {
    /// No list yet, and places for four of each kind.
    pub fn new(alloc: Global) -> Result<Spare, NoMemory> {
        Ok(Spare {
            puts: Vec::with_capacity(alloc, MOST_KEPT)?,
            takes: Vec::with_capacity(alloc, MOST_KEPT)?,
        })
    }

    /// A list for puts, or for takes, that has nothing, with room for so many. Only where none is kept, or that one's room is
    /// less, does it take memory.
    pub fn list(&mut self, alloc: Global, puts: bool, room: u32) -> Result<Ended, NoMemory>
        ensures begun { IfOk result (λ list. listed_of list ≡ (begun puts room).listed) }
        ensures room { IfOk result (λ list. room ≤ capacity_of list) }
    {
        if puts {
            Ok(Ended::Puts(list_from(alloc, &mut self.puts, room)?))
        } else {
            Ok(Ended::Takes(list_from(alloc, &mut self.takes, room)?))
        }
    }

    /// Keeps a list for one of its kind that begins, unless four are kept. It takes no memory.
    pub fn keep(&mut self, list: Ended) {
        match list {
            Ended::Puts(pointers) => keep_in(&mut self.puts, pointers),
            Ended::Takes(numbers) => keep_in(&mut self.takes, numbers),
        }
    }
}
