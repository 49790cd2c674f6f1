// The table of open transactions.
use open_table::{Ended, Item, OpenTable, TableRefused};
use record_form::Pointer;
use std::alloc::Global;
use std::process::Abort;
use std::test::Fail;

const FIRST: Pointer = Pointer {
    file: 1,
    at: 30,
    length: 12,
};

const SECOND: Pointer = Pointer {
    file: 1,
    at: 80,
    length: 9,
};

// Transaction 7 has two puts, and transaction 3 one take.
fn two_open(alloc: Global) -> Result<OpenTable, TableRefused> {
    let Ok(mut table) = OpenTable::new(alloc) else {
        return Err(TableRefused::NoMemory);
    };
    table.begin(7, true, 2)?;
    table.begin(3, false, 1)?;
    table.add(7, Item::Put(FIRST));
    table.add(3, Item::Take(0));
    table.add(7, Item::Put(SECOND));
    Ok(table)
}

// Whether the transaction is open with these puts and takes.
fn has(table: &OpenTable, txn: u64, puts: &[Pointer], takes: &[u64]) -> bool {
    if !table.has(txn, true) && !table.has(txn, false) {
        return false;
    }
    table.puts(txn) == puts && table.takes(txn) == takes
}

// Ends a transaction, and says whether it was open with these takes.
fn ends(table: &mut OpenTable, txn: u64, takes: &[u64]) -> bool {
    if !table.has(txn, false) {
        return false;
    }
    match table.end(txn) {
        Ended::Takes(numbers) => numbers.as_slice() == takes,
        Ended::Puts(_pointers) => false,
    }
}

// A transaction is open as one of puts or of takes.
fn look_at_kinds(rt: &impl Abort, table: &OpenTable) {
    assert!(rt; table.has(7, true) && !table.has(7, false));
    assert!(rt; !table.has(8, true));
}

// The least open transaction, and those above others.
fn look_at_order(rt: &impl Abort, table: &OpenTable) {
    assert!(rt; table.next_txn(None) == Some(3));
    assert!(rt; table.next_txn(Some(3)) == Some(7));
    assert!(rt; table.next_txn(Some(7)).is_none());
}

fn is_empty(alloc: Global) -> bool {
    OpenTable::new(alloc).is_ok_and(|table| table.next_txn(None).is_none())
}

#[test]
fn a_transaction_has_its_own_list(rt: HostRuntime) -> Result<(), Fail> {
    assert!(rt; is_empty(rt.alloc()));
    let mut table = two_open(rt.alloc())?;
    look_at_kinds(&rt, &table);
    assert!(rt; has(&table, 7, &[FIRST, SECOND], &[]));
    assert!(rt; has(&table, 3, &[], &[0]));
    look_at_order(&rt, &table);
    assert!(rt; ends(&mut table, 3, &[0]));
    assert!(rt; !table.has(3, false) && table.next_txn(None) == Some(7));
    Ok(())
}

// Of the puts of file 1, those from offset 31 on are moved.
fn are_moved(alloc: Global) -> Option<bool> {
    let mut table = OpenTable::new(alloc).ok()?;
    table.begin(1, true, 2).ok()?;
    table.add(1, Item::Put(FIRST));
    table.add(1, Item::Put(SECOND));
    table.moved(2, 0, 3, 0);
    let stay = has(&table, 1, &[FIRST, SECOND], &[]);
    table.moved(1, 31, 2, 16);
    let moved = Pointer {
        file: 2,
        at: 65,
        length: 9,
    };
    Some(stay && has(&table, 1, &[FIRST, moved], &[]))
}

#[test]
fn puts_from_an_offset_on_are_moved(rt: HostRuntime) {
    assert!(rt; are_moved(rt.alloc()) == Some(true));
}

// A table with so many open transactions.
fn many_open(alloc: Global, count: u64) -> Option<OpenTable> {
    let mut table = OpenTable::new(alloc).ok()?;
    for txn in 0..count {
        if !table.has(txn, true) && !table.has(txn, false) {
            table.begin(txn, true, 0).ok()?;
        }
    }
    Some(table)
}

// Whether no further transaction can be begun.
fn is_full(alloc: Global) -> Option<bool> {
    let mut table = many_open(alloc, 1024)?;
    if table.has(1024, true) || table.has(1024, false) {
        return None;
    }
    Some(table.begin(1024, true, 0) == Err(TableRefused::TooManyOpen))
}

#[test]
fn so_many_are_open_at_most(rt: HostRuntime) {
    assert!(rt; is_full(rt.alloc()) == Some(true));
}
