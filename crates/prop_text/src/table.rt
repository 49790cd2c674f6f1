//! The pairs of a text that count, and the reading of a whole text.

ghost use Rattle.std.specs.Prelude.{◌≡◌, ◌<◌, ◌≤◌, ◌+◌, ◌^◌, ◌==◌, List, length, filter, nat_lt, string_bytes, None, Some, MatchOption, OnOk, OnErr, slice_get};
ghost use Rattle.std.specs.Result.{result_map_both};
ghost use Rattle.prop_text.specs.Winners.{lookup, has_value};
ghost use Rattle.prop_text.specs.Reads.{Reads, Wins};
ghost use Rattle.prop_text.specs.Table.{entry_pair, pairs_in, put};
ghost use Rattle.prop_text.specs.Views.{views};

use crate::fault::PropRefused;
use crate::lines::{LogicalLine, logical_lines, natural_lines};
use crate::pairs::pair_of;
use crate::utf8::text_of;
use indexmap::IndexMap;
use std::alloc::{AllocFailed, Global};
use std::marker::Model;

/// The value of a key, and the line that it stands on.
#[derive(Drop)]
struct Entry {
    value: String,
    line: u32,
}

/// The pairs of a text that count: of equal keys the last, unless its value is empty. A contract sees them as a list of pairs,
/// in the order in which the keys first stand in the text.
#[derive(Drop)]
pub struct Properties {
    table: IndexMap<String, Entry>,
}

impl Model for Properties {
    ghost use Rattle.std.specs.Prelude.{List};
    ghost use Rattle.prop_text.specs.Pairs.{Pair};
    ghost use Rattle.prop_text.specs.Table.{pairs_in};

    ghost Value = { List Pair };

    ghost view = { λ p. pairs_in p.table.entries };
}

impl Properties {
    /// The value of a key, and the number of the line that it stands on.
    pub fn get(&self, key: &str) -> Option<(&str, u32)>
        ensures { MatchOption result (lookup key.now self.now ≡ None)
            (λ found. lookup key.now self.now
            ≡ Some (record { key = key.now; value = found.0.now; line = found.1 })) }
    {
        let entry = self.table.get(key)?;
        Some((entry.value.as_str(), entry.line))
    }

    /// How many keys there are.
    pub fn len(&self) -> usize
        ensures { result ≡ length self.now }
    {
        self.table.len()
    }

    /// Whether there is no key.
    pub fn is_empty(&self) -> bool
        ensures { result ≡ (length self.now == 0) }
    {
        self.table.len() == 0
    }

    /// The key, the value and the line at a place, from 0 and in the order in which the keys first stand.
    pub fn at(&self, place: usize) -> (&str, &str, u32)
        requires { place < length self.now }
        ensures { slice_get self.now place ≡ Some
            (record { key = result.0.now; value = result.1.now; line = result.2 }) }
    {
        let Some((key, entry)) = self.table.get_index(place) else {
            unreachable!()
        };
        (key.as_str(), entry.value.as_str(), entry.line)
    }
}

/// Lets the pair of a line count for its key.
fn put(
    table: &mut IndexMap<String, Entry>,
    key: String,
    entry: Entry,
) -> Result<(), AllocFailed<(String, Entry)>>
    ensures { OnOk result (pairs_in table.new.entries
        ≡ put (entry_pair (key, entry)) (pairs_in table.old.entries)) }
{
    table.insert(key, entry)?;
    Ok(())
}

/// The last pair of each key.
fn winners(alloc: Global, lines: &[LogicalLine]) -> Result<IndexMap<String, Entry>, PropRefused>
    ensures { Wins (views lines.now) (result_map_both (λ table. pairs_in table.entries)
        (λ refused. refused) result) }
{
    let mut table = IndexMap::new(alloc);
    for line in lines {
        let pair = pair_of(alloc, line)?;
        let entry = Entry {
            value: pair.value,
            line: line.number,
        };
        put(&mut table, pair.key, entry)?;
    }
    Ok(table)
}

/// Leaves out the keys whose value is empty.
fn keep_values(table: &mut IndexMap<String, Entry>)
    ensures { pairs_in table.new.entries ≡ filter has_value (pairs_in table.old.entries) }
{
    table.retain(
        |_key: &String, entry: &mut Entry| -> bool
            ensures { (result ≡ nat_lt 0 (length (string_bytes entry.old.value)))
                × (entry.new ≡ entry.old) }
        { !entry.value.is_empty() },
    );
}

/// The properties of a text, or its first fault: where it is no UTF-8, and otherwise the first bad escape by line.
/// The syntax is that of `java.util.Properties`, in which the Flume User Guide has configuration files written, and values are
/// trimmed. Out of memory is the answer too where the text is longer than 4,294,967,294 bytes, so that a line has a number.
pub fn read_properties(alloc: Global, bytes: &[u8]) -> Result<Properties, PropRefused>
    ensures { Reads bytes.now result }
{
    let text = text_of(bytes)?;
    if u32::MAX as usize <= bytes.len() {
        return Err(PropRefused::NoMemory);
    }
    let natural = natural_lines(alloc, text)?;
    let logical = logical_lines(alloc, natural.as_slice())?;
    let mut table = winners(alloc, logical.as_slice())?;
    keep_values(&mut table);
    Ok(Properties { table })
}
