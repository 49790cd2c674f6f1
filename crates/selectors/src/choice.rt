// Lists of channels by their places.
ghost use Rattle.std.specs.Prelude.{◌≡◌, ◌++◌, ◌∷◌, [], IfOk, OnOk, option_copied};
ghost use Rattle.event_core.specs.Journal.{is_among};
ghost use Rattle.selectors.specs.Choices.{without, places_below, mapped};

use event_core::NoMemory;
use std::alloc::Global;

/// Whether a place is among these.
pub fn is_among(places: &[u32], place: u32) -> bool
    ensures { result ≡ is_among places.now place }
{
    for i in 0..places.len() {
        if places[i] == place {
            return true;
        }
    }
    false
}

// Adds a place, unless it is among the others.
fn add(kept: &mut Vec<u32>, others: &[u32], place: u32) -> Result<(), NoMemory>
    ensures { OnOk result (kept.new.items ≡ kept.old.items ++ without others.now (place ∷ [])) }
{
    if !is_among(others, place) {
        kept.push(place)?;
    }
    Ok(())
}

/// The places without the others.
pub fn kept(alloc: Global, places: &[u32], others: &[u32]) -> Result<Vec<u32>, NoMemory>
    ensures { IfOk result (λ kept. kept.items ≡ without others.now places.now) }
{
    let mut kept = Vec::new(alloc);
    for i in 0..places.len() {
        add(&mut kept, others, places[i])?;
    }
    Ok(kept)
}

/// The places below a number, without the others.
pub fn below(alloc: Global, end: u32, others: &[u32]) -> Result<Vec<u32>, NoMemory>
    ensures { IfOk result (λ kept. kept.items ≡ without others.now (places_below end)) }
{
    let mut kept = Vec::new(alloc);
    for place in 0..end {
        add(&mut kept, others, place)?;
    }
    Ok(kept)
}

/// The same places once more.
pub fn copied(alloc: Global, places: &[u32]) -> Result<Vec<u32>, NoMemory>
    ensures { IfOk result (λ copy. copy.items ≡ places.now) }
{
    Ok(places.to_vec(alloc)?)
}

/// The places of a value, of which there are none without one.
pub fn mapped<'a>(pairs: &'a [(String, Vec<u32>)], value: Option<&str>) -> &'a [u32]
    ensures { result.now ≡ mapped pairs.now (option_copied value.entry) }
{
    let Some(value) = value else {
        return &[];
    };
    for i in 0..pairs.len() {
        let (key, places) = &pairs[i];
        if key.as_str() == value {
            return places;
        }
    }
    &[]
}
