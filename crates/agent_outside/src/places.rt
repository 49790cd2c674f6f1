// The places of the sources that listen.
ghost use Rattle.std.specs.Prelude.{◌≡◌, ◌++◌, All, IfOk, OnOk, replicate};
ghost use Rattle.agent_outside.specs.Ends.{ListensAt, listeners_by, listeners_of, places};

use agent_plan::{SourceKind, SourcePlan};
use plan_objects::asks_for_object;
use std::alloc::{AllocError, Global};

// How many listeners a source of this kind has, where it may have one only or more.
fn listeners_by(one: bool, kind: &SourceKind) -> u32
    ensures { result ≡ listeners_by one kind.now }
{
    match kind {
        SourceKind::Netcat {
            bind: _,
            port: _,
            max_line: _,
            ack: _,
            threads,
        } => if one { 1 } else { *threads },
        SourceKind::Avro {
            bind: _,
            port: _,
            threads,
        } => if one { 1 } else { *threads },
        SourceKind::Stdin { .. } => 0,
    }
}

/// How many listeners a source has: one for each of its session workers. Where an interceptor was handed in, it has one.
pub fn listeners_of(source: &SourcePlan) -> u32
    ensures { result ≡ listeners_of source.now }
{
    listeners_by(asks_for_object(source), &source.kind)
}

// Adds a place so often.
fn add_places(found: &mut Vec<usize>, place: usize, count: u32) -> Result<(), AllocError>
    ensures { OnOk result (found.new.items ≡ found.old.items ++ replicate count place) }
{
    for _turn in 0..count {
        found.push(place)?;
    }
    Ok(())
}

/// The place of the source of each listener, in order: that of each source, from 0, as often as it has listeners.
pub fn listening_places(alloc: Global, sources: &[SourcePlan]) -> Result<Vec<usize>, AllocError>
    ensures order { IfOk result (λ found. found.items ≡ places 0 sources.now) }
    ensures listen { IfOk result (λ found. All (ListensAt sources.now) found.items) }
{
    let mut found = Vec::new(alloc);
    for (place, source) in sources.iter().enumerate() {
        add_places(&mut found, place, listeners_of(source))?;
    }
    Ok(found)
}
