// What one thread does with a channel: it puts and takes by turns, through a port.
ghost use Rattle.std.specs.Prelude.{◌≡◌, IfOk, length};

use channel_face::{Channel, FaceRefused, PutFace, TakeFace};
use event_core::{Batch, Event, EventRefused};
use shared_channel::{Pass, Port, Shared};
use std::alloc::Global;
use std::sync::Wait;
use test_fixtures::{event, one};

/// What was done through a pass: the numbers in the bodies that were put, and in those that were taken for good.
#[derive(Drop)]
pub struct Work {
    pub pass: Pass,
    pub put: Vec<u64>,
    pub taken: Vec<u64>,
}

/// The number in a body.
pub fn number_in(event: &Event) -> u64 {
    let mut number = 0u64;
    for byte in event.body() {
        number = number.wrapping_mul(256).wrapping_add(u64::from(*byte));
    }
    number
}

/// A batch of one event with this number.
pub fn batch_of(alloc: Global, number: u64) -> Result<Batch, EventRefused>
    ensures { IfOk result (λ batch. length batch ≡ 1) }
{
    Ok(one(alloc, event(alloc, &number.to_be_bytes())?)?)
}

// Puts an event with this number, and tells whether it was taken.
fn is_put<C: Channel, R: Wait>(alloc: Global, port: &mut Port<'_, R, C>, number: u64) -> bool
    ensures { port.new.pass.table_id ≡ port.old.pass.table_id }
{
    match batch_of(alloc, number) {
        Ok(batch) => port.put_batch(&batch, &[0]).is_ok(),
        Err(_) => false,
    }
}

// The number in an event that was given.
fn number_given(given: Result<Option<Event>, FaceRefused>) -> Option<u64> {
    match given {
        Ok(Some(event)) => Some(number_in(&event)),
        _ => None,
    }
}

// Takes an event, if one is left, for good or not. The number of one that was taken for good.
fn take_one<C: Channel, R: Wait>(port: &mut Port<'_, R, C>, stays: bool) -> Option<u64>
    ensures { port.new.pass.table_id ≡ port.old.pass.table_id }
{
    let Ok(mut txn) = port.begin() else {
        return None;
    };
    let number = number_given(port.take(&mut txn));
    if stays {
        port.rollback(txn);
        None
    } else if port.commit(txn).is_ok() {
        number
    } else {
        None
    }
}

// Puts an event with this number, and then takes one, for good or not.
fn put_then_take<C: Channel, R: Wait>(
    alloc: Global,
    port: &mut Port<'_, R, C>,
    number: u64,
    stays: bool,
    put: &mut Vec<u64>,
    taken: &mut Vec<u64>,
)
    ensures { port.new.pass.table_id ≡ port.old.pass.table_id }
{
    if is_put(alloc, port, number) {
        let _ = put.push(number);
    }
    if let Some(found) = take_one(port, stays) {
        let _ = taken.push(found);
    }
}

/// Puts so many events, whose numbers begin with this one, and takes after each; each third one is given back.
pub fn put_and_take<C: Channel, R: Wait>(
    rt: &R,
    alloc: Global,
    shared: &Shared<C>,
    pass: Pass,
    first: u64,
    events: u32,
) -> Work
    requires { pass.table_id ≡ shared.now.turn.table.shared.table_id }
    ensures { result.pass.table_id ≡ pass.table_id }
{
    let mut put = Vec::new(alloc);
    let mut taken = Vec::new(alloc);
    let mut port = Port::new(rt, shared, pass);
    for i in 0..events {
        let number = first.wrapping_add(u64::from(i));
        put_then_take(alloc, &mut port, number, i % 3 == 0, &mut put, &mut taken);
    }
    Work {
        pass: port.give_back(),
        put,
        taken,
    }
}
