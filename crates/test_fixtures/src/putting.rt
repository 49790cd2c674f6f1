// A put of one event.
use channel_face::{Channel, CommitRefused, StageRefused};
use event_core::Event;

/// Puts an event as a transaction of its own, and answers whether it is put and committed. Where the put is refused, the empty
/// transaction is committed; where the commit is, it is rolled back.
pub fn put<C: Channel>(channel: &mut C, event: &Event) -> bool {
    let Ok(mut txn) = channel.begin_put() else {
        return false;
    };
    let is_put = channel.put(&mut txn, event).is_ok();
    match channel.commit_put(txn) {
        Ok(_ticket) => is_put,
        Err(CommitRefused::Stage(StageRefused { txn, cause: _ })) => {
            let _ended = channel.rollback_put(txn);
            false
        }
        Err(CommitRefused::InDoubt) => false,
    }
}
