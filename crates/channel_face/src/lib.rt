//! What a channel is to its callers: tokens of open transactions, replies, refusals, and the traits.
#![tactic(auto)]

mod channel;
mod face;
mod keep_face;
mod laws;
mod mend_face;
mod own_face;
mod replies;
mod tokens;

pub use channel::{Channel, Durable, Reopen};
pub use face::{Face, PutFace, TakeFace};
pub use keep_face::KeepFace;
pub use laws::{
    commits_are_well_formed, count_stays_within, counts_one_call, numbers_rise, stands_for_journal,
    takes_least,
};
pub use mend_face::{MendFace, mend};
pub use own_face::OwnFace;
pub use replies::{
    BeginRefused, CheckRefused, CommitRefused, Counter, Counts, FaceRefused, FlushRefused, Kind,
    Limits, OpenCause, PruneRefused, Put, PutRefused, Settled, StageCause, StageRefused,
    TakeRefused, Taken, Ticket,
};
pub use tokens::{OfPuts, OfTakes, PutTxn, TakeTxn, Txn};
