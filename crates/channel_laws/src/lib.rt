//! Laws of channels: what the answer to a ticket, to a whole transaction and to a port's says of the journal. Its functions do
//! nothing: each states a law.
#![tactic(auto)]

mod fronts;
mod images;
mod ports;
mod rows;
mod tickets;

pub use fronts::{
    batch_is_of_the_end, commit_is_of_the_end, put_stays_in_journal, rollback_is_of_the_end,
    taken_stays_in_journal,
};
pub use images::{close_channel, counted_calls_leave};
pub use ports::{port_answered_is_in_journal, port_committed_is_in_journal};
pub use rows::{one_is_taken, two_batches_and_one_flush, two_ports_and_one_flush};
pub use tickets::{
    answered_is_in_journal, committed_is_in_journal, own_answered_is_in_journal,
    own_committed_is_in_journal, settled_is_in_journal, settling_settles, stays_settled,
    tickets_number_puts, unsettled_is_staged,
};
