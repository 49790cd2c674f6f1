//! The netcat source: how a text is cut into lines in whatever pieces it comes, what is replied to each, and sessions on a
//! link, whose lines are put into the channels and answered.
#![tactic(auto)]

mod laws;
mod lines;
mod session;
mod worker;

pub use laws::{one_cut, pieces_cut};
pub use lines::{Cut, LineVerdict, Lines, TOO_LONG_REPLY, batch_of, reply_to, said_of, take_line};
pub use session::{LineRules, SessionEnd, serve_netcat};
pub use worker::serve_link;
