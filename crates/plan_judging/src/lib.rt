//! What is at fault in the configuration of an agent, by the table of components: its lines, its required keys and what it claims.
#![tactic(auto)]

mod channel;
mod claims;
mod findings;
mod group;
mod interceptor;
mod judging;
mod rules;
mod selecting;
mod sink;
mod source;
mod values;

pub use claims::plugin_name;
pub use findings::{Fault, FaultKind, Findings};
pub use group::{Agent, front_of, names_at, names_in};
pub use judging::judge;
pub use rules::{Place, is_host, is_millis, is_plugin, is_timestamp, is_type, joined, value_at};
pub use values::{number, once, push_listed, truth, words};
