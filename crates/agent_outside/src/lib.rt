//! What a run of an agent opens outside its channels, in order, and how all of it is given back: the folders of its sinks and
//! the listeners of its sources. Interceptors are told the names of the host.
#![tactic(auto)]

mod give;
mod listener;
mod listeners;
mod names;
mod places;
mod sinks;

pub use give::{give_back_listeners, give_back_sinks};
pub use listener::SourceListener;
pub use listeners::open_listeners;
pub use names::{hosts_are_right, names_of, source_names};
pub use places::{listeners_of, listening_places};
pub use sinks::open_sinks;
