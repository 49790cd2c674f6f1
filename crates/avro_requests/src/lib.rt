//! What all deliveries of an Avro sink come to on the links of its dialer.
#![tactic(auto)]

mod laws;

pub use laws::requests_are_on_links;
