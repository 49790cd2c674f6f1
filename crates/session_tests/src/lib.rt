//! Tests of sessions on links in memory: what is written for the lines or the Avro messages that a link gives, how a session
//! ends, and what the channels then hold; and of deliveries to another agent. Most are scenarios, lines of a text.
#![tactic(auto)]

#[cfg(test)]
mod channels;
#[cfg(test)]
mod deliveries;
#[cfg(test)]
mod lines;
#[cfg(test)]
mod messages;
#[cfg(test)]
mod packs;
#[cfg(test)]
mod script;
#[cfg(test)]
mod sessions;
