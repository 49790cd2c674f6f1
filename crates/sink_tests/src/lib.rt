//! Tests of sinks: groups of them, turns, rolled files with failing calls, and objects that are handed in. Most are scenarios, lines
//! of a text.
#![tactic(auto)]

#[cfg(test)]
mod groups;
#[cfg(test)]
mod plugins;
#[cfg(test)]
mod rolled_files;
#[cfg(test)]
mod schedules;
#[cfg(test)]
mod sinks;
#[cfg(test)]
mod turns;
