//! Tests of channels: what each kind of channel answers, and what a crash and a failed disk leave. Most are scenarios, lines
//! of a text.
#![tactic(auto)]

#[cfg(test)]
mod calls;
#[cfg(test)]
mod checkpoints;
#[cfg(test)]
mod crashes;
#[cfg(test)]
mod faults;
#[cfg(test)]
mod folders;
#[cfg(test)]
mod laying;
#[cfg(test)]
mod mending;
#[cfg(test)]
mod pruning;
#[cfg(test)]
mod scene;
#[cfg(test)]
mod turns;
