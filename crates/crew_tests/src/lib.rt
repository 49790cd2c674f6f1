//! Tests of workers: that those in a row run beside each other, that a pause is made in pieces and ends at the stop, that a
//! look at the stop finds it once it is set, that a drained input sets it, which runs a sink's worker makes until then, when the
//! worker of a channel on a disk lays checkpoints, which links a listener's worker serves, and what a worker of lines answers and
//! mends. Tests of the end of a run: that a sink empties its channel, what of a report is written, and the exit status.
#![tactic(auto)]

#[cfg(test)]
mod clock;
#[cfg(test)]
mod drains;
#[cfg(test)]
mod ends;
#[cfg(test)]
mod face;
#[cfg(test)]
mod keepers;
#[cfg(test)]
mod lines;
#[cfg(test)]
mod listeners;
#[cfg(test)]
mod pauses;
#[cfg(test)]
mod ports;
#[cfg(test)]
mod rows;
#[cfg(test)]
mod sinks;
