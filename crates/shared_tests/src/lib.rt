//! Tests of channels that threads share: what comes back of many calls, staged transactions that one flush settles, passes,
//! and a call that a lost disk refuses.
#![tactic(auto)]

#[cfg(test)]
mod held;
#[cfg(test)]
mod in_memory;
#[cfg(test)]
mod intakes;
#[cfg(test)]
mod many;
#[cfg(test)]
mod mended;
#[cfg(test)]
mod rows;
#[cfg(test)]
mod sharing;
#[cfg(test)]
mod staged;
#[cfg(test)]
mod work;
