//! Tests of sources: steps over headers and patterns, selectors, and what batches become in channels in memory and on a disk. Most
//! are scenarios, lines of a text.
#![tactic(auto)]

#[cfg(test)]
mod batches;
#[cfg(test)]
mod choices;
#[cfg(test)]
mod events;
#[cfg(test)]
mod intakes;
#[cfg(test)]
mod links;
#[cfg(test)]
mod passing;
#[cfg(test)]
mod patterns;
#[cfg(test)]
mod setup;
#[cfg(test)]
mod steps;
