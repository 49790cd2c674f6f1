//! Tests of the world of agents: the delivery accounting as a plain program, over the worked steps, over random ones, and over
//! pictures of worlds that are wrong.
#![tactic(auto)]

#[cfg(test)]
mod accounting;
#[cfg(test)]
mod drawing;
#[cfg(test)]
mod letters;
#[cfg(test)]
mod picture;
#[cfg(test)]
mod random;
#[cfg(test)]
mod setting;
#[cfg(test)]
mod worked;
#[cfg(test)]
mod wrong;
