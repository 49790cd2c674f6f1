//! Tests of what is read: properties texts, plans of whole configurations, and words of command lines with their reports.
#![tactic(auto)]

#[cfg(test)]
mod command_words;
#[cfg(test)]
mod plans;
#[cfg(test)]
mod properties;
#[cfg(test)]
mod steps;
