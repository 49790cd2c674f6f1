//! Tests of what channels are made of: events, records, pointers, rings, places and log files, with what cut and changed bytes leave.
//! Most are scenarios, lines of a text.
#![tactic(auto)]

#[cfg(test)]
mod cases;
#[cfg(test)]
mod damaged;
#[cfg(test)]
mod events;
#[cfg(test)]
mod frames;
#[cfg(test)]
mod logs;
#[cfg(test)]
mod open_transactions;
#[cfg(test)]
mod places;
#[cfg(test)]
mod pointers;
#[cfg(test)]
mod reading;
#[cfg(test)]
mod records;
#[cfg(test)]
mod ring;
#[cfg(test)]
mod slow;
#[cfg(test)]
mod torn;
