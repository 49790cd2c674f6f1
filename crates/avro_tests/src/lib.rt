//! Tests of Avro: packs, values, handshakes and calls, protocol texts, and a dialogue from packs to replies.
#![tactic(auto)]

#[cfg(test)]
mod avro_values;
#[cfg(test)]
mod dialogue;
#[cfg(test)]
mod handshakes;
#[cfg(test)]
mod packs;
#[cfg(test)]
mod protocol_texts;
