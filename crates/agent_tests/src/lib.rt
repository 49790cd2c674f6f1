//! Tests of the top call over a host in memory: the worked examples of the format and of the dialogue, failing objects,
//! folders that were written before, and runs of agents. Each is a scenario, which `agent_scenes` reads line by line.
#![tactic(auto)]

#[cfg(test)]
mod avro;
#[cfg(test)]
mod beside;
#[cfg(test)]
mod calls;
#[cfg(test)]
mod check;
#[cfg(test)]
mod ends;
#[cfg(test)]
mod groups;
#[cfg(test)]
mod handed;
#[cfg(test)]
mod keeps;
#[cfg(test)]
mod lines;
#[cfg(test)]
mod load;
#[cfg(test)]
mod mended;
#[cfg(test)]
mod objects;
#[cfg(test)]
mod openings;
#[cfg(test)]
mod pipe;
#[cfg(test)]
mod rolls;
#[cfg(test)]
mod running;
#[cfg(test)]
mod sessions;
#[cfg(test)]
mod shared;
#[cfg(test)]
mod written;
