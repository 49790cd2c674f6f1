//! Tests of hosts: which calls of the objects in memory fail, and what the real host does with real files, streams and links.
#![tactic(auto)]

#[cfg(test)]
mod devices_in_memory;
#[cfg(test)]
mod links_in_memory;
#[cfg(test)]
mod real_host;
#[cfg(test)]
mod real_links;
