//! Laws of an agent's plan: what its components name is there.
#![tactic(auto)]

mod laws;

pub use laws::{
    groups_name_what_is_there, numbers_are_limited, sinks_name_what_is_there, sinks_stand_once,
    sources_name_what_is_there,
};
