//! What a folder of log files stands for: its records applied in order.
#![tactic(auto)]

mod folder;
mod items;
mod laws;
mod line;
mod open;
mod plain;
mod recovery;
mod refused;
mod start_laws;
mod whole;

pub use folder::replay;
pub use laws::{no_fault_where_it_recovers, one_fault, one_list, recovers_once};
pub use line::Line;
pub use plain::{WholeFile, recover};
pub use recovery::{Next, Replayed};
pub use refused::{RecoverRefused, ReplayRefused, of_frame, of_record};
pub use start_laws::{
    a_fault_is_one_for_both, a_new_life_agrees, following_goes_on, starts_agree,
    what_is_laid_follows,
};
