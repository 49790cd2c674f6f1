//! What a folder recovers to from its newest checkpoint: where its log is read from, and which lines stand there.
#![tactic(auto)]

mod laws;

pub use laws::{
    a_folder_reads_on, front_elsewhere, front_is_bad, front_recovers, laying_changes_nothing,
    one_newest, one_reading, open_is_newest, passed_is_not_newest, pruning_changes_nothing,
    serves_elsewhere, some_reading,
};
