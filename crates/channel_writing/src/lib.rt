//! What a channel writes of its changes: the records of its log, and what a crash leaves of them.
#![tactic(auto)]

mod folder;
mod laws;
mod writing;

pub use folder::{last_log, of_opening};
pub use laws::{
    a_begin_is_mirrored, a_checkpoint_is_mirrored, a_flush_is_logged, a_flush_is_mirrored,
    a_flush_recovers, a_laid_log_goes_on, a_laid_log_is_the_channels, a_put_is_mirrored,
    a_rollback_is_mirrored, a_staged_put_is_mirrored, a_staged_take_is_mirrored,
    a_take_is_mirrored, an_end_is_mirrored, frames_recover, starts_leave_the_same,
};
pub use writing::Writing;
