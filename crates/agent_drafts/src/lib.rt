//! What a run of an agent makes of its plan before anything is opened: a draft for each session worker of a source, which holds all that
//! the worker needs of the plan, and the interceptors that were handed in for it.
#![tactic(auto)]

mod copies;
mod draft;
mod drafting;
mod laws;
mod links;

pub use draft::{Drafts, SourceDraft};
pub use drafting::draft_sources;
pub use laws::{chains_are_as_planned, copies_do_the_same, drafts_can_serve};
