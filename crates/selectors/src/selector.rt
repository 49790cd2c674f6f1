// Which channels of a source an event goes to.
ghost use Rattle.std.specs.Prelude.{◌≡◌, IfOk};
ghost use Rattle.selectors.specs.Choices.{required, optional};

use crate::choice::{below, copied, kept, mapped};
use event_core::{Headers, NoMemory};
use std::alloc::Global;

/// How the channels of an event are chosen (Flume User Guide, "Flume Channel Selectors"). Channels are named by their places
/// among the channels of the source, from 0. Of two equal values the first counts.
#[derive(Debug, Drop)]
pub enum Selector {
    /// Every channel gets every event.
    Replicating {
        /// How many channels the source has.
        channels: u32,
        /// The channels that may miss it.
        optional: Vec<u32>,
    },
    /// The value of a header tells.
    Multiplexing {
        /// The header's key.
        header: String,
        /// The channels of each value.
        mapping: Vec<(String, Vec<u32>)>,
        /// The channels of any other value, and of an event without the header.
        default: Vec<u32>,
        /// The channels of each value that may miss the event.
        optional: Vec<(String, Vec<u32>)>,
    },
}

/// The channels of one event.
#[derive(Debug, Drop, PartialEq, Eq)]
pub struct Choice {
    /// The channels that have to take it.
    pub required: Vec<u32>,
    /// The channels that may miss it. None of them is required.
    pub optional: Vec<u32>,
}

/// The channels of an event with these headers.
pub fn select(alloc: Global, selector: &Selector, headers: &Headers) -> Result<Choice, NoMemory>
    ensures required { IfOk result (λ choice. choice.required.items ≡ required selector.now
        headers.now) }
    ensures optional { IfOk result (λ choice. choice.optional.items ≡ optional selector.now
        headers.now) }
{
    match selector {
        Selector::Replicating { channels, optional } => {
            let required = below(alloc, *channels, optional)?;
            let optional = kept(alloc, optional, &required)?;
            Ok(Choice { required, optional })
        }
        Selector::Multiplexing {
            header,
            mapping,
            default,
            optional,
        } => {
            let value = headers.get(header.as_str());
            let mapped_to = mapped(mapping, value);
            let required = if mapped_to.is_empty() {
                default
            } else {
                mapped_to
            };
            let optional = kept(alloc, mapped(optional, value), required)?;
            let required = copied(alloc, required)?;
            Ok(Choice { required, optional })
        }
    }
}
