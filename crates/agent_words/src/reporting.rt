//! The report of a run's channels.

ghost use Rattle.std.specs.Prelude.{◌≡◌, ◌++◌, codes, IfOk, OnOk, string_bytes};
ghost use Rattle.serde_json.specs.Data.{put};
ghost use Rattle.serde_json.specs.View.{view, members_view};
ghost use Rattle.agent_words.specs.Report.{counters, report_text};

use channel_face::Counts;
use event_core::NoMemory;
use serde_json::{Map, Value, json};
use std::alloc::{AllocError, Global};

/// The counts of a channel, by the names that Flume gives them.
fn counters(alloc: Global, counts: &Counts) -> Result<Value, AllocError>
    ensures { IfOk result (λ value. view value ≡ counters counts.now) }
{
    let capacity = counts.capacity.to_string(alloc)?;
    let size = counts.size.to_string(alloc)?;
    let put_attempts = counts.put_attempts.to_string(alloc)?;
    let put_successes = counts.put_successes.to_string(alloc)?;
    let take_attempts = counts.take_attempts.to_string(alloc)?;
    let take_successes = counts.take_successes.to_string(alloc)?;
    json!(in alloc; {
        "ChannelCapacity": capacity.as_str(),
        "ChannelSize": size.as_str(),
        "EventPutAttemptCount": put_attempts.as_str(),
        "EventPutSuccessCount": put_successes.as_str(),
        "EventTakeAttemptCount": take_attempts.as_str(),
        "EventTakeSuccessCount": take_successes.as_str()
    })
}

/// Adds the counts of a channel to the report.
fn add(
    alloc: Global,
    members: &mut Map<String, Value>,
    name: &str,
    counts: &Counts,
) -> Result<(), NoMemory>
    ensures { OnOk result (members_view members.new.entries ≡ put (codes "CHANNEL." ++ name.now)
        (counters counts.now) (members_view members.old.entries)) }
{
    let key = format!(in alloc; "CHANNEL.{name}")?;
    let value = counters(alloc, counts)?;
    members.insert(key, value)?;
    Ok(())
}

/// The report of some channels, each by its name and its counts: one line of compact JSON, an object that has `CHANNEL.` and the
/// name for each channel, in the order of their bytes, with its counts as texts under the names of the Flume User Guide
/// ("JSON Reporting").
///
/// # Errors
///
/// [`NoMemory`] when out of memory.
pub fn report(alloc: Global, channels: &[(String, Counts)]) -> Result<String, NoMemory>
    ensures { IfOk result (λ text. string_bytes text ≡ report_text channels.now) }
{
    let mut members = Map::new(alloc);
    for (name, counts) in channels {
        add(alloc, &mut members, name.as_str(), counts)?;
    }
    let mut text = Value::Object(members).to_string(alloc)?;
    text.push('\n')?;
    Ok(text)
}
