// One step of a chain, over a regular expression.
ghost use Rattle.std.specs.Prelude.{◌≡◌, ◌≤◌, IfOk, IfErr, IfSome, string_bytes, map};
ghost use Rattle.event_core.specs.Content.{size};
ghost use Rattle.regex_steps.specs.Extract.{serializers_of};
ghost use Rattle.regex_steps.specs.Steps.{Filters, Extracts, Replaces, IsStepOf, IsBad, step, ran, ran_as, IsRefusalOfStep};

use crate::groups::{Serializer, serializers_for};
use crate::keys::{BuildRefused, RegexKeys};
use crate::patterns::Patterns;
use event_core::{Event, EventRefused, MAX_EVENT_SIZE};
use std::alloc::Global;

/// What is done where the pattern is found.
#[derive(Drop)]
pub enum Does {
    Filter { exclude: bool },
    Extract { serializers: Vec<Serializer> },
    Replace { text: String },
}

/// An interceptor over a regular expression, whose pattern is built once, for texts and for bytes: a body that is UTF-8 is
/// searched as a text, and any other as bytes. A search finds the pattern anywhere in the body.
#[derive(Drop)]
pub struct RegexStep {
    patterns: Patterns,
    does: Does,
    alloc: Global,
}

fn filter(
    alloc: Global,
    patterns: &Patterns,
    exclude: bool,
    event: Event,
) -> Result<Option<Event>, EventRefused>
    ensures ok { IfOk result (λ made. made ≡ ran_as (Filters exclude) patterns.now event) }
    ensures fits { IfOk result (λ made. IfSome made (λ e. size e ≤ MAX_EVENT_SIZE)) }
    ensures err { IfErr result (IsRefusalOfStep (ran_as (Filters exclude) patterns.now event)) }
{
    let found = patterns.is_found(alloc, event.body())?;
    if found == exclude {
        return Ok(None);
    }
    let _size = event.size();
    Ok(Some(event))
}

fn extract(
    alloc: Global,
    patterns: &Patterns,
    serializers: &[Serializer],
    event: Event,
) -> Result<Option<Event>, EventRefused>
    ensures ok { IfOk result (λ made. made ≡ ran_as (Extracts (serializers_of serializers.now))
        patterns.now event) }
    ensures fits { IfOk result (λ made. IfSome made (λ e. size e ≤ MAX_EVENT_SIZE)) }
    ensures err { IfErr result (IsRefusalOfStep (ran_as (Extracts (serializers_of serializers.now))
        patterns.now event)) }
{
    let (mut headers, body) = event.into_parts();
    patterns.extract(alloc, &body, serializers, &mut headers)?;
    match Event::new(headers, body) {
        Ok(made) => Ok(Some(made)),
        Err(e) => Err(e),
    }
}

fn replace(
    alloc: Global,
    patterns: &Patterns,
    text: &str,
    event: Event,
) -> Result<Option<Event>, EventRefused>
    ensures ok { IfOk result (λ made. made ≡ ran_as (Replaces text.now) patterns.now event) }
    ensures fits { IfOk result (λ made. IfSome made (λ e. size e ≤ MAX_EVENT_SIZE)) }
    ensures err { IfErr result (IsRefusalOfStep (ran_as (Replaces text.now) patterns.now event)) }
{
    let (headers, body) = event.into_parts();
    let body = patterns.replace(alloc, &body, text)?;
    match Event::new(headers, body) {
        Ok(made) => Ok(Some(made)),
        Err(e) => Err(e),
    }
}

impl RegexStep {
    /// Builds a step. `BadPattern` comes only where a text is no pattern, or one that nests too deep, or where the text for a
    /// date is no pattern of dates; a pattern that would take too much memory is out of memory.
    pub fn build(alloc: Global, keys: &RegexKeys) -> Result<RegexStep, BuildRefused>
        ensures ok { IfOk result (λ made. IsStepOf keys.now (step made)) }
        ensures err { IfErr result (λ e. e ≡ BuildRefused.BadPattern → IsBad keys.now) }
    {
        match keys {
            RegexKeys::Filter { regex, exclude } => {
                let patterns = Patterns::build(alloc, regex.as_str())?;
                let does = Does::Filter { exclude: *exclude };
                Ok(RegexStep {
                    patterns,
                    does,
                    alloc,
                })
            }
            RegexKeys::Extract { regex, groups } => {
                let patterns = Patterns::build(alloc, regex.as_str())?;
                let serializers = serializers_for(alloc, groups)?;
                let does = Does::Extract { serializers };
                Ok(RegexStep {
                    patterns,
                    does,
                    alloc,
                })
            }
            RegexKeys::Replace { search, text } => {
                let patterns = Patterns::build(alloc, search.as_str())?;
                let text = text.clone()?;
                let does = Does::Replace { text };
                Ok(RegexStep {
                    patterns,
                    does,
                    alloc,
                })
            }
        }
    }

    /// The event after the step, or nothing where a filter drops it. Besides being out of memory it is refused exactly where its
    /// size then passes `MAX_EVENT_SIZE`.
    pub fn run(&mut self, event: Event) -> Result<Option<Event>, EventRefused>
        ensures ok { IfOk result (λ made. made ≡ ran (step self.old) event) }
        ensures fits { IfOk result (λ made. IfSome made (λ e. size e ≤ MAX_EVENT_SIZE)) }
        ensures err { IfErr result (IsRefusalOfStep (ran (step self.old) event)) }
        ensures same { step self.new ≡ step self.old }
    {
        match &self.does {
            Does::Filter { exclude } => filter(self.alloc, &self.patterns, *exclude, event),
            Does::Extract { serializers } => {
                extract(self.alloc, &self.patterns, serializers, event)
            }
            Does::Replace { text } => replace(self.alloc, &self.patterns, text.as_str(), event),
        }
    }
}
