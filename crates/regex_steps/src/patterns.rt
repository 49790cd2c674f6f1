// A pattern, built for texts and for bytes.
ghost use Rattle.std.specs.Prelude.{◌≡◌, IfOk, IfErr, OnOk, is_some, string_bytes};
ghost use Rattle.std.specs.Str.{IsUtf8};
ghost use Rattle.regex.specs.Patterns.{find, find_str, find_all, find_all_str};
ghost use Rattle.regex.specs.Strings as texts;
ghost use Rattle.regex.specs.Bytes as raw;
ghost use Rattle.regex_steps.specs.Search.{AreBuilt, IsNoPattern, IsOfSyntax, first_match, replaced, replaced_text, replaced_bytes};
ghost use Rattle.regex_steps.specs.Extract.{serializers_of, headers_after, headers_of};

use crate::groups::{Serializer, set_groups};
use crate::keys::BuildRefused;
use event_core::{Headers, NoMemory};
use regex::{Error, Regex, Template, bytes};
use std::alloc::{AllocError, Global};
use std::str;

/// A body that is a text is searched as one, and any other as bytes.
#[derive(Drop)]
pub struct Patterns {
    pub texts: Regex,
    pub bytes: bytes::Regex,
}

// A pattern that takes too much memory is no bad one.
fn refused(e: Error) -> BuildRefused
    ensures { result ≡ BuildRefused.BadPattern → IsOfSyntax e }
{
    match e {
        Error::Syntax(_) => BuildRefused::BadPattern,
        _ => BuildRefused::NoMemory,
    }
}

impl Patterns {
    /// Compiles a pattern for texts and for bytes. `BadPattern` comes only where the source is no pattern.
    pub fn build(alloc: Global, source: &str) -> Result<Patterns, BuildRefused>
        ensures ok { IfOk result (AreBuilt source.now) }
        ensures err { IfErr result (λ e. e ≡ BuildRefused.BadPattern → IsNoPattern source.now) }
    {
        let texts = match Regex::new(alloc, source) {
            Ok(texts) => texts,
            Err(e) => return Err(refused(e)),
        };
        match bytes::Regex::new(alloc, source) {
            Ok(bytes) => Ok(Patterns { texts, bytes }),
            Err(e) => Err(refused(e)),
        }
    }

    /// Whether the pattern is found in a body.
    pub fn is_found(&self, alloc: Global, body: &[u8]) -> Result<bool, AllocError>
        ensures { IfOk result (λ found. found ≡ is_some (first_match self.now body.now)) }
    {
        match str::from_utf8(body) {
            Ok(text) => {
                let mut matcher = self.texts.matcher(alloc)?;
                Ok(matcher.is_match(text))
            }
            Err(_) => {
                let mut matcher = self.bytes.matcher(alloc)?;
                Ok(matcher.is_match(body))
            }
        }
    }

    /// Sets the headers of the groups of the first match in a body.
    pub fn extract(
        &self,
        alloc: Global,
        body: &[u8],
        serializers: &[Serializer],
        headers: &mut Headers,
    ) -> Result<(), NoMemory>
        ensures { OnOk result (headers.new ≡ headers_after self.now (serializers_of serializers.now)
            body.now headers.old) }
    {
        match str::from_utf8(body) {
            Ok(text) => extract_from_text(alloc, &self.texts, text, serializers, headers),
            Err(_) => extract_from_bytes(alloc, &self.bytes, body, serializers, headers),
        }
    }

    /// A body with the text in the place of each match.
    pub fn replace(&self, alloc: Global, body: &[u8], text: &str) -> Result<Vec<u8>, AllocError>
        ensures { IfOk result (λ v. v.items ≡ replaced self.now text.now body.now) }
    {
        match str::from_utf8(body) {
            Ok(haystack) => {
                let made = replace_in_text(alloc, &self.texts, haystack, text)?;
                Ok(made.into_bytes())
            }
            Err(_) => replace_in_bytes(alloc, &self.bytes, body, text),
        }
    }
}

fn extract_from_text(
    alloc: Global,
    regex: &Regex,
    text: &str,
    serializers: &[Serializer],
    headers: &mut Headers,
) -> Result<(), NoMemory>
    ensures { OnOk result (headers.new ≡ headers_of text.now (serializers_of serializers.now)
        headers.old (find_str (texts.regex_pattern regex.now) text.now 0)) }
{
    let mut matcher = regex.matcher(alloc)?;
    match matcher.captures(text) {
        Some(found) => set_groups(&found, serializers, headers),
        None => Ok(()),
    }
}

fn extract_from_bytes(
    alloc: Global,
    regex: &bytes::Regex,
    body: &[u8],
    serializers: &[Serializer],
    headers: &mut Headers,
) -> Result<(), NoMemory>
    ensures { OnOk result (headers.new ≡ headers_of body.now (serializers_of serializers.now)
        headers.old (find (raw.regex_pattern regex.now) body.now 0)) }
{
    let mut matcher = regex.matcher(alloc)?;
    match matcher.captures(body) {
        Some(found) => set_groups(&found, serializers, headers),
        None => Ok(()),
    }
}

fn replace_in_text(
    alloc: Global,
    regex: &Regex,
    haystack: &str,
    text: &str,
) -> Result<String, AllocError>
    ensures { IfOk result (λ out. string_bytes out ≡ replaced_text regex.now text.now
        haystack.now) }
{
    let template = Template::new(alloc, regex.capture_names(), text)?;
    let mut matcher = regex.matcher(alloc)?;
    matcher.replace_all(alloc, haystack, &template)
}

fn replace_in_bytes(
    alloc: Global,
    regex: &bytes::Regex,
    body: &[u8],
    text: &str,
) -> Result<Vec<u8>, AllocError>
    ensures { IfOk result (λ out. out.items ≡ replaced_bytes regex.now text.now body.now) }
{
    let template = bytes::Template::new(alloc, regex.capture_names(), text.as_bytes())?;
    let mut matcher = regex.matcher(alloc)?;
    matcher.replace_all(alloc, body, &template)
}
