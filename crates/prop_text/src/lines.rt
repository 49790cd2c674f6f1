//! Natural lines and logical lines.

ghost use Rattle.std.specs.List.{prefix_len};
ghost use Rattle.prop_text.specs.Views.{texts, views};
ghost use Rattle.std.specs.Prelude.{◌≡◌, ℕ, ◌<◌, ◌≤◌, ◌^◌, IfOk, map, length, vec_len, string_bytes, ◌+◌};
ghost use Rattle.prop_text.specs.Lines.{Line, is_white_space, trim_start, natural_lines, end_len, goes_on, is_skipped, reading};

use std::alloc::{AllocError, Global};

/// A logical line, and the number of its first natural line, from 1.
#[derive(Drop)]
pub struct LogicalLine {
    pub number: u32,
    pub text: String,
}

/// Whether a byte is a space, a tab or a form feed.
pub fn is_white_space(byte: u8) -> bool
    ensures { result ≡ is_white_space byte }
{
    byte == b' ' || byte == b'\t' || byte == 12
}

/// How many bytes at the front are white space.
pub fn white_space_len(bytes: &[u8]) -> usize
    ensures value { result ≡ prefix_len is_white_space bytes.now }
    ensures within { result ≤ length bytes.now }
{
    let mut at = 0;
    while at < bytes.len() && is_white_space(bytes[at]) {
        at += 1;
    }
    at
}

/// The text without the white space at its start.
fn trim_start(text: &str) -> &str
    ensures { result.now ≡ trim_start text.now }
{
    let start = white_space_len(text.as_bytes());
    &text[start..]
}

/// The length of the line end at the front, or 0.
fn end_len(rest: &[u8]) -> usize
    ensures value { result ≡ end_len rest.now }
    ensures within { result ≤ length rest.now }
{
    match rest {
        [b'\r', b'\n', ..] => 2,
        [b'\n', ..] | [b'\r', ..] => 1,
        _ => 0,
    }
}

/// The natural lines of a text: one more than it has line ends.
pub fn natural_lines(alloc: Global, text: &str) -> Result<Vec<&str>, AllocError>
    ensures value { IfOk result (λ lines. texts lines.items ≡ natural_lines text.now) }
    ensures count { IfOk result (λ lines. vec_len lines ≤ length text.now + 1) }
{
    let bytes = text.as_bytes();
    let mut lines = Vec::new(alloc);
    let mut start = 0;
    let mut at = 0;
    while at < bytes.len() {
        let len = end_len(&bytes[at..]);
        if len == 0 {
            at += 1;
        } else {
            lines.push(&text[start..at])?;
            at += len;
            start = at;
        }
    }
    lines.push(&text[start..])?;
    Ok(lines)
}

/// Whether the next natural line continues this one.
fn goes_on(line: &str) -> bool
    ensures { result ≡ goes_on line.now }
{
    let bytes = line.as_bytes();
    let mut end = bytes.len();
    while 0 < end && bytes[end - 1] == b'\\' {
        end -= 1;
    }
    (bytes.len() - end) % 2 == 1
}

/// A blank line or a comment, where it does not continue another line.
fn is_skipped(line: &str) -> bool
    ensures { result ≡ is_skipped line.now }
{
    let bytes = line.as_bytes();
    bytes.is_empty() || bytes[0] == b'#' || bytes[0] == b'!'
}

/// The logical lines that the natural lines of a text make.
pub fn logical_lines(alloc: Global, lines: &[&str]) -> Result<Vec<LogicalLine>, AllocError>
    requires { length lines.now < 2 ^ 32 }
    ensures { IfOk result (λ logical. views logical.items ≡ (reading 1 (texts lines.now)).begun) }
{
    let mut logical = Vec::new(alloc);
    let mut open: Option<LogicalLine> = None;
    let mut number: u32 = 0;
    for line in lines {
        number += 1;
        let own = trim_start(line);
        let mut current = match open.take() {
            Some(begun) => begun,
            None => {
                if is_skipped(own) {
                    continue;
                }
                LogicalLine {
                    number,
                    text: String::new(alloc),
                }
            }
        };
        if goes_on(own) {
            current.text.push_str(&own[..own.len() - 1])?;
            open = Some(current);
        } else {
            current.text.push_str(own)?;
            logical.push(current)?;
        }
    }
    if let Some(current) = open {
        logical.push(current)?;
    }
    Ok(logical)
}
