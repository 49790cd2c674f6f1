// The handshake.
ghost use Rattle.std.specs.Prelude.{◌≡◌, ◌≤◌, ◌++◌, ◌↔◌, ℕ, IsTrue, length, OnOk};
ghost use Rattle.std.specs.Option.{option_map};
ghost use Rattle.avro_binary.specs.Value.{IsText, TextFault, IsFixed, FixedFault};
ghost use Rattle.avro_binary.specs.Items.{IsMeta, MetaFault};
ghost use Rattle.avro_binary.specs.Reading.{Reads, ReadsOver};
ghost use Rattle.avro_hop.specs.Parts.{IsOption, OptionFault};
ghost use Rattle.avro_hop.specs.Handshake.{own_hash, greeting, IsTail, TailFault, IsRequest, RequestFault, written_own, written_null};
ghost use Rattle.avro_hop.specs.Refusal.{IsPlaceOf};
ghost use Rattle.avro_hop.specs.Told.{ReadsIndex, told, Matches};

use crate::accepted::accepts;
use crate::hop::HopRefused;
use crate::protocol::protocol_text;
use avro_binary::{
    ValueRefused, read_fixed, read_int, read_meta, read_text, write_fixed, write_int, write_text,
};
use event_core::NoMemory;
use std::alloc::Global;
use std::str;

/// How the hashes match.
#[derive(Clone, Copy, Debug, PartialEq, Eq)]
pub enum Match {
    /// The server knows the client's protocol, and the client the server's.
    Both,
    /// The server knows the client's protocol.
    Client,
    /// The server wants the client's text.
    Stranger,
}

/// What a client tells.
#[derive(Clone, Copy)]
pub struct Told<'a> {
    pub hash: &'a [u8],
    pub text: Option<&'a str>,
    pub server_hash: &'a [u8],
}

/// Where a field is that is not whole or at fault.
pub fn place_of(e: ValueRefused) -> u64
    requires { (at : ℕ) × IsPlaceOf e at }
    ensures { IsPlaceOf e result }
{
    match e {
        ValueRefused::Short { at, need: _ } => at,
        ValueRefused::Bad { at } => at,
        _ => unreachable!(),
    }
}

/// The index of a union of null and a value: whether the value follows.
pub fn index_at(bytes: &[u8], at: usize) -> Result<(bool, usize), ValueRefused>
    requires { at ≤ length bytes.now }
    ensures { ReadsIndex bytes.now at result }
{
    let (index, end) = read_int(bytes, at)?;
    if index == 0 {
        Ok((false, end))
    } else if index == 1 {
        Ok((true, end))
    } else {
        Err(ValueRefused::Bad { at: at as u64 })
    }
}

/// The 16 bytes themselves.
pub fn fixed_at(bytes: &[u8], at: usize) -> Result<(&[u8], usize), ValueRefused>
    requires { at ≤ length bytes.now }
    ensures { Reads (λ s. s.now) IsFixed FixedFault bytes.now at result }
{
    let (start, end) = read_fixed(bytes, at)?;
    Ok((&bytes[start..end], end))
}

/// The text itself.
pub fn text_at(bytes: &[u8], at: usize) -> Result<(&str, usize), ValueRefused>
    requires { at ≤ length bytes.now }
    ensures { Reads (λ s. s.now) IsText TextFault bytes.now at result }
{
    let (start, end) = read_text(bytes, at)?;
    match str::from_utf8(&bytes[start..end]) {
        Ok(text) => Ok((text, end)),
        Err(_) => unreachable!(),
    }
}

/// A text or null at the offset, and the offset after it.
pub fn text_option_at(bytes: &[u8], at: usize) -> Result<(Option<&str>, usize), ValueRefused>
    requires { at ≤ length bytes.now }
    ensures { Reads (option_map (λ s. s.now)) (IsOption IsText) (OptionFault TextFault) bytes.now at
        result }
{
    let (some, behind) = index_at(bytes, at)?;
    if !some {
        return Ok((None, behind));
    }
    let (text, end) = text_at(bytes, behind)?;
    Ok((Some(text), end))
}

/// The offset after a map of metadata or null at the offset.
pub fn meta_option_at(bytes: &[u8], at: usize) -> Result<usize, ValueRefused>
    requires { at ≤ length bytes.now }
    ensures { ReadsOver (IsOption IsMeta) (OptionFault MetaFault) bytes.now at result }
{
    let (some, behind) = index_at(bytes, at)?;
    if !some {
        return Ok(behind);
    }
    read_meta(bytes, behind)
}

fn tail_at(bytes: &[u8], at: usize) -> Result<(&[u8], usize), ValueRefused>
    requires { at ≤ length bytes.now }
    ensures { Reads (λ s. s.now) IsTail TailFault bytes.now at result }
{
    let (hash, behind) = fixed_at(bytes, at)?;
    let end = meta_option_at(bytes, behind)?;
    Ok((hash, end))
}

/// The request at the front, and the offset after it.
pub fn request_at(bytes: &[u8]) -> Result<(Told<'_>, usize), ValueRefused>
    ensures { Reads told IsRequest RequestFault bytes.now 0 result }
{
    let (hash, text_at) = fixed_at(bytes, 0)?;
    let (text, tail) = text_option_at(bytes, text_at)?;
    let (server_hash, end) = tail_at(bytes, tail)?;
    Ok((
        Told {
            hash,
            text,
            server_hash,
        },
        end,
    ))
}

fn is_same(a: &[u8], b: &[u8; 16]) -> bool
    ensures { IsTrue result ↔ (a.now ≡ b.now) }
{
    a == b.as_slice()
}

/// How the hashes of a request match. A text is tested only where its hash is unknown.
pub fn match_of(alloc: Global, request: &Told<'_>, hash: &[u8; 16]) -> Result<Match, HopRefused>
    requires { hash.now ≡ own_hash }
    ensures { Matches (told request.now) result }
{
    if !is_same(request.hash, hash) {
        let Some(text) = request.text else {
            return Ok(Match::Stranger);
        };
        if !accepts(alloc, text)? {
            return Err(HopRefused::OtherProtocol);
        }
    }
    if is_same(request.server_hash, hash) {
        Ok(Match::Both)
    } else {
        Ok(Match::Client)
    }
}

fn add_own(hash: &[u8; 16], out: &mut Vec<u8>) -> Result<(), NoMemory>
    requires { hash.now ≡ own_hash }
    ensures { OnOk result (out.new.items ≡ out.old.items ++ written_own) }
{
    write_int(1, out)?;
    write_text(protocol_text(), out)?;
    write_int(1, out)?;
    write_fixed(hash, out)?;
    write_int(0, out)
}

fn add_nulls(out: &mut Vec<u8>) -> Result<(), NoMemory>
    ensures { OnOk result (out.new.items ≡ out.old.items ++
        (written_null ++ (written_null ++ written_null))) }
{
    write_int(0, out)?;
    write_int(0, out)?;
    write_int(0, out)
}

/// Adds the answer to a handshake.
pub fn add_greeting(found: Match, hash: &[u8; 16], out: &mut Vec<u8>) -> Result<(), NoMemory>
    requires { hash.now ≡ own_hash }
    ensures { OnOk result (out.new.items ≡ out.old.items ++ greeting found) }
{
    match found {
        Match::Both => {
            write_int(0, out)?;
            add_nulls(out)
        }
        Match::Client => {
            write_int(1, out)?;
            add_own(hash, out)
        }
        Match::Stranger => {
            write_int(2, out)?;
            add_own(hash, out)
        }
    }
}
