// What a client is told.
ghost use Rattle.std.specs.Prelude.{◌≡◌, ◌≤◌, length};
ghost use Rattle.std.specs.Option.{option_map};
ghost use Rattle.avro_binary.specs.Value.{IsFixed, FixedFault};
ghost use Rattle.avro_binary.specs.Reading.{Reads, ReadsOver};
ghost use Rattle.avro_hop.specs.Parts.{IsOption, OptionFault};
ghost use Rattle.avro_hop.specs.Replies.{EnumFault, IsAgreed, IsStatus, IsAccord, AccordFault, IsNoError, FlagFault, IsTold, ToldFault, IsReply, SpelledFault, ReadsReply, OneReply, RepliesAreRead};

use crate::handshake::{Match, fixed_at, index_at, meta_option_at, place_of, text_option_at};
use crate::respond::Status;
use avro_binary::{ValueRefused, read_bool, read_int, read_meta};

// How the hashes match, where the server goes on.
fn agreed_at(bytes: &[u8], at: usize) -> Result<(Match, usize), ValueRefused>
    requires { at ≤ length bytes.now }
    ensures { Reads (λ m. m) IsAgreed (EnumFault IsAgreed) bytes.now at result }
{
    let (index, end) = read_int(bytes, at)?;
    if index == 0 {
        Ok((Match::Both, end))
    } else if index == 1 {
        Ok((Match::Client, end))
    } else {
        Err(ValueRefused::Bad { at: at as u64 })
    }
}

fn hash_option_at(bytes: &[u8], at: usize) -> Result<(Option<&[u8]>, usize), ValueRefused>
    requires { at ≤ length bytes.now }
    ensures { Reads (option_map (λ s. s.now)) (IsOption IsFixed) (OptionFault FixedFault) bytes.now
        at result }
{
    let (some, behind) = index_at(bytes, at)?;
    if !some {
        return Ok((None, behind));
    }
    let (hash, end) = fixed_at(bytes, behind)?;
    Ok((Some(hash), end))
}

// The offset after the answer to a handshake.
fn accord_at(bytes: &[u8]) -> Result<usize, ValueRefused>
    ensures { ReadsOver IsAccord AccordFault bytes.now 0 result }
{
    let (_found, text_at) = agreed_at(bytes, 0)?;
    let (_text, hash_at) = text_option_at(bytes, text_at)?;
    let (_hash, meta_at) = hash_option_at(bytes, hash_at)?;
    meta_option_at(bytes, meta_at)
}

// The offset after the flag of a call without an error.
fn flag_at(bytes: &[u8], at: usize) -> Result<usize, ValueRefused>
    requires { at ≤ length bytes.now }
    ensures { ReadsOver IsNoError FlagFault bytes.now at result }
{
    let (error, end) = read_bool(bytes, at)?;
    if error {
        return Err(ValueRefused::Bad { at: at as u64 });
    }
    Ok(end)
}

fn status_at(bytes: &[u8], at: usize) -> Result<(Status, usize), ValueRefused>
    requires { at ≤ length bytes.now }
    ensures { Reads (λ s. s) IsStatus (EnumFault IsStatus) bytes.now at result }
{
    let (index, end) = read_int(bytes, at)?;
    if index == 0 {
        Ok((Status::Ok, end))
    } else if index == 1 {
        Ok((Status::Failed, end))
    } else if index == 2 {
        Ok((Status::Unknown, end))
    } else {
        Err(ValueRefused::Bad { at: at as u64 })
    }
}

// The status of a response, and the offset after it.
fn told_at(bytes: &[u8], at: usize) -> Result<(Status, usize), ValueRefused>
    requires { at ≤ length bytes.now }
    ensures { Reads (λ s. s) IsTold ToldFault bytes.now at result }
{
    let flag = read_meta(bytes, at)?;
    let index = flag_at(bytes, flag)?;
    status_at(bytes, index)
}

fn reply_at(first: bool, bytes: &[u8]) -> Result<(Status, usize), ValueRefused>
    ensures { Reads (λ s. s) (IsReply first) (SpelledFault first) bytes.now 0 result }
{
    if !first {
        return told_at(bytes, 0);
    }
    let behind = accord_at(bytes)?;
    told_at(bytes, behind)
}

/// Reads the payload of a reply, after a connection's first request or a later one. An `Err` is the offset of the
/// first field that is not whole or at fault, and then nothing is told: so the match NONE, a true error flag and a byte
/// after the response count. `Both` and `Client` are taken alike, and the server's text, its hash and all metadata are
/// read and left aside.
pub fn read_reply(first: bool, bytes: &[u8]) -> Result<Status, u64>
    ensures { ReadsReply first bytes.now result }
{
    match reply_at(first, bytes) {
        Ok((status, end)) => {
            if end < bytes.len() {
                return Err(end as u64);
            }
            Ok(status)
        }
        Err(e) => Err(place_of(e)),
    }
}

/// A reply is read in one way, and that of a server of this agent as the status that was answered.
pub fn one_reply()
    ensures one { OneReply }
    ensures own { RepliesAreRead }
{}
