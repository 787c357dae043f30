//! One entry of a `publish` line.

ghost use Rattle.std.specs.Prelude.{◌≡◌, Some, map};
ghost use Rattle.line_text.specs.Data.{data_in};
ghost use Rattle.history.specs.BatchWords.{item_from};
ghost use Rattle.history.specs.Gives.{GivesRead};
ghost use Rattle.script_lines.specs.Commands.{command_entry_in, fuse_in, script_item_in, opcode_in, raw_in};

use entry_codec::{Fuse, Sqe, encode_sqe, opcode};
use history::LineFault;
use line_text::{read_data, read_fixed, read_u16, read_u64};
use nvme_model::submission::{Payload, Submission};
use std::alloc::Global;

// The opcode of a command's name.
fn opcode_of(name: &[u8]) -> Option<u8>
    ensures { result ≡ opcode_in name.now }
{
    if name == b"flush".as_slice() {
        return Some(opcode::FLUSH);
    }
    if name == b"write".as_slice() {
        return Some(opcode::WRITE);
    }
    if name == b"read".as_slice() {
        return Some(opcode::READ);
    }
    if name == b"compare".as_slice() {
        return Some(opcode::COMPARE);
    }
    if name == b"zeroes".as_slice() {
        return Some(opcode::WRITE_ZEROES);
    }
    None
}

// FUSE by its word, 0 to 3.
fn fuse_of(word: &[u8]) -> Option<Fuse>
    ensures { result ≡ fuse_in word.now }
{
    match read_u16(word)? {
        0 => Some(Fuse::Normal),
        1 => Some(Fuse::First),
        2 => Some(Fuse::Second),
        3 => Some(Fuse::Reserved),
        _ => None,
    }
}

// The bytes of the command that a name and four numbers spell.
fn command_of(name: &[u8], fuse: &[u8], cid: &[u8], slba: &[u8], nlb: &[u8]) -> Option<[u8; 64]>
    ensures { result ≡ command_entry_in name.now fuse.now cid.now slba.now nlb.now }
{
    let opcode = opcode_of(name)?;
    let fuse = fuse_of(fuse)?;
    let cid = read_u16(cid)?;
    let slba = read_u64(slba)?;
    let nlb = read_u16(nlb)?;
    Some(encode_sqe(&Sqe::command(opcode, fuse, cid, slba, nlb)))
}

// The bytes that the words of a `raw` entry spell.
fn raw_of(name: &[u8], digits: &[u8]) -> Option<[u8; 64]>
    ensures { result ≡ raw_in name.now digits.now }
{
    if name != b"raw".as_slice() {
        return None;
    }
    read_fixed::<64>(digits)
}

// These bytes, where they are there, with the data that a word spells.
fn with_data(
    alloc: Global,
    entry: Option<[u8; 64]>,
    payload: &[u8],
) -> Result<Submission, LineFault>
    ensures { GivesRead result (item_from entry (data_in 512 payload.now)) }
{
    let Some(entry) = entry else {
        return Err(LineFault::Malformed);
    };
    let Some(payload) = read_data(alloc, payload)? else {
        return Err(LineFault::Malformed);
    };
    Ok(Submission {
        entry,
        payload: Payload::new(payload),
    })
}

// The entry that words spell: `raw` and two more, or a command's name and five more.
#[tactic(auto, unfolding(crate::specs::Commands::script_item_in))]
pub(crate) fn item_of(alloc: Global, words: &[&[u8]]) -> Result<Submission, LineFault>
    ensures { GivesRead result (script_item_in (map (λ w. w.now) words.now)) }
{
    if let [name, digits, payload] = words {
        return with_data(alloc, raw_of(name, digits), payload);
    }
    let [name, fuse, cid, slba, nlb, payload] = words else {
        return Err(LineFault::Malformed);
    };
    with_data(alloc, command_of(name, fuse, cid, slba, nlb), payload)
}
