ghost use Rattle.std.specs.Prelude.{◌≡◌, ◌≤◌, ◌<◌, ◌%◌, ◌∷◌, OnOk, OnErr, length};
ghost use Rattle.std.specs.Io.KnownBytes.{Appends};
ghost use Rattle.line_text.specs.Known.{AppendsFront};
ghost use Rattle.line_text.specs.Data.{block_text, data_text};

use crate::data::{BLOCK, all_same};
use crate::digits::send_hex;
use crate::output::send;
use std::io::{Result as IoResult, Write};

/// Writes the one spelling of the bytes as DATA, which `read_data` describes.
///
/// # Errors
///
/// What the writer answered; it has some beginning of it.
pub fn send_data<W: Write>(writer: &mut W, bytes: &[u8]) -> IoResult<()>
    ensures whole { OnOk result
        (Appends (W.contents writer.old) (W.contents writer.new) (data_text 512 bytes.now)) }
    ensures front { OnErr result
        (AppendsFront (W.contents writer.old) (W.contents writer.new) (data_text 512 bytes.now)) }
{
    if bytes.is_empty() {
        return send(writer, b"-");
    }
    if bytes.len() % BLOCK == 0 {
        return send_blocks(writer, bytes);
    }
    send(writer, b"x")?;
    send_hex(writer, bytes)
}

fn send_blocks<W: Write>(writer: &mut W, bytes: &[u8]) -> IoResult<()>
    requires some { 0 < length bytes.now }
    requires whole { length bytes.now % 512 ≡ 0 }
    ensures whole { OnOk result
        (Appends (W.contents writer.old) (W.contents writer.new) (data_text 512 bytes.now)) }
    ensures front { OnErr result
        (AppendsFront (W.contents writer.old) (W.contents writer.new) (data_text 512 bytes.now)) }
{
    let (first, after) = bytes.split_at(BLOCK);
    send_block(writer, first)?;
    let mut rest = after;
    while rest.len() >= BLOCK {
        let (block, after) = rest.split_at(BLOCK);
        send_dotted(writer, block)?;
        rest = after;
    }
    Ok(())
}

fn send_dotted<W: Write>(writer: &mut W, block: &[u8]) -> IoResult<()>
    requires { 1 ≤ length block.now }
    ensures whole { OnOk result
        (Appends (W.contents writer.old) (W.contents writer.new) (46 ∷ block_text block.now)) }
    ensures front { OnErr result
        (AppendsFront (W.contents writer.old) (W.contents writer.new) (46 ∷ block_text block.now)) }
{
    send(writer, b".")?;
    send_block(writer, block)
}

fn send_block<W: Write>(writer: &mut W, block: &[u8]) -> IoResult<()>
    requires { 1 ≤ length block.now }
    ensures whole { OnOk result
        (Appends (W.contents writer.old) (W.contents writer.new) (block_text block.now)) }
    ensures front { OnErr result
        (AppendsFront (W.contents writer.old) (W.contents writer.new) (block_text block.now)) }
{
    if all_same(block) {
        send_hex(writer, &block[..1])
    } else {
        send_hex(writer, block)
    }
}
