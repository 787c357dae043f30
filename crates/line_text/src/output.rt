ghost use Rattle.std.specs.Prelude.{◌≡◌, ◌++◌, ◌∷◌, [], OnOk, OnErr};
ghost use Rattle.std.specs.Io.KnownBytes.{Appends};
ghost use Rattle.line_text.specs.Known.{AppendsFront};

use std::io::{Error, ErrorKind, Result, Write};

/// Writes the bytes, as `write_all` does, which says nothing of a writer that failed.
///
/// # Errors
///
/// What the writer answered; it has some beginning of them. A writer that takes none is an error, of kind `WriteZero`;
/// a write that was interrupted is tried again.
pub fn send<W: Write>(writer: &mut W, bytes: &[u8]) -> Result<()>
    ensures whole { OnOk result
        (Appends (W.contents writer.old) (W.contents writer.new) bytes.now) }
    ensures front { OnErr result
        (AppendsFront (W.contents writer.old) (W.contents writer.new) bytes.now) }
{
    let mut sent = 0;
    for _ in 0..u64::MAX {
        if sent >= bytes.len() {
            return Ok(());
        }
        match writer.write(&bytes[sent..]) {
            Ok(0) => return Err(Error::from(ErrorKind::WriteZero)),
            Ok(n) => sent += n,
            Err(e) => {
                if e.kind() != ErrorKind::Interrupted {
                    return Err(e);
                }
            }
        }
    }
    Err(Error::from(ErrorKind::WriteZero))
}

/// Writes the line, which has no line feed in it, and then a line feed.
///
/// # Errors
///
/// What the writer answered; it has some beginning of both.
pub fn send_line<W: Write>(writer: &mut W, line: &[u8]) -> Result<()>
    ensures whole { OnOk result
        (Appends (W.contents writer.old) (W.contents writer.new) (line.now ++ 10 ∷ [])) }
    ensures front { OnErr result
        (AppendsFront (W.contents writer.old) (W.contents writer.new) (line.now ++ 10 ∷ [])) }
{
    send(writer, line)?;
    send(writer, b"\n")
}
