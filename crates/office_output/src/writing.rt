// Writes texts.
ghost use Rattle.std.specs.Prelude.{OnErr, OnOk};
ghost use Rattle.std.specs.Io.KnownBytes.{Appends};
ghost use Rattle.office_output.specs.Writing.{WritesFront};

use std::io::{ErrorKind, Result, Write};

// How often an interrupted write is tried again.
const MOST_INTERRUPTIONS: u32 = 1_000;

/// Writes a text whole, as `write_all` does, or up to a front of it if a write fails.
pub fn write_text<W: Write>(writer: &mut W, text: &[u8]) -> Result<()>
    ensures ok { OnOk result (Appends (W.contents writer.old) (W.contents writer.new) text.now) }
    ensures err { OnErr result
        (WritesFront (W.contents writer.old) (W.contents writer.new) text.now) }
{
    let mut rest = text;
    let mut interruptions = 0;
    while !rest.is_empty() {
        match writer.write(rest) {
            Ok(0) => return Err(ErrorKind::WriteZero.into()),
            Ok(n) => rest = &rest[n..],
            Err(e) => {
                if e.kind() != ErrorKind::Interrupted || interruptions == MOST_INTERRUPTIONS {
                    return Err(e);
                }
                interruptions += 1;
            }
        }
    }
    Ok(())
}
