// Lines that end with a number.
ghost use Rattle.std.specs.Prelude.{[], ◌∷◌, ◌++◌, decimal, OnErr, OnOk};
ghost use Rattle.std.specs.Io.KnownBytes.{Appends};
ghost use Rattle.office_output.specs.Writing.{WritesFront};

use itoa::Buffer;
use office_output::write_text;
use std::io::{Result, Write};

// Writes the line of a text and a number.
pub(crate) fn write_numbered<W: Write>(writer: &mut W, text: &str, number: u16) -> Result<()>
    ensures ok { OnOk result (Appends (W.contents writer.old) (W.contents writer.new)
        (text.now ++ decimal number ++ 10 ∷ [])) }
    ensures err { OnErr result (WritesFront (W.contents writer.old) (W.contents writer.new)
        (text.now ++ decimal number ++ 10 ∷ [])) }
{
    write_text(writer, text.as_bytes())?;
    write_text(writer, Buffer::new().format(number).as_bytes())?;
    write_text(writer, b"\n")
}
