// The name of a file as it is printed.
use std::fmt;

/// The name of a file. `Display` prints it in one line: a byte below 32 or 127 in hexadecimal, such
/// as `\x0a` for a line break, and all others as they are.
#[derive(Clone, Copy)]
pub struct FileName<'a>(pub &'a str);

impl fmt::Display for FileName<'_> {
    ghost use Rattle.std.specs.Prelude.{Some};
    ghost use Rattle.office_check.specs.Names.{printed_name};

    ghost output = { λ name. Some (printed_name name.0.now) };

    fn fmt<W: fmt::Write>(&self, f: &mut fmt::Formatter<W>) -> fmt::Result {
        for c in self.0.chars() {
            if c.is_ascii_control() {
                let code = u32::from(c);
                write!(f, "\\x{code:02x}")?;
            } else {
                f.write_char(c)?;
            }
        }
        Ok(())
    }
}
