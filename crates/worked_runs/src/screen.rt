// Lines in memory.
ghost use Rattle.std.specs.Prelude.{◌≡◌, ◌++◌, ◌∷◌, [], IsTrue, Some, codes};
ghost use Rattle.std.specs.Io.KnownBytes.{Appends};

use clap::Error;
use office_check::FileName;
use office_program::{Lines, ProgramFault};
use std::alloc::Global;
use std::io::{self, Write};

/// A writer in memory, for lines of faults and other bytes.
#[derive(Drop)]
pub(crate) struct Screen {
    pub(crate) bytes: Vec<u8>,
}

impl Screen {
    pub(crate) fn new(alloc: Global) -> Screen
        ensures { result.bytes.items ≡ [] }
    {
        Screen {
            bytes: Vec::new(alloc),
        }
    }
}

impl Write for Screen {
    ghost use Rattle.std.specs.Prelude.{Some};

    ghost contents = { λ screen. Some screen.bytes.items };

    fn write(&mut self, buf: &[u8]) -> io::Result<usize> {
        self.bytes.write(buf)
    }

    fn flush(&mut self) -> io::Result<()> {
        Ok(())
    }
}

impl Lines for Screen {
    ghost use Rattle.std.specs.Prelude.{IsTrue, Some, ⊤};
    ghost use Rattle.std.specs.Io.KnownBytes.{Appends};

    // A line that was written whole was added to the bytes.
    ghost tells = { λ old text is_written new.
        IsTrue is_written → Appends (Some old.bytes.items) (Some new.bytes.items) text };

    // The text of a mistake is the kit's.
    ghost tells_mistake = { λ old mistake is_written new. ⊤ };

    fn tell(&mut self, fault: &ProgramFault<'_>) -> bool {
        match writeln!(self.bytes, "{fault}") {
            Ok(()) => true,
            Err(_) => false,
        }
    }

    fn tell_of(&mut self, path: &str, fault: &ProgramFault<'_>) -> bool {
        let name = FileName(path);
        match writeln!(self.bytes, "{name}: {fault}") {
            Ok(()) => true,
            Err(_) => false,
        }
    }

    fn tell_mistake(&mut self, mistake: &Error) -> bool {
        write!(self.bytes, "{mistake}").is_ok()
    }

    fn tell_not_text(&mut self) -> bool {
        match writeln!(self.bytes, "error: the words are not all UTF-8") {
            Ok(()) => true,
            Err(_) => false,
        }
    }
}
