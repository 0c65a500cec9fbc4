// The lines about the causes of faults.
use office_check::FileName;
use sqlite::Error;
use std::{fmt, io};

/// What a run reads or writes. `Display` prints its name.
#[derive(Clone, Copy)]
pub enum Source<'a> {
    Stdin,
    Stdout,
    File(&'a str),
}

impl fmt::Display for Source<'_> {
    ghost use Rattle.std.specs.Prelude.{Some};
    ghost use Rattle.office_program.specs.Causes.{source_name};

    ghost output = { λ source. Some (source_name source) };

    fn fmt<W: fmt::Write>(&self, f: &mut fmt::Formatter<W>) -> fmt::Result {
        match self {
            Source::Stdin => write!(f, "standard input"),
            Source::Stdout => write!(f, "standard output"),
            Source::File(path) => {
                let name = FileName(path);
                write!(f, "{name}")
            }
        }
    }
}

/// The cause of a fault. `Display` prints what a line says of it after the name of the source.
#[derive(Clone, Copy)]
pub enum Cause<'a> {
    /// A file can't be opened or read.
    Unopened(&'a io::Error),
    /// A database can't be opened.
    NoDatabase(Error),
    /// What these words say.
    Plain(&'static str),
    /// What these words say of the line of this number, and how the line goes on after them.
    Line(u32, &'static str, &'static str),
    /// What these words say of the line of this number, and the line.
    Shown(u32, &'static str, &'a [u8]),
}

impl fmt::Display for Cause<'_> {
    fn fmt<W: fmt::Write>(&self, f: &mut fmt::Formatter<W>) -> fmt::Result {
        match self {
            Cause::Unopened(reason) => write!(f, ": {reason}"),
            Cause::NoDatabase(error) => write!(f, ": {error}"),
            Cause::Plain(words) => write!(f, ": {words}"),
            Cause::Line(line, words, more) => write!(f, " line {line}: {words}{more}"),
            Cause::Shown(line, words, text) => {
                let shown = Shown { line: text };
                write!(f, " line {line}: {words}: {shown}")
            }
        }
    }
}

// The beginning of a line, with a blank for each byte that isn't printable.
#[derive(Clone, Copy)]
struct Shown<'a> {
    line: &'a [u8],
}

impl fmt::Display for Shown<'_> {
    fn fmt<W: fmt::Write>(&self, f: &mut fmt::Formatter<W>) -> fmt::Result {
        for byte in self.line.trim_ascii_end().iter().take(SHOWN_BYTES) {
            let printable = *byte == b' ' || byte.is_ascii_graphic();
            f.write_char(if printable { char::from(*byte) } else { ' ' })?;
        }
        Ok(())
    }
}

// How much of a line is shown.
const SHOWN_BYTES: usize = 200;
