// `explain`: prints faults in words.
ghost use Rattle.std.specs.Prelude.{◌≡◌, ◌++◌, ◌∷◌, [], IfErr, IfOk, OnErr, OnOk, map, option_map};
ghost use Rattle.std.specs.Io.KnownBytes.{Appends};
ghost use Rattle.office_output.specs.Writing.{WritesFront};
ghost use Rattle.office_program.specs.Explaining.{fault_words, numbered_text};

use crate::faults::ProgramFault;
use office_output::write_text;
use std::io::{self, Write};

// The faults of a file, from 1. The part in front of the colon is the short form.
const FILE: [&str; 13] = [
    "too long: the file has more bytes than are read (line 0)",
    "no header: the header of the next section is expected here",
    "wrong count: more or fewer lines than the header or the instance says",
    "no number: a field is not a whole number",
    "no such date: a field is not a date, DD:MM:YYYY, that the calendar has",
    "no such time: a field is not a time of day, HH:MM:SS",
    "no such word: a field is none of the words that are allowed there",
    "out of range: a number is beyond its limit, or names nothing that exists",
    "repeated: a word of the weightings comes a second time",
    "stray text: there is text after the last field, or after a header's ]",
    "wrong columns: the first line of a batch is not student,exam,action",
    "not placed: an exam of a timetable to be written has no place",
    "no memory: memory was refused (line 0); the file may be right",
];

// The faults of an office, from 1.
const STORE: [&str; 9] = [
    "loaded: the office has a session already",
    "not loaded: the office has no session yet",
    "no draft: there is no draft of this number",
    "draft taken: there is a draft of this number already",
    "batch differs: this number was used before, for a batch of other content",
    "too many: there would be more enrolments or batches than are kept",
    "refused: a file is faulty, or a rule forbids an edit or a publication",
    "failed: a statement failed, or memory was refused",
    "no office: the tables in the database are not those of an office",
];

// The faults of a connection, from 1.
const CONNECTION: [&str; 4] = [
    "not read: reading failed, or was not in time",
    "not written: writing failed, or was not in time",
    "no reads left: it was read more often than a connection may be",
    "no memory: memory was refused",
];

// The greatest number that is looked up. One that no fault has is refused with those that there are.
pub(crate) const MAX_NUMBER: u32 = 999_999_999;

// Returns the words of the fault of this kind and number, if there is one.
pub(crate) fn fault_words(kind: &str, number: u32) -> Option<&'static str>
    ensures { option_map (λ words. words.now) result ≡ fault_words kind.now number }
{
    if kind == "file" {
        numbered_text(&FILE, number)
    } else if kind == "store" {
        numbered_text(&STORE, number)
    } else if kind == "connection" {
        numbered_text(&CONNECTION, number)
    } else {
        None
    }
}

// Returns the text of this number, from 1.
fn numbered_text(texts: &[&'static str], number: u32) -> Option<&'static str>
    ensures { option_map (λ text. text.now) result
        ≡ numbered_text (map (λ text. text.now) texts.now) number }
{
    if number == 0 {
        return None;
    }
    texts.get(number as usize - 1).copied()
}

// Runs `explain`, which prints the words of a fault.
pub(crate) fn explain<'a, W: Write>(words: &str, out: &mut W) -> Result<(), ProgramFault<'a>>
    ensures printed { IfOk result (λ _.
        Appends (W.contents out.old) (W.contents out.new) (words.now ++ 10 ∷ [])) }
    ensures fault { IfErr result (λ fault. fault ≡ ProgramFault.CannotWrite) }
    ensures front { IfErr result (λ _.
        WritesFront (W.contents out.old) (W.contents out.new) (words.now ++ 10 ∷ [])) }
{
    match print_words(words, out) {
        Ok(()) => Ok(()),
        Err(_) => Err(ProgramFault::CannotWrite),
    }
}

// Prints words as a line.
fn print_words<W: Write>(words: &str, out: &mut W) -> io::Result<()>
    ensures ok { OnOk result
        (Appends (W.contents out.old) (W.contents out.new) (words.now ++ 10 ∷ [])) }
    ensures err { OnErr result
        (WritesFront (W.contents out.old) (W.contents out.new) (words.now ++ 10 ∷ [])) }
{
    write_text(out, words.as_bytes())?;
    write_text(out, b"\n")
}
