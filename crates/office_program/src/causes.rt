// What is written about the cause of a fault, after its line, to a terminal or to a journal.
ghost use Rattle.std.specs.Prelude.{◌≡◌, ◌⊎◌, IsTrue, true};
ghost use Rattle.office_check.specs.Names.{printed_name};
ghost use Rattle.office_program.specs.Causes.{cause_name, database_path, input_name};
ghost use Rattle.office_program.specs.Causes.{instance_path, solution_path, source_name};

use crate::cause_lines::{Cause, Source};
use crate::explaining::fault_words;
use crate::faults::ProgramFault;
use crate::readers::TextReader;
use crate::sources::is_stdin;
use crate::surroundings::{FoundKind, Surroundings};
use crate::texts::Texts;
use crate::words::Task;
use office_files::{FaultKind, FileFault, instance_text};
use office_http::StoreFault;
use office_model::kind_number;
use sqlite::Error;
use std::io;

// Writes the cause of a task's fault, if a terminal or a journal shows it.
pub(crate) fn announce_cause<H: Surroundings, T: Texts>(
    host: &H,
    files: &T,
    task: &Task,
    fault: &ProgramFault<'_>,
)
    requires { H.shows host.now true ⊎ H.logs host.now true
        → IsTrue (H.allows host.now (cause_name task.now fault.now)) }
{
    if host.is_terminal() || host.is_journal() {
        note_cause(host, files, task, fault);
    }
}

// Writes the line of a fault's cause, if there is more to say about it.
fn note_cause<H: Surroundings, T: Texts>(host: &H, files: &T, task: &Task, fault: &ProgramFault<'_>)
    requires { IsTrue (H.allows host.now (cause_name task.now fault.now)) }
{
    match fault {
        ProgramFault::CannotRead(path) => note_unread(host, files, input_of(task, path)),
        ProgramFault::Instance(fault) => {
            note_faulty(host, files, input_of(task, instance_of(task)), *fault);
        }
        ProgramFault::Solution(fault) => {
            note_faulty(host, files, input_of(task, solution_of(task)), *fault);
        }
        ProgramFault::SolutionAt(path, fault) => {
            note_faulty(host, files, input_of(task, path), *fault);
        }
        ProgramFault::CannotOpen(error) => note_unopened(host, files, database_of(task), *error),
        ProgramFault::Store(fault) => note_refused(host, database_of(task), *fault),
        ProgramFault::CannotWrite => {
            host.note_cause(Source::Stdout, &Cause::Plain("closed, or its disk is full"));
        }
        ProgramFault::NoExam(_)
        | ProgramFault::NoPublication
        | ProgramFault::CannotListen
        | ProgramFault::NoMemory => {}
    }
}

// Returns what a task reads by this path.
fn input_of<'a>(task: &Task, path: &'a str) -> Source<'a>
    ensures { source_name result ≡ input_name task.now path.now }
{
    match task {
        Task::Load(..) => Source::File(path),
        _ if is_stdin(path) => Source::Stdin,
        _ => Source::File(path),
    }
}

// Writes why an input can't be read.
fn note_unread<H: Surroundings, T: Texts>(host: &H, files: &T, input: Source<'_>)
    requires { IsTrue (H.allows host.now (source_name input)) }
{
    match try_input(host, files, input) {
        Ok(()) => host.note_cause(input, &Cause::Plain("reading failed, or didn't end")),
        Err(reason) => host.note_cause(input, &Cause::Unopened(&reason)),
    }
}

// Reads a byte of an input, if that is a file.
fn try_input<H: Surroundings, T: Texts>(host: &H, files: &T, input: Source<'_>) -> io::Result<()> {
    match input {
        Source::Stdin | Source::Stdout => Ok(()),
        Source::File(path) => try_reading(host, files, path),
    }
}

// Reads a byte of a file or a folder. Other files, such as pipes, may not be opened twice.
fn try_reading<H: Surroundings, T: Texts>(host: &H, files: &T, path: &str) -> io::Result<()> {
    let found = host.look_at(path)?;
    if found.kind != FoundKind::Other {
        let mut byte = [0u8; 1];
        let _ = files.open_text(path)?.read_text(&mut byte)?;
    }
    Ok(())
}

// Returns the path of the instance's file.
fn instance_of(task: &Task) -> &str
    ensures { result.now ≡ instance_path task.now }
{
    match task {
        Task::Check(instance, _)
        | Task::CheckAs(instance, _, _)
        | Task::CheckAll(instance, _, _)
        | Task::Places(instance, _, _)
        | Task::Compare(instance, _, _)
        | Task::Load(_, instance) => instance,
        _ => "",
    }
}

// Returns the path of the solution's file.
fn solution_of(task: &Task) -> &str
    ensures { result.now ≡ solution_path task.now }
{
    match task {
        Task::Check(_, solution) | Task::CheckAs(_, solution, _) | Task::Places(_, solution, _) => {
            solution
        }
        _ => "",
    }
}

// Returns the path of the database's file.
fn database_of(task: &Task) -> &str
    ensures { result.now ≡ database_path task.now }
{
    match task {
        Task::Load(database, _) | Task::Serve(database, _) | Task::Export(database) => database,
        _ => "",
    }
}

// Writes a fault of a file in words, with the text of its line if the file can be read again.
fn note_faulty<H: Surroundings, T: Texts>(host: &H, files: &T, input: Source<'_>, fault: FileFault)
    requires { IsTrue (H.allows host.now (source_name input)) }
{
    let FileFault { line, what } = fault;
    if line == 0 {
        return host.note_cause(input, &Cause::Plain(words_in_short(what)));
    }
    let text = text_again(host, files, input);
    match line_of(&text, line) {
        Some(found) => {
            host.note_cause(input, &Cause::Shown(line, words_with(what, found), found));
        }
        None => {
            let (words, mark) = (words_in_short(what), mark_before(input, fault));
            host.note_cause(input, &Cause::Line(line, words, mark));
        }
    }
}

// Says that a byte order mark may be what is wrong with the first line of standard input, which
// isn't kept.
fn mark_before(input: Source<'_>, fault: FileFault) -> &'static str {
    match (input, fault.line, fault.what) {
        (Source::Stdin, 1, FaultKind::MissingSection | FaultKind::BadNumber) => {
            ", or a byte order mark is in front of the text"
        }
        _ => "",
    }
}

// Returns the short words for a fault of a file.
fn words_in_short(what: FaultKind) -> &'static str {
    match fault_words("file", u32::from(kind_number(what))) {
        Some(words) => match words.split_once(": ") {
            Some((short, _)) => short,
            None => words,
        },
        None => "",
    }
}

// Returns the text of an input; empty if it can't be read again.
fn text_again<H: Surroundings, T: Texts>(host: &H, files: &T, input: Source<'_>) -> Vec<u8> {
    let again = match input {
        Source::Stdin | Source::Stdout => None,
        Source::File(path) => read_again(host, files, path),
    };
    again.unwrap_or(Vec::new(host.allocator()))
}

// Returns the text of a file, if it can be read again.
fn read_again<H: Surroundings, T: Texts>(host: &H, files: &T, path: &str) -> Option<Vec<u8>> {
    if host.look_at(path).ok()?.kind != FoundKind::File {
        return None;
    }
    let mut file = files.open_text(path).ok()?;
    instance_text(host.allocator(), &mut file).ok()
}

// Returns the line of this number, from 1, if the text has it and it isn't blank.
fn line_of(text: &[u8], number: u32) -> Option<&[u8]> {
    let before = number.checked_sub(1)?;
    let found = text.split(|byte| *byte == b'\n').nth(before as usize)?;
    if found.trim_ascii_end().is_empty() {
        None
    } else {
        Some(found)
    }
}

// Returns the short words for a fault of a file, or says that it begins with a byte order mark, or
// that a session and a solution are swapped.
fn words_with(what: FaultKind, line: &[u8]) -> &'static str {
    if line.starts_with(BYTE_ORDER_MARK) {
        return "a byte order mark is in front of the text";
    }
    if what == FaultKind::MissingSection && is_place(line) {
        return "a solution, not a session";
    }
    if what == FaultKind::BadNumber && line.starts_with(b"[Exams") {
        return "a session, not a solution";
    }
    words_in_short(what)
}

// Returns whether a line has a period and a room, like those of solutions.
fn is_place(line: &[u8]) -> bool {
    let commas = line.iter().filter(|byte| **byte == b',').count();
    commas == 1
        && line
            .iter()
            .all(|byte| byte.is_ascii_digit() || b", \t\r".contains(byte))
}

// What some programs put in front of a text in UTF-8.
const BYTE_ORDER_MARK: &[u8] = b"\xef\xbb\xbf";

// Writes why a database can't be opened.
fn note_unopened<H: Surroundings, T: Texts>(host: &H, files: &T, path: &str, error: Error)
    requires { IsTrue (H.allows host.now (printed_name path.now)) }
{
    match try_reading(host, files, path) {
        Ok(()) => host.note_cause(Source::File(path), &Cause::NoDatabase(error)),
        Err(reason) => host.note_cause(Source::File(path), &Cause::Unopened(&reason)),
    }
}

// Writes why an office refuses.
fn note_refused<H: Surroundings>(host: &H, path: &str, fault: StoreFault)
    requires { IsTrue (H.allows host.now (printed_name path.now)) }
{
    if let Some(words) = fault_words("store", u32::from(fault.number())) {
        host.note_cause(Source::File(path), &Cause::Plain(words));
    }
}
