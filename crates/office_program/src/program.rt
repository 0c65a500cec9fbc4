// The whole program, over the machine that it runs on.
ghost use Rattle.std.specs.Prelude.{◌≡◌, ◌↔◌, ◌⊎◌, ◌++◌, ◌∷◌, [], IfErr, IfOk, IsTrue};
ghost use Rattle.std.specs.Prelude.{map, string_bytes, true};
ghost use Rattle.std.specs.IoError.{error_kind};
ghost use Rattle.std.specs.declared.io.ErrorKind.TheVariants as failure;
ghost use Rattle.office_program.specs.Causes.{cause_name};
ghost use Rattle.office_program.specs.FaultLines.{fault_line, not_text_line};
ghost use Rattle.office_program.specs.Program.{IsTask};
ghost use Rattle.office_program.specs.Runs.{Does, Fails, Refuses, Runs, RunsTask};
ghost use Rattle.office_program.specs.Serve.{AreOfPorts};
ghost use Rattle.office_program.specs.Surroundings.{MayNoteWork};
ghost use Rattle.office_program.specs.Tasks.{IsOfTask};
ghost use Rattle.office_program.specs.declared.words.Task.{Task};

use crate::causes::announce_cause;
use crate::checking::{check, check_as};
use crate::comparing::compare;
use crate::ending::Ending;
use crate::explaining::explain;
use crate::exporting::export;
use crate::faults::ProgramFault;
use crate::judging::check_all;
use crate::lines::Lines;
use crate::listing::list_places;
use crate::loading::load;
use crate::machine::{Kinds, Machine, Worldly};
use crate::serving::open_and_serve;
use crate::surroundings::Surroundings;
use crate::words::{Task, read_words};
use clap::Error;
use clap::error::ErrorKind;
use office_check::Report;
use std::io::{self, Write};

/// Does what the words say on a machine; the first word is the program's name. The lines of faults,
/// including those of connections, and the text of a mistake are written to the machine's writer of
/// faults, everything else to its other one.
pub fn run_words<'a, K: Kinds>(machine: &mut Machine<'a, K>, words: &[String]) -> Ending
    // Lines about a task's work may be written, where the host writes them, only if standard error
    // may be a terminal: that a file which is loaded or opened is large, or a database in which a
    // draft is published, that a database is new, or that its tables become version 2. Of the cause
    // of a fault a line may be written that begins with the name of what the fault is of, only if
    // standard error may be a terminal or go to a journal. No other line is.
    requires works { (task : Task) → IsTask (map string_bytes words.now) task
        → MayNoteWork (K.Host.finds machine.old.host.now) (K.Host.shows machine.old.host.now)
        (K.Host.allows machine.old.host.now) task }
    requires causes { (task : Task) → IsTask (map string_bytes words.now) task
        → (shown : ProgramFault)
        → IsOfTask (K.Stdin.remaining machine.old.stdin) (K.Files.known machine.old.files.now)
        task shown
        → K.Host.shows machine.old.host.now true ⊎ K.Host.logs machine.old.host.now true
        → IsTrue (K.Host.allows machine.old.host.now (cause_name task shown)) }
    // What the run makes of the machine, whatever its words and however it ends.
    ensures { Runs K.Store.Store (AreOfPorts K.Net.opens K.Net.closes K.Net.Opened.accepts
        K.Net.Opened.takes_back K.Net.Opened.Reader.remaining K.Net.Opened.Writer.contents)
        K.Err.Lines K.Err.contents (⟦<Machine<'a, K> as Worldly>⟧.world machine.old)
        (⟦<Machine<'a, K> as Worldly>⟧.world machine.new) (map string_bytes words.now) result }
{
    match read_words(machine.host.allocator(), words) {
        Ok(task) => run_task(machine, &task),
        Err(error) => refuse_words(machine, &error),
    }
}

// Does a task. If it fails, it tries to write the line of its fault, and then of the fault's cause.
fn run_task<'a, K: Kinds>(machine: &mut Machine<'a, K>, task: &Task) -> Ending
    requires works { MayNoteWork (K.Host.finds machine.old.host.now)
        (K.Host.shows machine.old.host.now) (K.Host.allows machine.old.host.now) task.now }
    requires causes { (shown : ProgramFault)
        → IsOfTask (K.Stdin.remaining machine.old.stdin) (K.Files.known machine.old.files.now)
        task.now shown
        → K.Host.shows machine.old.host.now true ⊎ K.Host.logs machine.old.host.now true
        → IsTrue (K.Host.allows machine.old.host.now (cause_name task.now shown)) }
    ensures { RunsTask K.Store.Store (AreOfPorts K.Net.opens K.Net.closes K.Net.Opened.accepts
        K.Net.Opened.takes_back K.Net.Opened.Reader.remaining K.Net.Opened.Writer.contents)
        K.Err.Lines K.Err.contents (⟦<Machine<'a, K> as Worldly>⟧.world machine.old)
        (⟦<Machine<'a, K> as Worldly>⟧.world machine.new) task.now result }
{
    let (host, files) = (machine.host, machine.files);
    match do_task(machine, task) {
        Ok(ending) => ending,
        Err(fault) => {
            let ending = complain(&fault, &mut machine.err);
            announce_cause(host, files, task, &fault);
            ending
        }
    }
}

// Does a task with the parts of the machine that it uses.
fn do_task<'a, 't, K: Kinds>(
    machine: &mut Machine<'a, K>,
    task: &'t Task,
) -> Result<Ending, ProgramFault<'t>>
    requires works { MayNoteWork (K.Host.finds machine.old.host.now)
        (K.Host.shows machine.old.host.now) (K.Host.allows machine.old.host.now) task.now }
    ensures does { IfOk result (λ ending. Does K.Store.Store (AreOfPorts K.Net.opens K.Net.closes
        K.Net.Opened.accepts K.Net.Opened.takes_back K.Net.Opened.Reader.remaining
        K.Net.Opened.Writer.contents) K.Err.Lines K.Err.contents
        (⟦<Machine<'a, K> as Worldly>⟧.world machine.old)
        (⟦<Machine<'a, K> as Worldly>⟧.world machine.new) ending task.now) }
    ensures fails { IfErr result (Fails K.Store.Store (AreOfPorts K.Net.opens K.Net.closes
        K.Net.Opened.accepts K.Net.Opened.takes_back K.Net.Opened.Reader.remaining
        K.Net.Opened.Writer.contents) K.Err.Lines K.Err.contents
        (⟦<Machine<'a, K> as Worldly>⟧.world machine.old)
        (⟦<Machine<'a, K> as Worldly>⟧.world machine.new) task.now) }
{
    let (alloc, host, files) = (machine.host.allocator(), machine.host, machine.files);
    let databases = &mut machine.databases;
    let ports = &mut machine.ports;
    let stdin = &mut machine.stdin;
    let out = &mut machine.out;
    let err = &mut machine.err;
    match task {
        Task::Check(instance, solution) => {
            match check(alloc, files, stdin, &Report, instance, solution, out) {
                Ok(status) => Ok(Ending::quiet(status)),
                Err(fault) => Err(fault),
            }
        }
        Task::CheckAs(instance, solution, form) => {
            match check_as(alloc, files, stdin, instance, solution, *form, out) {
                Ok(status) => Ok(Ending::quiet(status)),
                Err(fault) => Err(fault),
            }
        }
        Task::CheckAll(session, solutions, form) => {
            check_all(alloc, files, stdin, session, solutions, *form, out, err)
        }
        Task::Places(instance, solution, exam) => {
            match list_places(alloc, files, stdin, instance, solution, *exam, out) {
                Ok(()) => Ok(Ending::quiet(0)),
                Err(fault) => Err(fault),
            }
        }
        Task::Compare(session, before, after) => {
            match compare(alloc, files, stdin, session, before, after, out) {
                Ok(()) => Ok(Ending::quiet(0)),
                Err(fault) => Err(fault),
            }
        }
        Task::Load(database, instance) => {
            match load(host, files, databases, database, instance, out) {
                Ok(()) => Ok(Ending::quiet(0)),
                Err(fault) => Err(fault),
            }
        }
        Task::Serve(database, terms) => {
            match open_and_serve(host, ports, databases, database, *terms, out, err) {
                Ok(ending) => Ok(ending),
                Err(fault) => Err(fault),
            }
        }
        Task::Export(database) => match export(host, databases, database, out) {
            Ok(()) => Ok(Ending::quiet(0)),
            Err(fault) => Err(fault),
        },
        Task::Explain(words) => match explain(words, out) {
            Ok(()) => Ok(Ending::quiet(0)),
            Err(fault) => Err(fault),
        },
    }
}

// Answers words that are no command: a mistake in them, or a call for help.
fn refuse_words<'a, K: Kinds>(machine: &mut Machine<'a, K>, error: &Error) -> Ending
    ensures { Refuses K.Store.Store (AreOfPorts K.Net.opens K.Net.closes K.Net.Opened.accepts
        K.Net.Opened.takes_back K.Net.Opened.Reader.remaining K.Net.Opened.Writer.contents)
        K.Err.Lines K.Err.contents (⟦<Machine<'a, K> as Worldly>⟧.world machine.old)
        (⟦<Machine<'a, K> as Worldly>⟧.world machine.new) error.now result }
{
    if error.kind() == ErrorKind::OutOfMemory {
        return complain(&ProgramFault::NoMemory, &mut machine.err);
    }
    if error.use_stderr() {
        return Ending {
            status: 2,
            is_err_written: machine.err.tell_mistake(error),
        };
    }
    match write!(machine.out, "{error}") {
        Ok(()) => Ending::quiet(0),
        Err(_) => complain(&ProgramFault::CannotWrite, &mut machine.err),
    }
}

// Ends with a fault. If its line can't be printed, nothing more can be done.
fn complain<E: Lines>(fault: &ProgramFault<'_>, err: &mut E) -> Ending
    ensures status { result.status ≡ 1 }
    ensures err_line { E.tells err.old (fault_line fault.now ++ 10 ∷ []) result.is_err_written
        err.new }
{
    Ending {
        status: 1,
        is_err_written: err.tell(fault),
    }
}

/// Answers a command line that is not UTF-8, or that memory ran out for.
pub fn refuse_arguments<E: Lines>(fault: &io::Error, err: &mut E) -> Ending
    ensures within { (result.status ≡ 1) ⊎ (result.status ≡ 2) }
    // The status is 1 for out of memory, else 2.
    ensures memory { (result.status ≡ 1) ↔ (error_kind fault.now ≡ failure.OutOfMemory) }

    // The line of either was tried to be written, and the ending says whether it was written whole.
    ensures no_memory { result.status ≡ 1 → E.tells err.old
        (fault_line ProgramFault.NoMemory ++ 10 ∷ []) result.is_err_written err.new }
    ensures no_texts { result.status ≡ 2 → E.tells err.old (not_text_line ++ 10 ∷ [])
        result.is_err_written err.new }
{
    if fault.kind() == io::ErrorKind::OutOfMemory {
        return complain(&ProgramFault::NoMemory, err);
    }
    Ending {
        status: 2,
        is_err_written: err.tell_not_text(),
    }
}
