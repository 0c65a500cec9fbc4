// `check-all`: judges many solutions of one session by the files of their paths.
ghost use Rattle.std.specs.Prelude.{◌≡◌, ◌≢◌, ℕ, IfErr, IfOk, List, OnErr};
ghost use Rattle.std.specs.Prelude.{◌&&◌, ◌||◌, Some, false, map, option_map, string_bytes, true};
ghost use Rattle.std.specs.Io.KnownBytes.{Keeps};
ghost use Rattle.office_files.specs.InstanceText.{InstanceText};
ghost use Rattle.office_program.specs.CheckAll.{AddsOutcome, HasOutcomes, IsLineOf, JudgesAll};
ghost use Rattle.office_program.specs.CheckAll.{IsInstanceCause, IsSolutionCause, StopsAll};
ghost use Rattle.office_program.specs.CheckAll.{StopsAmong, StopsAt, status_of_all};
ghost use Rattle.office_program.specs.Sources.{IsFile, IsTextOf, source_at};
ghost use Rattle.office_program.specs.TaskFaults.{IsOfCheckAll};

use crate::ending::Ending;
use crate::faults::{ProgramFault, fault_of_input, fault_of_solution};
use crate::inputs::{judge_of, verdict_of};
use crate::lines::Lines;
use crate::readers::TextReader;
use crate::sources::is_stdin;
use crate::texts::Texts;
use office_check::{Judge, LineForm};
use office_files::InputFault;
use office_output::write_text;
use std::alloc::Global;
use std::io::{self, Write};

// The outcome of the solutions so far.
#[derive(Clone, Copy)]
pub(crate) struct Found {
    pub(crate) has_fault: bool,
    pub(crate) has_breach: bool,
    // Whether the line of each fault was written.
    pub(crate) is_err_written: bool,
}

// The line of a solution that was judged.
#[derive(Drop)]
pub(crate) struct VerdictLine {
    pub(crate) text: String,
    pub(crate) has_breach: bool,
}

// Runs `check-all`. It opens one solution after another; a fault of one doesn't affect the others.
pub(crate) fn check_all<'a, T: Texts, I: TextReader, W: Write, E: Lines>(
    alloc: Global,
    files: &T,
    stdin: &mut I,
    session: &'a str,
    solutions: &[String],
    form: LineForm,
    out: &mut W,
    err: &mut E,
) -> Result<Ending, ProgramFault<'a>>
    ensures judged { IfOk result (λ ending. JudgesAll E.tells session.now (T.known files.now) form
        (map string_bytes solutions.now) (I.remaining stdin.old) (I.remaining stdin.new)
        (W.contents out.old) (W.contents out.new) err.old err.new
        ending.is_err_written ending.status) }

    // A line that names a file names the session's.
    ensures fault { IfErr result (IsOfCheckAll session.now
        (source_at (I.remaining stdin.old) (T.known files.now))) }
    ensures unwritten { IfErr result (λ fault. fault ≢ ProgramFault.CannotWrite
        → Keeps (W.contents out.old) (W.contents out.new)) }
    ensures front { IfErr result (λ fault. fault ≡ ProgramFault.CannotWrite
        → StopsAll E.tells session.now (T.known files.now) form (map string_bytes solutions.now)
        (I.remaining stdin.old) (W.contents out.old) (W.contents out.new) err.old err.new) }
    ensures untold { IfErr result (λ fault. fault ≢ ProgramFault.CannotWrite → err.new ≡ err.old) }
{
    let judge = match judge_at(alloc, files, stdin, session, solutions.len()) {
        Ok(judge) => judge,
        Err(fault) => return Err(fault_of_input(fault, session)),
    };
    match judge_each(alloc, files, stdin, &judge, solutions, form, out, err) {
        Ok(found) => Ok(Ending {
            status: status_of(found),
            is_err_written: found.is_err_written,
        }),
        Err(_) => Err(ProgramFault::CannotWrite),
    }
}

// Reads the session of this path, for this many solutions; `-` is standard input.
fn judge_at<T: Texts, I: TextReader>(
    alloc: Global,
    files: &T,
    stdin: &mut I,
    path: &str,
    solutions: usize,
) -> Result<Judge, InputFault>
    ensures spelled { IfOk result (λ judge. (text : List ℕ)
        × IsTextOf (source_at (I.remaining stdin.old) (T.known files.now) path.now) text
        × InstanceText text judge.0 judge.1) }
    ensures refused { IfErr result (IsInstanceCause
        (source_at (I.remaining stdin.old) (T.known files.now) path.now)) }
    ensures unread { IsFile path.now → I.remaining stdin.new ≡ I.remaining stdin.old }
{
    if is_stdin(path) {
        return judge_of(alloc, stdin, solutions);
    }
    let Ok(mut file) = files.open_text(path) else {
        return Err(InputFault::Read);
    };
    judge_of(alloc, &mut file, solutions)
}

// Returns the exit status.
fn status_of(found: Found) -> u8
    ensures { result ≡ status_of_all found.has_fault found.has_breach }
{
    if found.has_fault {
        1
    } else if found.has_breach {
        3
    } else {
        0
    }
}

// Judges solutions, one after another. Fails if a line can't be printed.
fn judge_each<T: Texts, I: TextReader, W: Write, E: Lines>(
    alloc: Global,
    files: &T,
    stdin: &mut I,
    judge: &Judge,
    solutions: &[String],
    form: LineForm,
    out: &mut W,
    err: &mut E,
) -> io::Result<Found>
    ensures ok { IfOk result (HasOutcomes E.tells judge.now.0 judge.now.1 (T.known files.now) form
        (map string_bytes solutions.now) (I.remaining stdin.old) (I.remaining stdin.new)
        (W.contents out.old) (W.contents out.new) err.old err.new) }
    ensures err { OnErr result (StopsAmong E.tells judge.now.0 judge.now.1 (T.known files.now) form
        (map string_bytes solutions.now) (I.remaining stdin.old)
        (W.contents out.old) (W.contents out.new) err.old err.new) }
{
    let mut found = Found {
        has_fault: false,
        has_breach: false,
        is_err_written: true,
    };
    for path in solutions {
        found = judge_one(alloc, files, stdin, judge, path, form, found, out, err)?;
    }
    Ok(found)
}

// Judges one more solution.
fn judge_one<T: Texts, I: TextReader, W: Write, E: Lines>(
    alloc: Global,
    files: &T,
    stdin: &mut I,
    judge: &Judge,
    path: &str,
    form: LineForm,
    found: Found,
    out: &mut W,
    err: &mut E,
) -> io::Result<Found>
    ensures ok { IfOk result (AddsOutcome E.tells judge.now.0 judge.now.1 (T.known files.now) form
        path.now found (I.remaining stdin.old) (I.remaining stdin.new)
        (W.contents out.old) (W.contents out.new) err.old err.new) }
    ensures err { OnErr result (StopsAt judge.now.0 judge.now.1 (T.known files.now) form path.now
        (I.remaining stdin.old) (W.contents out.old) (W.contents out.new) × (err.new ≡ err.old)) }
{
    match line_at(alloc, files, stdin, judge, path, form) {
        Ok(line) => {
            write_text(out, line.text.as_bytes())?;
            Ok(with_verdict(found, line.has_breach))
        }
        Err(fault) => {
            let is_err_written = err.tell_of(path, &fault_of_solution(fault, path));
            Ok(with_fault(found, is_err_written))
        }
    }
}

// Counts one more solution that was judged.
fn with_verdict(found: Found, has_breach: bool) -> Found
    ensures { result ≡ record {
      has_fault = found.has_fault;
      has_breach = found.has_breach || has_breach;
      is_err_written = found.is_err_written;
    } }
{
    Found {
        has_breach: found.has_breach || has_breach,
        ..found
    }
}

// Counts one more solution that has a fault.
fn with_fault(found: Found, is_err_written: bool) -> Found
    ensures { result ≡ record {
      has_fault = true;
      has_breach = found.has_breach;
      is_err_written = found.is_err_written && is_err_written;
    } }
{
    Found {
        has_fault: true,
        is_err_written: found.is_err_written && is_err_written,
        ..found
    }
}

// Returns the line of the solution of this path; `-` is standard input.
fn line_at<T: Texts, I: TextReader>(
    alloc: Global,
    files: &T,
    stdin: &mut I,
    judge: &Judge,
    path: &str,
    form: LineForm,
) -> Result<VerdictLine, InputFault>
    ensures ok { IfOk result (IsLineOf judge.now.0 judge.now.1 form path.now
        (source_at (I.remaining stdin.old) (T.known files.now) path.now)) }
    ensures refused { IfErr result (IsSolutionCause judge.now.0
        (source_at (I.remaining stdin.old) (T.known files.now) path.now)) }
    ensures unread { IsFile path.now → I.remaining stdin.new ≡ I.remaining stdin.old }
{
    if is_stdin(path) {
        return line_by(alloc, stdin, judge, path, form);
    }
    let Ok(mut file) = files.open_text(path) else {
        return Err(InputFault::Read);
    };
    line_by(alloc, &mut file, judge, path, form)
}

// Returns the line of the solution of a reader.
fn line_by<Q: TextReader>(
    alloc: Global,
    reader: &mut Q,
    judge: &Judge,
    path: &str,
    form: LineForm,
) -> Result<VerdictLine, InputFault>
    ensures ok { IfOk result (IsLineOf judge.now.0 judge.now.1 form path.now
        (option_map Some (Q.remaining reader.old))) }
    ensures refused { IfErr result (IsSolutionCause judge.now.0
        (option_map Some (Q.remaining reader.old))) }
{
    let verdict = verdict_of(alloc, judge, reader)?;
    Ok(VerdictLine {
        text: verdict.line(alloc, path, form)?,
        has_breach: verdict.has_breach(),
    })
}
