// `compare`: compares two solutions by the files of three paths.
ghost use Rattle.std.specs.Prelude.{◌≡◌, ◌≢◌, ◌∷◌, ◌⊎◌, [], IfErr, IfOk, false, true};
ghost use Rattle.std.specs.Io.KnownBytes.{Keeps};
ghost use Rattle.office_check.specs.Compare.{Compares, ComparesFront};
ghost use Rattle.office_program.specs.FaultLines.{fault_line};
ghost use Rattle.office_program.specs.Sources.{IsFile, IsReaderOf, MayNotOpen, OfThreeFiles, is_stdin};
ghost use Rattle.office_program.specs.Sources.{is_stdin_shared, source_at};
ghost use Rattle.office_program.specs.TaskFaults.{IsCompareCause, IsOfCompare, compare_line};

use crate::faults::{ProgramFault, fault_on};
use crate::inputs::compare_readers;
use crate::readers::TextReader;
use crate::sources::{file_at, is_stdin};
use crate::texts::Texts;
use office_check::{CheckFault, CompareFault};
use std::alloc::Global;
use std::io::Write;

// Runs `compare`.
pub(crate) fn compare<'a, T: Texts, I: TextReader, W: Write>(
    alloc: Global,
    files: &T,
    stdin: &mut I,
    session: &'a str,
    before: &'a str,
    after: &'a str,
    out: &mut W,
) -> Result<(), ProgramFault<'a>>
    ensures compared { IfOk result (λ _. OfThreeFiles
        (source_at (I.remaining stdin.old) (T.known files.now) session.now)
        (source_at (I.remaining stdin.old) (T.known files.now) before.now)
        (source_at (I.remaining stdin.old) (T.known files.now) after.now)
        (λ one two three. Compares one two three (W.contents out.old) (W.contents out.new))) }
    // A line that names a file names one of the three.
    ensures fault { IfErr result (IsOfCompare session.now before.now after.now
        (source_at (I.remaining stdin.old) (T.known files.now))) }
    ensures unwritten { IfErr result (λ fault. fault ≢ ProgramFault.CannotWrite
        → Keeps (W.contents out.old) (W.contents out.new)) }
    ensures front { IfErr result (λ fault. fault ≡ ProgramFault.CannotWrite → OfThreeFiles
        (source_at (I.remaining stdin.old) (T.known files.now) session.now)
        (source_at (I.remaining stdin.old) (T.known files.now) before.now)
        (source_at (I.remaining stdin.old) (T.known files.now) after.now)
        (λ one two three. ComparesFront one two three
        (W.contents out.old) (W.contents out.new))) }
    ensures unread { IsFile session.now × IsFile before.now × IsFile after.now
        → I.remaining stdin.new ≡ I.remaining stdin.old }
{
    match compare_sources(alloc, files, stdin, session, before, after, out) {
        Ok(()) => Ok(()),
        Err(fault) => Err(fault_of_compare(fault, session, before, after)),
    }
}

// Returns the program's fault for a fault of `compare` on three files.
fn fault_of_compare<'a>(
    fault: CompareFault,
    session: &'a str,
    before: &'a str,
    after: &'a str,
) -> ProgramFault<'a>
    ensures line { fault_line result ≡ compare_line session.now before.now after.now fault }
    ensures write { fault ≡ CompareFault.Check CheckFault.Write
        → result ≡ ProgramFault.CannotWrite }
    ensures only { result ≡ ProgramFault.CannotWrite
        → fault ≡ CompareFault.Check CheckFault.Write }
{
    match fault {
        CompareFault::Check(CheckFault::Solution(fault)) => ProgramFault::SolutionAt(before, fault),
        CompareFault::Check(fault) => fault_on(fault, session, before),
        CompareFault::ReadAfter => ProgramFault::CannotRead(after),
        CompareFault::After(fault) => ProgramFault::SolutionAt(after, fault),
    }
}

// Compares two solutions by the files of three paths, of which one may be standard input. It chooses
// the readers, and opens what is a file, before it reads.
fn compare_sources<T: Texts, I: TextReader, W: Write>(
    alloc: Global,
    files: &T,
    stdin: &mut I,
    session: &str,
    before: &str,
    after: &str,
    out: &mut W,
) -> Result<(), CompareFault>
    ensures compared { IfOk result (λ _. OfThreeFiles
        (source_at (I.remaining stdin.old) (T.known files.now) session.now)
        (source_at (I.remaining stdin.old) (T.known files.now) before.now)
        (source_at (I.remaining stdin.old) (T.known files.now) after.now)
        (λ one two three. Compares one two three (W.contents out.old) (W.contents out.new))) }
    ensures refused { IfErr result (λ fault.
        is_stdin_shared (session.now ∷ before.now ∷ after.now ∷ []) ≡ false
        → IsCompareCause
        (source_at (I.remaining stdin.old) (T.known files.now) session.now)
        (source_at (I.remaining stdin.old) (T.known files.now) before.now)
        (source_at (I.remaining stdin.old) (T.known files.now) after.now) fault) }
    ensures unwritten { IfErr result (λ fault. fault ≢ CompareFault.Check CheckFault.Write
        → Keeps (W.contents out.old) (W.contents out.new)) }
    ensures front { IfErr result (λ fault. fault ≡ CompareFault.Check CheckFault.Write
        → OfThreeFiles
        (source_at (I.remaining stdin.old) (T.known files.now) session.now)
        (source_at (I.remaining stdin.old) (T.known files.now) before.now)
        (source_at (I.remaining stdin.old) (T.known files.now) after.now)
        (λ one two three. ComparesFront one two three
        (W.contents out.old) (W.contents out.new))) }
    ensures unread { IsFile session.now × IsFile before.now × IsFile after.now
        → I.remaining stdin.new ≡ I.remaining stdin.old }
{
    if is_stdin(session) {
        let mut before_file = opened(files, before, CompareFault::Check(CheckFault::ReadSolution))?;
        let mut after_file = opened(files, after, CompareFault::ReadAfter)?;
        return compare_readers(alloc, stdin, &mut before_file, &mut after_file, out);
    }
    let mut session_file = opened(
        files,
        session,
        CompareFault::Check(CheckFault::ReadInstance),
    )?;
    if is_stdin(before) {
        let mut after_file = opened(files, after, CompareFault::ReadAfter)?;
        return compare_readers(alloc, &mut session_file, stdin, &mut after_file, out);
    }
    let mut before_file = opened(files, before, CompareFault::Check(CheckFault::ReadSolution))?;
    if is_stdin(after) {
        return compare_readers(alloc, &mut session_file, &mut before_file, stdin, out);
    }
    let mut after_file = opened(files, after, CompareFault::ReadAfter)?;
    compare_readers(
        alloc,
        &mut session_file,
        &mut before_file,
        &mut after_file,
        out,
    )
}

// Opens the file of a path. Standard input is none.
fn opened<T: Texts>(files: &T, path: &str, fault: CompareFault) -> Result<T::Text, CompareFault>
    ensures named { IfOk result (λ _. is_stdin path.now ≡ false) }
    ensures opened { IfOk result (λ file.
        IsReaderOf (T.known files.now path.now) (T.Text.remaining file)) }
    ensures err { IfErr result (λ why. why ≡ fault) }
    ensures failed { IfErr result (λ _.
        (is_stdin path.now ≡ true) ⊎ MayNotOpen (T.known files.now path.now)) }
{
    match file_at(files, path, CheckFault::ReadSolution) {
        Ok(file) => Ok(file),
        Err(_) => Err(fault),
    }
}
