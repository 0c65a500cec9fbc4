// Which of the paths in the words mean standard input, and tasks on the files of two paths.
ghost use Rattle.std.specs.Prelude.{◌≡◌, ◌≢◌, ◌∷◌, ◌⊎◌, [], IfErr, IfOk, false, map, string_bytes};
ghost use Rattle.std.specs.Prelude.{true};
ghost use Rattle.std.specs.Io.KnownBytes.{Keeps};
ghost use Rattle.clap.specs.Words.{kind_of};
ghost use Rattle.clap.specs.declared.error.kind.ErrorKind.TheVariants.{InvalidValue};
ghost use Rattle.office_program.specs.Sources.{IsFile, IsReaderOf, MayNotOpen, OfFiles, is_stdin};
ghost use Rattle.office_program.specs.Sources.{is_stdin_shared, source_at};
ghost use Rattle.office_program.specs.TaskFaults.{IsCheckCause};

use crate::inputs::answer_of;
use crate::readers::TextReader;
use crate::texts::Texts;
use clap::error::ErrorKind;
use clap::{Command, Error};
use office_check::{CheckFault, SolutionTask};
use std::alloc::{AllocError, Global};
use std::io::Write;

// Returns whether a path means standard input. A file of this name is `./-`.
pub(crate) fn is_stdin(path: &str) -> bool
    ensures { result ≡ is_stdin path.now }
{
    path == "-"
}

// Returns whether both paths mean standard input.
pub(crate) fn are_both_stdin(first: &str, second: &str) -> bool
    ensures { result ≡ is_stdin_shared (first.now ∷ second.now ∷ []) }
{
    is_stdin(first) && is_stdin(second)
}

// Returns whether more than one of the paths mean standard input.
pub(crate) fn is_stdin_shared(first: &str, others: &[String]) -> bool
    ensures { result ≡ is_stdin_shared (first.now ∷ map string_bytes others.now) }
{
    let count = others.iter().filter(|path| is_stdin(path)).count();
    count > 1 || count == 1 && is_stdin(first)
}

// Returns the mistake of a command whose words name standard input twice.
pub(crate) fn shared_stdin(command: Command<'_>, name: &str) -> Result<Error, AllocError>
    ensures { IfOk result (λ e. kind_of e ≡ InvalidValue) }
{
    command.bin_name(name)?.error(
        ErrorKind::InvalidValue,
        "standard input, -, can be only one of the files",
    )
}

// Does a task on a solution by the files of two paths, of which one may be standard input. It
// chooses the readers, and opens what is a file, before it reads.
pub(crate) fn run_by_paths<K: SolutionTask, T: Texts, I: TextReader, W: Write>(
    alloc: Global,
    files: &T,
    stdin: &mut I,
    task: &K,
    instance: &str,
    solution: &str,
    out: &mut W,
) -> Result<K::Answer, CheckFault>
    ensures done { IfOk result (λ answer.
        OfFiles (source_at (I.remaining stdin.old) (T.known files.now) instance.now)
        (source_at (I.remaining stdin.old) (T.known files.now) solution.now)
        (λ session enrolled placing. K.writes task.now session enrolled placing
        (W.contents out.old) (W.contents out.new) answer)) }
    ensures refused { IfErr result (λ fault.
        is_stdin_shared (instance.now ∷ solution.now ∷ []) ≡ false
        → IsCheckCause (source_at (I.remaining stdin.old) (T.known files.now) instance.now)
        (source_at (I.remaining stdin.old) (T.known files.now) solution.now) fault) }
    ensures unwritten { IfErr result (λ fault. fault ≢ CheckFault.Write
        → Keeps (W.contents out.old) (W.contents out.new)) }
    ensures front { IfErr result (λ fault. fault ≡ CheckFault.Write
        → OfFiles (source_at (I.remaining stdin.old) (T.known files.now) instance.now)
        (source_at (I.remaining stdin.old) (T.known files.now) solution.now)
        (λ session enrolled placing. K.writes_front task.now session enrolled placing
        (W.contents out.old) (W.contents out.new))) }
    ensures unread { IsFile instance.now × IsFile solution.now
        → I.remaining stdin.new ≡ I.remaining stdin.old }
{
    if is_stdin(instance) {
        let mut solution_file = file_at(files, solution, CheckFault::ReadSolution)?;
        return answer_of(alloc, task, stdin, &mut solution_file, out);
    }
    let mut instance_file = file_at(files, instance, CheckFault::ReadInstance)?;
    if is_stdin(solution) {
        return answer_of(alloc, task, &mut instance_file, stdin, out);
    }
    let mut solution_file = file_at(files, solution, CheckFault::ReadSolution)?;
    answer_of(alloc, task, &mut instance_file, &mut solution_file, out)
}

// Opens the file of a path. Standard input, which is read once, is none.
pub(crate) fn file_at<T: Texts>(
    files: &T,
    path: &str,
    fault: CheckFault,
) -> Result<T::Text, CheckFault>
    ensures named { IfOk result (λ _. is_stdin path.now ≡ false) }
    ensures opened { IfOk result (λ file.
        IsReaderOf (T.known files.now path.now) (T.Text.remaining file)) }
    ensures err { IfErr result (λ why. why ≡ fault) }
    ensures failed { IfErr result (λ _.
        (is_stdin path.now ≡ true) ⊎ MayNotOpen (T.known files.now path.now)) }
{
    if is_stdin(path) {
        return Err(fault);
    }
    match files.open_text(path) {
        Ok(file) => Ok(file),
        Err(_) => Err(fault),
    }
}
