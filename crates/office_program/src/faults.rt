// The faults that end the program with status 1, and their lines.
ghost use Rattle.std.specs.Prelude.{◌≡◌, ◌≢◌};
ghost use Rattle.office_program.specs.FaultLines.{fault_line, input_line, open_line, solution_line};
ghost use Rattle.office_program.specs.TaskFaults.{check_line, export_line, load_line, run_line};

use crate::exporting::ExportFault;
use crate::loading::LoadFault;
use exam_model::ExamNo;
use office_check::{CheckFault, FileName};
use office_connections::RunFault;
use office_files::{FileFault, InputFault};
use office_http::{Refusal, StoreFault};
use office_model::kind_number;
use sqlite::{Error, ErrorCode};
use std::fmt;

/// `Display` prints its line.
#[derive(Clone, Copy)]
pub enum ProgramFault<'a> {
    CannotRead(&'a str),
    Instance(FileFault),
    Solution(FileFault),
    /// A fault of one of the solutions that a task names, with its path.
    SolutionAt(&'a str, FileFault),
    CannotOpen(Error),
    Store(StoreFault),
    NoExam(ExamNo),
    NoPublication,
    CannotListen,
    CannotWrite,
    NoMemory,
}

impl fmt::Display for ProgramFault<'_> {
    ghost use Rattle.std.specs.Prelude.{Some};
    ghost use Rattle.office_program.specs.FaultLines.{fault_line};

    ghost output = { λ fault. Some (fault_line fault) };

    fn fmt<W: fmt::Write>(&self, f: &mut fmt::Formatter<W>) -> fmt::Result {
        match self {
            ProgramFault::CannotRead(path) => {
                let name = FileName(path);
                write!(f, "examoffice: cannot read {name}")
            }
            ProgramFault::Instance(FileFault { line, what }) => {
                let number = kind_number(*what);
                write!(f, "examoffice: instance line {line}: fault {number}")
            }
            ProgramFault::Solution(fault) => {
                let line = SolutionLine(*fault);
                write!(f, "{line}")
            }
            ProgramFault::SolutionAt(path, fault) => {
                let name = FileName(path);
                let line = SolutionLine(*fault);
                write!(f, "{name}: {line}")
            }
            ProgramFault::CannotOpen(_) => write!(f, "examoffice: cannot open database"),
            ProgramFault::Store(fault) => {
                let number = fault.number();
                write!(f, "examoffice: store fault {number}")
            }
            ProgramFault::NoExam(exam) => {
                let number = exam.get();
                write!(f, "examoffice: no exam {number}")
            }
            ProgramFault::NoPublication => write!(f, "examoffice: no publication"),
            ProgramFault::CannotListen => write!(f, "examoffice: cannot listen"),
            ProgramFault::CannotWrite => write!(f, "examoffice: cannot write"),
            ProgramFault::NoMemory => write!(f, "examoffice: no memory"),
        }
    }
}

// The line of a fault of a solution, for `Display`.
#[derive(Clone, Copy)]
struct SolutionLine(FileFault);

impl fmt::Display for SolutionLine {
    ghost use Rattle.std.specs.Prelude.{Some};
    ghost use Rattle.office_program.specs.FaultLines.{of_solution};

    ghost output = { λ line. Some (of_solution line.0) };

    fn fmt<W: fmt::Write>(&self, f: &mut fmt::Formatter<W>) -> fmt::Result {
        let FileFault { line, what } = self.0;
        let number = kind_number(what);
        write!(f, "examoffice: solution line {line}: fault {number}")
    }
}

// Returns the program's fault for a fault of `check` on two files.
pub(crate) fn fault_on<'a>(
    fault: CheckFault,
    instance: &'a str,
    solution: &'a str,
) -> ProgramFault<'a>
    ensures line { fault_line result ≡ check_line instance.now solution.now fault }
    ensures write { fault ≡ CheckFault.Write → result ≡ ProgramFault.CannotWrite }
    ensures only { result ≡ ProgramFault.CannotWrite → fault ≡ CheckFault.Write }
{
    match fault {
        CheckFault::ReadInstance => ProgramFault::CannotRead(instance),
        CheckFault::ReadSolution => ProgramFault::CannotRead(solution),
        CheckFault::Instance(fault) => ProgramFault::Instance(fault),
        CheckFault::Solution(fault) => ProgramFault::Solution(fault),
        CheckFault::Write => ProgramFault::CannotWrite,
        CheckFault::NoMemory => ProgramFault::NoMemory,
    }
}

// Returns the program's fault for a fault of the instance's input.
pub(crate) fn fault_of_input<'a>(fault: InputFault, path: &'a str) -> ProgramFault<'a>
    ensures line { fault_line result ≡ input_line path.now fault }
    ensures other { result ≢ ProgramFault.CannotWrite }
{
    match fault {
        InputFault::Read => ProgramFault::CannotRead(path),
        InputFault::File(fault) => ProgramFault::Instance(fault),
        InputFault::NoMemory => ProgramFault::NoMemory,
    }
}

// Returns the program's fault for a fault of a solution's input.
pub(crate) fn fault_of_solution<'a>(fault: InputFault, path: &'a str) -> ProgramFault<'a>
    ensures { fault_line result ≡ solution_line path.now fault }
{
    match fault {
        InputFault::Read => ProgramFault::CannotRead(path),
        InputFault::File(fault) => ProgramFault::Solution(fault),
        InputFault::NoMemory => ProgramFault::NoMemory,
    }
}

// Returns the program's fault for a fault of `load`.
pub(crate) fn fault_of_load<'a>(fault: LoadFault) -> ProgramFault<'a>
    ensures line { fault_line result ≡ load_line fault }
    ensures write { fault ≡ LoadFault.Write → result ≡ ProgramFault.CannotWrite }
    ensures only { result ≡ ProgramFault.CannotWrite → fault ≡ LoadFault.Write }
{
    match fault {
        LoadFault::Store(StoreFault::Refused(Refusal::File(fault))) => ProgramFault::Instance(
            fault,
        ),
        LoadFault::Store(fault) => ProgramFault::Store(fault),
        LoadFault::Write => ProgramFault::CannotWrite,
    }
}

// Returns the program's fault for a fault of `export`.
pub(crate) fn fault_of_export<'a>(fault: ExportFault) -> ProgramFault<'a>
    ensures line { fault_line result ≡ export_line fault }
    ensures write { fault ≡ ExportFault.Write → result ≡ ProgramFault.CannotWrite }
    ensures only { result ≡ ProgramFault.CannotWrite → fault ≡ ExportFault.Write }
{
    match fault {
        ExportFault::Store(fault) => ProgramFault::Store(fault),
        ExportFault::NoPublication => ProgramFault::NoPublication,
        ExportFault::NoMemory => ProgramFault::NoMemory,
        ExportFault::Write => ProgramFault::CannotWrite,
    }
}

// Returns the program's fault for a fault of a server's run.
pub(crate) fn fault_of_run<'a>(fault: RunFault) -> ProgramFault<'a>
    ensures line { fault_line result ≡ run_line fault }
    ensures listen { fault ≡ RunFault.Listen → result ≡ ProgramFault.CannotListen }
    ensures write { fault ≡ RunFault.Write → result ≡ ProgramFault.CannotWrite }
    ensures only { result ≡ ProgramFault.CannotWrite → fault ≡ RunFault.Write }
    ensures shut { fault ≡ RunFault.Shut → result ≡ ProgramFault.Store StoreFault.Store }
{
    match fault {
        RunFault::Listen => ProgramFault::CannotListen,
        RunFault::Write => ProgramFault::CannotWrite,
        RunFault::Shut => ProgramFault::Store(StoreFault::Store),
    }
}

// Returns the program's fault for a database that can't be opened.
pub(crate) fn fault_of_open<'a>(error: Error) -> ProgramFault<'a>
    ensures line { fault_line result ≡ open_line error }
    ensures other { result ≢ ProgramFault.CannotWrite }
{
    match error {
        Error::SqliteFailure(ErrorCode::OutOfMemory) => ProgramFault::NoMemory,
        _ => ProgramFault::CannotOpen(error),
    }
}
