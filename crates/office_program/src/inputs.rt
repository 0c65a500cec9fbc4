// What is read of a task's files. That a file can't be read is said only if a read of it failed.
ghost use Rattle.std.specs.Prelude.{◌≡◌, ◌≢◌, ◌≤◌, ◌⊎◌, ℕ, IfErr, IfOk, IfSome, List, Some, length};
ghost use Rattle.std.specs.Prelude.{false, option_map, true};
ghost use Rattle.std.specs.Io.KnownBytes.{Keeps};
ghost use Rattle.exam_terms.specs.declared.limits.TheConstants.{INSTANCE_BYTES};
ghost use Rattle.office_check.specs.Check.{OfInputs};
ghost use Rattle.office_check.specs.Compare.{ComparesFrom, IsComparisonFrom, RefusesComparison};
ghost use Rattle.office_check.specs.Refusing.{Refuses};
ghost use Rattle.office_check.specs.Verdicts.{IsVerdictOn};
ghost use Rattle.office_files.specs.InstanceText.{InstanceText};
ghost use Rattle.office_output.specs.Writing.{WritesFront};
ghost use Rattle.office_program.specs.CheckAll.{IsInstanceCause, IsSolutionCause};
ghost use Rattle.office_program.specs.TaskFaults.{IsTextCause, MayNotRead, MayNotReadOne};

use crate::readers::{TextReader, WatchedReader};
use office_check::{CheckFault, CompareFault, Judge, SolutionTask, Verdict, compare_run, task_run};
use office_files::{InputFault, instance_text};
use std::alloc::Global;
use std::io::Write;

// Returns the whole text of an instance's reader.
pub(crate) fn text_of<R: TextReader>(alloc: Global, reader: &mut R) -> Result<Vec<u8>, InputFault>
    ensures whole { IfOk result (λ text. IfSome (R.remaining reader.old)
        (λ input. input ≡ text.items)) }
    ensures short { IfOk result (λ text. length text.items ≤ INSTANCE_BYTES) }
    ensures refused { IfErr result (IsTextCause (option_map Some (R.remaining reader.old))) }
{
    let mut watched = WatchedReader::new(reader);
    match instance_text(alloc, &mut watched) {
        Ok(text) => Ok(text),
        Err(fault) => Err(input_fault(fault, watched.has_failed())),
    }
}

// Reads a session, for this many solutions.
pub(crate) fn judge_of<R: TextReader>(
    alloc: Global,
    reader: &mut R,
    solutions: usize,
) -> Result<Judge, InputFault>
    ensures reading { IfOk result (λ judge. IfSome (R.remaining reader.old)
        (λ input. InstanceText input judge.0 judge.1)) }
    ensures spelled { IfOk result (λ judge.
        (input : List ℕ) × InstanceText input judge.0 judge.1) }
    ensures refused { IfErr result (IsInstanceCause (option_map Some (R.remaining reader.old))) }
{
    let mut watched = WatchedReader::new(reader);
    match Judge::new(alloc, &mut watched, solutions) {
        Ok(judge) => Ok(judge),
        Err(fault) => Err(input_fault(fault, watched.has_failed())),
    }
}

// Judges the solution of a reader.
pub(crate) fn verdict_of<R: TextReader>(
    alloc: Global,
    judge: &Judge,
    reader: &mut R,
) -> Result<Verdict, InputFault>
    ensures judged { IfOk result (λ verdict. IfSome (R.remaining reader.old)
        (λ input. IsVerdictOn judge.now.0 judge.now.1 input verdict)) }
    ensures some_judged { IfOk result (λ verdict.
        (input : List ℕ) × IsVerdictOn judge.now.0 judge.now.1 input verdict) }
    ensures refused { IfErr result (IsSolutionCause judge.now.0
        (option_map Some (R.remaining reader.old))) }
{
    let mut watched = WatchedReader::new(reader);
    match judge.judge(alloc, &mut watched) {
        Ok(verdict) => Ok(verdict),
        Err(fault) => Err(input_fault(fault, watched.has_failed())),
    }
}

// Returns the fault of an input, which is one of reading only if a read failed. Out of memory in
// its place can't happen: reads that don't fail reach the end or the limit before the 5,000,000th.
fn input_fault(fault: InputFault, has_failed: bool) -> InputFault
    ensures same { (result ≡ fault) ⊎ ((result ≡ InputFault.NoMemory)
        × (fault ≡ InputFault.Read) × (has_failed ≡ false)) }
    ensures read { result ≡ InputFault.Read → has_failed ≡ true }
{
    match fault {
        InputFault::Read if !has_failed => InputFault::NoMemory,
        _ => fault,
    }
}

// Does a task on the solution of two readers.
pub(crate) fn answer_of<K: SolutionTask, R: TextReader, Q: TextReader, W: Write>(
    alloc: Global,
    task: &K,
    instance: &mut R,
    solution: &mut Q,
    out: &mut W,
) -> Result<K::Answer, CheckFault>
    ensures from { IfOk result (λ answer. OfInputs (R.remaining instance.old)
        (Q.remaining solution.old) (λ session enrolled placing.
        K.writes task.now session enrolled placing
        (W.contents out.old) (W.contents out.new) answer)) }
    ensures refused { IfErr result (λ fault. IfSome (R.remaining instance.old) (λ one.
        IfSome (Q.remaining solution.old) (λ two. Refuses one two fault))) }
    ensures unread { IfErr result (MayNotRead (option_map Some (R.remaining instance.old))
        (option_map Some (Q.remaining solution.old))) }
    ensures unwritten { IfErr result (λ fault. fault ≢ CheckFault.Write
        → Keeps (W.contents out.old) (W.contents out.new)) }
    ensures front { IfErr result (λ fault. fault ≡ CheckFault.Write
        → OfInputs (R.remaining instance.old) (Q.remaining solution.old)
        (λ session enrolled placing. K.writes_front task.now session enrolled placing
        (W.contents out.old) (W.contents out.new))) }
{
    let mut first = WatchedReader::new(instance);
    let mut second = WatchedReader::new(solution);
    match task_run(alloc, task, &mut first, &mut second, out) {
        Ok(answer) => Ok(answer),
        Err(fault) => Err(check_fault(fault, first.has_failed(), second.has_failed())),
    }
}

// Returns the fault of two inputs, likewise.
fn check_fault(fault: CheckFault, has_first_failed: bool, has_second_failed: bool) -> CheckFault
    ensures same { (result ≡ fault) ⊎ ((result ≡ CheckFault.NoMemory)
        × (((fault ≡ CheckFault.ReadInstance) × (has_first_failed ≡ false))
        ⊎ ((fault ≡ CheckFault.ReadSolution) × (has_second_failed ≡ false)))) }
    ensures write { fault ≡ CheckFault.Write → result ≡ fault }
    ensures only { result ≡ CheckFault.Write → fault ≡ CheckFault.Write }
    ensures first { result ≡ CheckFault.ReadInstance → has_first_failed ≡ true }
    ensures second { result ≡ CheckFault.ReadSolution → has_second_failed ≡ true }
{
    match fault {
        CheckFault::ReadInstance if !has_first_failed => CheckFault::NoMemory,
        CheckFault::ReadSolution if !has_second_failed => CheckFault::NoMemory,
        _ => fault,
    }
}

// Compares the solutions of three readers.
pub(crate) fn compare_readers<R: TextReader, P: TextReader, Q: TextReader, W: Write>(
    alloc: Global,
    session: &mut R,
    before: &mut P,
    after: &mut Q,
    out: &mut W,
) -> Result<(), CompareFault>
    ensures from { IfOk result (λ _. ComparesFrom (R.remaining session.old)
        (P.remaining before.old) (Q.remaining after.old)
        (W.contents out.old) (W.contents out.new)) }
    ensures refused { IfErr result (λ fault. IfSome (R.remaining session.old) (λ one.
        IfSome (P.remaining before.old) (λ two. IfSome (Q.remaining after.old) (λ three.
        RefusesComparison one two three fault)))) }
    ensures unread { IfErr result (MayNotReadOne (option_map Some (R.remaining session.old))
        (option_map Some (P.remaining before.old)) (option_map Some (Q.remaining after.old))) }
    ensures unwritten { IfErr result (λ fault. fault ≢ CompareFault.Check CheckFault.Write
        → Keeps (W.contents out.old) (W.contents out.new)) }
    ensures front { IfErr result (λ fault. fault ≡ CompareFault.Check CheckFault.Write
        → (text : List ℕ) × IsComparisonFrom (R.remaining session.old) (P.remaining before.old)
        (Q.remaining after.old) text × WritesFront (W.contents out.old) (W.contents out.new) text) }
{
    let mut first = WatchedReader::new(session);
    let mut second = WatchedReader::new(before);
    let mut third = WatchedReader::new(after);
    match compare_run(alloc, &mut first, &mut second, &mut third, out) {
        Ok(()) => Ok(()),
        Err(fault) => Err(compare_fault(
            fault,
            first.has_failed(),
            second.has_failed(),
            third.has_failed(),
        )),
    }
}

// Returns the fault of three inputs, likewise.
fn compare_fault(
    fault: CompareFault,
    has_first_failed: bool,
    has_second_failed: bool,
    has_third_failed: bool,
) -> CompareFault
    ensures same { (result ≡ fault) ⊎ ((result ≡ CompareFault.Check CheckFault.NoMemory)
        × (((fault ≡ CompareFault.Check CheckFault.ReadInstance) × (has_first_failed ≡ false))
        ⊎ (((fault ≡ CompareFault.Check CheckFault.ReadSolution) × (has_second_failed ≡ false))
        ⊎ ((fault ≡ CompareFault.ReadAfter) × (has_third_failed ≡ false))))) }
    ensures write { fault ≡ CompareFault.Check CheckFault.Write → result ≡ fault }
    ensures only { result ≡ CompareFault.Check CheckFault.Write
        → fault ≡ CompareFault.Check CheckFault.Write }
    ensures first { result ≡ CompareFault.Check CheckFault.ReadInstance
        → has_first_failed ≡ true }
    ensures second { result ≡ CompareFault.Check CheckFault.ReadSolution
        → has_second_failed ≡ true }
    ensures third { result ≡ CompareFault.ReadAfter → has_third_failed ≡ true }
{
    match fault {
        CompareFault::Check(fault) => CompareFault::Check(check_fault(
            fault,
            has_first_failed,
            has_second_failed,
        )),
        CompareFault::ReadAfter if !has_third_failed => CompareFault::Check(CheckFault::NoMemory),
        _ => fault,
    }
}
