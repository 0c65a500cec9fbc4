// Tasks on one solution, by the texts of two readers.
ghost use Rattle.std.specs.Prelude.{◌≡◌, ◌≢◌, ◌⊎◌, ◌+◌, ℕ, List, Option, All, length};
ghost use Rattle.std.specs.Prelude.{IfErr, IfOk, IfSome};
ghost use Rattle.exam_terms.specs.declared.limits.TheConstants.{INSTANCE_BYTES, TEXT_BYTES};
ghost use Rattle.std.specs.Io.KnownBytes.{Keeps};
ghost use Rattle.exam_model.specs.Enrolments.{Enrolled};
ghost use Rattle.exam_model.specs.Fits.{Fits, PlaceExists};
ghost use Rattle.exam_model.specs.Instance.{Session};
ghost use Rattle.exam_model.specs.Timetable.{Placing};
ghost use Rattle.office_files.specs.FirstFault.{first_fault, first_solution_fault};
ghost use Rattle.office_files.specs.InstanceText.{InstanceText};
ghost use Rattle.office_files.specs.SolutionText.{SolutionText};
ghost use Rattle.office_files.specs.Inputs.{RefusesFile, ReadsAtMost};
ghost use Rattle.office_check.specs.Check.{AreReadAs, AreReadFrom, OfInputs, OfSome, OfTexts};
ghost use Rattle.office_check.specs.Refusing.{Refuses, of_instance, of_solution};

use exam_model::{Enrolments, Instance, Timetable};
use office_files::{
    FileFault, InputFault, instance_text, read_instance, read_solution, solution_text,
};
use std::alloc::Global;
use std::io::{Read, Write};

/// Why a solution is not judged, in the order of the work.
#[derive(Clone, Copy, Debug, PartialEq, Eq)]
pub enum CheckFault {
    /// The instance's reader failed, or had no end within 5,000,000 reads.
    ReadInstance,
    /// The solution's reader failed, or had no end within 5,000,000 reads.
    ReadSolution,
    /// The instance's text is faulty.
    Instance(FileFault),
    /// The solution's text is faulty.
    Solution(FileFault),
    /// The writer failed; a front of the output may be written.
    Write,
    /// Out of memory.
    NoMemory,
}

/// A task on a solution whose session and timetable are read.
pub trait SolutionTask {
    type Answer;

    // This is written, by what the writer had before and has now, and answered.
    ghost writes: { Self → Session → Enrolled → Placing → Option (List ℕ) → Option (List ℕ)
        → Self.Answer → Type 0 };

    // A front of it is written, if a write failed.
    ghost writes_front: { Self → Session → Enrolled → Placing → Option (List ℕ)
        → Option (List ℕ) → Type 0 };

    /// Does the task. All memory is taken before the first byte is written.
    fn write<W: Write>(
        &self,
        alloc: Global,
        instance: &Instance,
        enrolments: &Enrolments,
        timetable: &Timetable,
        writer: &mut W,
    ) -> Result<Self::Answer, CheckFault>
        requires fits { Fits instance.now enrolments.now timetable.now }
        ensures written { IfOk result (writes self.now instance.now enrolments.now timetable.now
            (W.contents writer.old) (W.contents writer.new)) }
        ensures faults { IfErr result (λ fault.
            (fault ≡ CheckFault.Write) ⊎ (fault ≡ CheckFault.NoMemory)) }
        ensures unwritten { IfErr result (λ fault. fault ≢ CheckFault.Write
            → Keeps (W.contents writer.old) (W.contents writer.new)) }
        ensures front { IfErr result (λ fault. fault ≡ CheckFault.Write
            → writes_front self.now instance.now enrolments.now timetable.now
            (W.contents writer.old) (W.contents writer.new)) };
}

/// Does the task on the solution of two readers. Each reader has 5,000,000 reads; an interrupted
/// read counts, and is retried.
pub fn task_run<K: SolutionTask, R: Read, Q: Read, W: Write>(
    alloc: Global,
    task: &K,
    instance_reader: &mut R,
    solution_reader: &mut Q,
    writer: &mut W,
) -> Result<K::Answer, CheckFault>
    ensures done { IfOk result (λ answer. IfSome (R.remaining instance_reader.old) (λ instance.
        IfSome (Q.remaining solution_reader.old) (λ solution.
        OfTexts instance solution (λ session enrolled placing.
        K.writes task.now session enrolled placing
        (W.contents writer.old) (W.contents writer.new) answer)))) }

    // Even if the readers' bytes are not known, the task is done on two texts; a text that is known
    // is one of them.
    ensures some { IfOk result (λ answer. OfSome (λ session enrolled placing.
        K.writes task.now session enrolled placing
        (W.contents writer.old) (W.contents writer.new) answer)) }
    ensures from { IfOk result (λ answer. OfInputs (R.remaining instance_reader.old)
        (Q.remaining solution_reader.old) (λ session enrolled placing.
        K.writes task.now session enrolled placing
        (W.contents writer.old) (W.contents writer.new) answer)) }

    // In the order of the work: the instance, the solution, the output.
    ensures refused { IfErr result (λ fault. IfSome (R.remaining instance_reader.old) (λ instance.
        IfSome (Q.remaining solution_reader.old) (λ solution. Refuses instance solution fault))) }
    ensures unwritten { IfErr result (λ fault. fault ≢ CheckFault.Write
        → Keeps (W.contents writer.old) (W.contents writer.new)) }
    // If a write failed, a front of the output on the two texts is written.
    ensures front { IfErr result (λ fault. fault ≡ CheckFault.Write
        → OfInputs (R.remaining instance_reader.old) (Q.remaining solution_reader.old)
        (λ session enrolled placing. K.writes_front task.now session enrolled placing
        (W.contents writer.old) (W.contents writer.new))) }

    // Each reader is read at most one byte past its limit.
    ensures instance_taken { ReadsAtMost (INSTANCE_BYTES + 1)
        (R.remaining instance_reader.old) (R.remaining instance_reader.new) }
    ensures solution_taken { ReadsAtMost (TEXT_BYTES + 1)
        (Q.remaining solution_reader.old) (Q.remaining solution_reader.new) }
{
    let (instance, enrolments, timetable) = files_of(alloc, instance_reader, solution_reader)?;
    let answer = task.write(alloc, &instance, &enrolments, &timetable, writer)?;
    Ok(answer)
}

// Returns the session and the timetable that the two readers' texts describe.
pub(crate) fn files_of<R: Read, Q: Read>(
    alloc: Global,
    instance_reader: &mut R,
    solution_reader: &mut Q,
) -> Result<(Instance, Enrolments, Timetable), CheckFault>
    ensures reading { IfOk result (λ read. IfSome (R.remaining instance_reader.old) (λ instance.
        IfSome (Q.remaining solution_reader.old) (λ solution.
        AreReadAs instance solution read.0 read.1 read.2))) }
    ensures from { IfOk result (λ read. AreReadFrom (R.remaining instance_reader.old)
        (Q.remaining solution_reader.old) read.0 read.1 read.2) }
    ensures fits { IfOk result (λ read. Fits read.0 read.1 read.2) }
    ensures refused { IfErr result (λ fault. IfSome (R.remaining instance_reader.old) (λ instance.
        IfSome (Q.remaining solution_reader.old) (λ solution. Refuses instance solution fault))) }
    ensures unwritten { IfErr result (λ fault. fault ≢ CheckFault.Write) }
    ensures instance_taken { ReadsAtMost (INSTANCE_BYTES + 1)
        (R.remaining instance_reader.old) (R.remaining instance_reader.new) }
    ensures solution_taken { ReadsAtMost (TEXT_BYTES + 1)
        (Q.remaining solution_reader.old) (Q.remaining solution_reader.new) }
{
    let (instance, enrolments) = match instance_of(alloc, instance_reader) {
        Ok(read) => read,
        Err(fault) => return Err(of_instance(fault)),
    };
    match solution_of(alloc, solution_reader, &instance) {
        Ok(timetable) => Ok((instance, enrolments, timetable)),
        Err(fault) => Err(of_solution(fault)),
    }
}

// Returns the instance that the reader's text describes.
pub(crate) fn instance_of<R: Read>(
    alloc: Global,
    reader: &mut R,
) -> Result<(Instance, Enrolments), InputFault>
    ensures reading { IfOk result (λ read. IfSome (R.remaining reader.old)
        (λ input. InstanceText input read.0 read.1)) }
    ensures spelled { IfOk result (λ read. (input : List ℕ) × InstanceText input read.0 read.1) }
    ensures refused { IfErr result (λ fault. IfSome (R.remaining reader.old)
        (λ input. RefusesFile (first_fault input) fault)) }
    ensures fits { IfOk result (λ read. length read.1 ≡ length read.0.exams) }
    ensures taken { ReadsAtMost (INSTANCE_BYTES + 1)
        (R.remaining reader.old) (R.remaining reader.new) }
{
    let text = instance_text(alloc, reader)?;
    Ok(read_instance(alloc, &text)?)
}

fn of_instance(fault: InputFault) -> CheckFault
    ensures { result ≡ of_instance fault }
{
    match fault {
        InputFault::Read => CheckFault::ReadInstance,
        InputFault::File(fault) => CheckFault::Instance(fault),
        InputFault::NoMemory => CheckFault::NoMemory,
    }
}

// Returns the timetable that the reader's text describes.
pub(crate) fn solution_of<R: Read>(
    alloc: Global,
    reader: &mut R,
    instance: &Instance,
) -> Result<Timetable, InputFault>
    ensures reading { IfOk result (λ timetable. IfSome (R.remaining reader.old)
        (λ input. SolutionText input instance.now timetable)) }
    ensures spelled { IfOk result (λ timetable.
        (input : List ℕ) × SolutionText input instance.now timetable) }
    ensures refused { IfErr result (λ fault. IfSome (R.remaining reader.old)
        (λ input. RefusesFile (first_solution_fault instance.now input) fault)) }
    ensures fits { IfOk result (λ timetable. length timetable ≡ length instance.now.exams) }
    ensures exist { IfOk result (λ timetable. All (PlaceExists instance.now) timetable) }
    ensures taken { ReadsAtMost (TEXT_BYTES + 1) (R.remaining reader.old) (R.remaining reader.new) }
{
    let text = solution_text(alloc, reader)?;
    Ok(read_solution(alloc, &text, instance)?)
}

fn of_solution(fault: InputFault) -> CheckFault
    ensures { result ≡ of_solution fault }
{
    match fault {
        InputFault::Read => CheckFault::ReadSolution,
        InputFault::File(fault) => CheckFault::Solution(fault),
        InputFault::NoMemory => CheckFault::NoMemory,
    }
}
