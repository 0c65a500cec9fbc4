// `places`: lists the places of an exam by the files of two paths.
ghost use Rattle.std.specs.Prelude.{◌≡◌, ◌≢◌, IfErr, IfOk};
ghost use Rattle.std.specs.Io.KnownBytes.{Keeps};
ghost use Rattle.office_check.specs.Listing.{WritesPlaces, WritesPlacesFront};
ghost use Rattle.office_program.specs.Sources.{IsFile, OfFiles, source_at};
ghost use Rattle.office_program.specs.TaskFaults.{IsOfPlaces};

use crate::faults::{ProgramFault, fault_on};
use crate::readers::TextReader;
use crate::sources::run_by_paths;
use crate::texts::Texts;
use exam_model::ExamNo;
use office_check::{Places, PlacesAnswer};
use std::alloc::Global;
use std::io::Write;

// Runs `places`.
pub(crate) fn list_places<'a, T: Texts, I: TextReader, W: Write>(
    alloc: Global,
    files: &T,
    stdin: &mut I,
    instance: &'a str,
    solution: &'a str,
    exam: ExamNo,
    out: &mut W,
) -> Result<(), ProgramFault<'a>>
    ensures listed { IfOk result (λ _.
        OfFiles (source_at (I.remaining stdin.old) (T.known files.now) instance.now)
        (source_at (I.remaining stdin.old) (T.known files.now) solution.now)
        (λ session enrolled placing. WritesPlaces session enrolled placing exam
        (W.contents out.old) (W.contents out.new))) }

    // A line that names a file names one of the two.
    ensures fault { IfErr result (IsOfPlaces instance.now solution.now exam
        (source_at (I.remaining stdin.old) (T.known files.now))) }
    ensures unwritten { IfErr result (λ fault. fault ≢ ProgramFault.CannotWrite
        → Keeps (W.contents out.old) (W.contents out.new)) }
    ensures front { IfErr result (λ fault. fault ≡ ProgramFault.CannotWrite
        → OfFiles (source_at (I.remaining stdin.old) (T.known files.now) instance.now)
        (source_at (I.remaining stdin.old) (T.known files.now) solution.now)
        (λ session enrolled placing. WritesPlacesFront session enrolled placing exam
        (W.contents out.old) (W.contents out.new))) }
    ensures unread { IsFile instance.now × IsFile solution.now
        → I.remaining stdin.new ≡ I.remaining stdin.old }
{
    match run_by_paths(alloc, files, stdin, &Places(exam), instance, solution, out) {
        Ok(PlacesAnswer::Listed) => Ok(()),
        Ok(PlacesAnswer::NoExam) => Err(ProgramFault::NoExam(exam)),
        Err(fault) => Err(fault_on(fault, instance, solution)),
    }
}
