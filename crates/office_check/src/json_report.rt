// The verdict on one solution as an object of JSON.
ghost use Rattle.std.specs.Prelude.{◌≡◌, IfOk};

use crate::checking::{CheckFault, SolutionTask};
use crate::judging::{LineForm, verdict_on};
use exam_model::{Enrolments, Instance, Timetable};
use office_output::write_text;
use std::alloc::Global;
use std::io::Write;

/// Writes the line of JSON for the solution of this path. The answer is the exit status.
#[derive(Clone, Copy)]
pub struct JsonReport<'a> {
    pub path: &'a str,
}

impl SolutionTask for JsonReport<'_> {
    type Answer = u8;

    ghost use Rattle.office_check.specs.Verdicts.{WritesVerdict, WritesVerdictFront};

    ghost writes = { λ task session enrolled placing old new status.
        WritesVerdict session enrolled placing task.path.now old new status };

    ghost writes_front = { λ task session enrolled placing old new.
        WritesVerdictFront session enrolled placing task.path.now old new };

    fn write<W: Write>(
        &self,
        alloc: Global,
        instance: &Instance,
        enrolments: &Enrolments,
        timetable: &Timetable,
        writer: &mut W,
    ) -> Result<u8, CheckFault> {
        let Ok(verdict) = verdict_on(alloc, instance, enrolments, timetable) else {
            return Err(CheckFault::NoMemory);
        };
        let Ok(line) = verdict.line(alloc, self.path, LineForm::Json) else {
            return Err(CheckFault::NoMemory);
        };
        match write_text(writer, line.as_bytes()) {
            Ok(()) => Ok(verdict.status()),
            Err(_) => Err(CheckFault::Write),
        }
    }
}
