// The report on one solution, and the summands of one student.
ghost use Rattle.std.specs.Prelude.{◌≡◌, ◌++◌, [], OnErr, OnOk, string_bytes};
ghost use Rattle.std.specs.Io.KnownBytes.{Appends};
ghost use Rattle.exam_score.specs.Penalty.{pairs_in, personal_total};
ghost use Rattle.office_output.specs.Writing.{WritesFront};
ghost use Rattle.office_check.specs.Student.{sum_line};
ghost use Rattle.office_check.specs.Why.{IsSubject, all_pairs_text};

use crate::checking::{CheckFault, SolutionTask};
use crate::explaining::{ROOM, Subject, add_all_pairs};
use crate::reporting::judge;
use exam_model::{Enrolments, Instance, StudentNo, Timetable};
use exam_reasons::{costly_pairs, own_enrolments, own_reasons_add_up};
use exam_score::{Parts, score, sizes_of};
use office_output::write_text;
use std::alloc::{AllocError, Global};
use std::io::{self, Write};

/// Writes the report and then each summand of a student's share of the penalty, and their sum, which
/// is 0 if the session has no such student. The answer is the exit status.
#[derive(Clone, Copy)]
pub struct WhyFor(pub StudentNo);

impl SolutionTask for WhyFor {
    type Answer = u8;

    ghost use Rattle.office_check.specs.Student.{ExplainsFrontTo, IsExplainedTo};

    ghost writes = { λ task session enrolled placing old new status.
        IsExplainedTo session enrolled placing task.0 old new status };

    ghost writes_front = { λ task session enrolled placing old new.
        ExplainsFrontTo session enrolled placing task.0 old new };

    fn write<W: Write>(
        &self,
        alloc: Global,
        instance: &Instance,
        enrolments: &Enrolments,
        timetable: &Timetable,
        writer: &mut W,
    ) -> Result<u8, CheckFault> {
        own_reasons_add_up();
        enrolments.lemma_order();
        let student = self.0;
        let Ok(judged) = judge(alloc, instance, enrolments, timetable) else {
            return Err(CheckFault::NoMemory);
        };
        let Ok(own) = own_enrolments(alloc, enrolments, student) else {
            return Err(CheckFault::NoMemory);
        };
        let Ok(parts) = score(alloc, instance, &own, timetable) else {
            return Err(CheckFault::NoMemory);
        };
        let Ok(sizes) = sizes_of(alloc, &own) else {
            return Err(CheckFault::NoMemory);
        };
        let Ok(mut lines) = String::with_capacity(alloc, ROOM) else {
            return Err(CheckFault::NoMemory);
        };
        let Ok(pairs) = costly_pairs(alloc, instance, &own, timetable) else {
            return Err(CheckFault::NoMemory);
        };
        let subject = Subject {
            instance,
            enrolments: &own,
            timetable,
            sizes: &sizes,
            pairs: &pairs,
        };
        let sum = OwnSum {
            student,
            points: points_of(&parts),
        };
        match write_own(writer, &mut lines, judged.text.as_str(), &subject, sum) {
            Ok(()) => Ok(judged.status),
            Err(_) => Err(CheckFault::Write),
        }
    }
}

// A student, and the sum of their summands.
#[derive(Clone, Copy)]
struct OwnSum {
    student: StudentNo,
    points: u64,
}

// Returns the sum of the parts that count pairs.
fn points_of(parts: &Parts) -> u64
    ensures { result ≡ personal_total (pairs_in parts.now) }
{
    let _within = parts.total();
    parts.row() + parts.day() + parts.spread() + parts.night()
}

// Writes a report, the summands of pairs and their sum.
fn write_own<W: Write>(
    writer: &mut W,
    lines: &mut String,
    report: &str,
    subject: &Subject,
    sum: OwnSum,
) -> io::Result<()>
    requires subject { IsSubject subject.now }
    requires empty { string_bytes lines.old ≡ [] }
    ensures ok { OnOk result (Appends (W.contents writer.old) (W.contents writer.new) (report.now
        ++ all_pairs_text subject.now.instance.now subject.now.enrolments.now
        subject.now.timetable.now ++ sum_line sum.student sum.points)) }
    ensures err { OnErr result (WritesFront (W.contents writer.old) (W.contents writer.new)
        (report.now ++ all_pairs_text subject.now.instance.now subject.now.enrolments.now
        subject.now.timetable.now ++ sum_line sum.student sum.points)) }
{
    write_text(writer, report.as_bytes())?;
    add_all_pairs(writer, lines, subject)?;
    add_sum_line(lines, sum)?;
    write_text(writer, lines.as_bytes())?;
    Ok(())
}

// Adds the line of a student's sum.
fn add_sum_line(lines: &mut String, sum: OwnSum) -> Result<(), AllocError>
    ensures { OnOk result (string_bytes lines.new
        ≡ string_bytes lines.old ++ sum_line sum.student sum.points) }
{
    let student = sum.student.get();
    let points = sum.points;
    write!(lines, "student {student} {points}\n")
}
