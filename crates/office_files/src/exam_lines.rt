// Reading the lines of the section of exams.
ghost use Rattle.std.specs.Prelude.{◌≡◌, ◌≢◌, ◌≤◌, [], length, take, drop, true};
ghost use Rattle.std.specs.Prelude.{OnOk, IfOk, IfErr, Err};
ghost use Rattle.exam_terms.specs.declared.limits.TheConstants.{MAX_EXAMS, MAX_STUDENT};
ghost use Rattle.exam_model.specs.Enrolments.{IsAscending, pair_count};
ghost use Rattle.office_files.specs.Faults.{HasNoLine};
ghost use Rattle.office_files.specs.Fields.{fields_of, first_field, other_fields};
ghost use Rattle.office_files.specs.Numbers.{number};
ghost use Rattle.office_files.specs.Reading.{items_of};
ghost use Rattle.office_files.specs.ExamLines.{exam_line, exam_after_pairs, LinesGiveExams};
ghost use Rattle.office_files.specs.ExamStudents.{with_students};
ghost use Rattle.office_files.specs.ExamLines.{IsEmptyExam, EntersLine};
ghost use Rattle.office_files.specs.ExamStudents.{named_in, fault_in};

use crate::fault::{FaultKind, FileFault};
use crate::fields::Fields;
use crate::lines::Lines;
use exam_model::{Enrolments, Exam, ExamNo, ModelFault, StudentNo};
use exam_terms::limits::{MAX_MINUTES, MAX_STUDENT};
use std::alloc::{AllocError, Global};

// What the fields of students show besides their names.
#[derive(Clone, Copy)]
struct Gathered {
    ascending: bool,
    fault: Option<FaultKind>,
}

/// Returns the exams of the next `count` lines, and the students who sit each.
pub(crate) fn exam_lines(
    alloc: Global,
    lines: &mut Lines<'_>,
    count: u32,
) -> Result<(Vec<Exam>, Enrolments), FileFault>
    requires some { 1 ≤ count }
    requires most { count ≤ MAX_EXAMS }
    requires there { count ≤ length lines.old }
    ensures found { IfOk result (λ read. LinesGiveExams
        (take count lines.old) read.0.items read.1) }
    ensures fault { IfErr result (λ fault. fault.what ≢ FaultKind.NoMemory
        → items_of exam_line [] (take count lines.old) ≡ Err fault) }
    ensures memory { IfErr result HasNoLine }
    ensures left { OnOk result (lines.new ≡ drop count lines.old) }
{
    let Ok(mut enrolments) = Enrolments::new(alloc, count) else {
        return Err(FileFault::NO_MEMORY);
    };
    let mut exams: Vec<Exam> = Vec::new(alloc);
    let mut named: Vec<StudentNo> = Vec::new(alloc);
    'lines: for exam in 0..count {
        let Some(row) = lines.next() else {
            unreachable!();
        };
        match exam_line(row.text, ExamNo::new(exam), &mut enrolments, &mut named) {
            Ok(exam) => exams.push(exam)?,
            Err(what) => return Err(FileFault::at(row.line, what)),
        }
    }
    Ok((exams, enrolments))
}

// Reads a line and enrols its students, after the pairs that are there.
fn exam_line(
    line: &[u8],
    exam: ExamNo,
    enrolments: &mut Enrolments,
    named: &mut Vec<StudentNo>,
) -> Result<Exam, FaultKind>
    requires { IsEmptyExam enrolments.old exam }
    ensures ok { IfOk result
        (EntersLine enrolments.old enrolments.new exam (fields_of line.now)) }
    ensures err { IfErr result (λ what. what ≢ FaultKind.NoMemory
        → exam_after_pairs (pair_count enrolments.old) (fields_of line.now) ≡ Err what) }
{
    let mut fields = Fields::new(line);
    let minutes = fields.next_number(MAX_MINUTES)?;
    let Ok(gathered) = gather(fields, named) else {
        return Err(FaultKind::NoMemory);
    };
    sort_if_needed(named, gathered.ascending);
    match enrolments.enrol(named, exam) {
        Ok(()) => {}
        Err(fault) => return Err(kind_of(fault)),
    }
    match gathered.fault {
        None => Ok(Exam { minutes }),
        Some(what) => Err(what),
    }
}

// Lists the students of the fields up to the first fault.
fn gather(mut fields: Fields<'_>, named: &mut Vec<StudentNo>) -> Result<Gathered, AllocError>
    ensures names { OnOk result (named.new.items ≡ named_in fields.entry) }
    ensures fault { IfOk result (λ gathered. gathered.fault ≡ fault_in fields.entry) }
    ensures ascending { IfOk result (λ gathered. gathered.ascending ≡ true
        → IsAscending named.new.items) }
{
    named.clear();
    let mut ascending = true;
    let mut least: u32 = 0;
    'fields: while !fields.is_empty() {
        match next_student(&mut fields) {
            Ok(student) => {
                ascending = ascending && least <= student.get();
                least = student.get() + 1;
                named.push(student)?;
            }
            Err(what) => {
                let fault = Some(what);
                return Ok(Gathered { ascending, fault });
            }
        }
    }
    let fault = None;
    Ok(Gathered { ascending, fault })
}

// Returns the student whom the next field names.
#[inline]
fn next_student(fields: &mut Fields<'_>) -> Result<StudentNo, FaultKind>
    ensures student { result ≡ number MAX_STUDENT (first_field fields.old) }
    ensures left { fields.new ≡ other_fields fields.old }
{
    let value = fields.next_number(MAX_STUDENT)?;
    StudentNo::new(value).ok_or(FaultKind::OutOfRange)
}

// Brings the students into ascending order, each once; if they have it, nothing is moved.
fn sort_if_needed(named: &mut Vec<StudentNo>, ascending: bool)
    requires { ascending ≡ true → IsAscending named.old.items }
    ensures all { named.new.items ≡ with_students named.old.items [] }
    ensures ascending { IsAscending named.new.items }
{
    if !ascending {
        named.sort_unstable();
        named.dedup();
    }
}

// Returns the fault of a line whose students are refused.
fn kind_of(fault: ModelFault) -> FaultKind
    ensures memory { fault ≡ ModelFault.NoMemory → result ≡ FaultKind.NoMemory }
    ensures range { fault ≢ ModelFault.NoMemory → result ≡ FaultKind.OutOfRange }
{
    match fault {
        ModelFault::NoMemory => FaultKind::NoMemory,
        _ => FaultKind::OutOfRange,
    }
}
