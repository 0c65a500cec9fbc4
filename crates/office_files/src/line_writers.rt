// Writing the lines of an instance file.
ghost use Rattle.std.specs.Prelude.{◌≡◌, ◌<◌, ◌≤◌, ◌++◌, ◌∷◌, [], All, IsTrue, OnOk, decimal, string_bytes};
ghost use Rattle.exam_calendar.specs.Dates.{is_civil};
ghost use Rattle.exam_model.specs.Limits.{PeriodInLimits};
ghost use Rattle.office_files.specs.CanonicalLines.{line_of, field_before, two_digits, date_text};
ghost use Rattle.office_files.specs.CanonicalLines.{time_text, exam_text, period_text};
ghost use Rattle.office_files.specs.CanonicalLines.{period_rule_text, room_rule_text, word_and_number};
ghost use Rattle.office_files.specs.CanonicalLines.{weighting_text};

use crate::weightings::Weighting;
use exam_calendar::Date;
use exam_model::{Exam, ExamNo, Period, PeriodRule, RoomRule, StudentNo};
use std::alloc::AllocError;

/// Adds the line of a period.
pub(crate) fn add_period(text: &mut String, period: &Period) -> Result<(), AllocError>
    requires { PeriodInLimits period.now }
    ensures { OnOk result
        (string_bytes text.new ≡ string_bytes text.old ++ line_of (period_text period.now)) }
{
    add_date(text, period.date)?;
    text.push_str(", ")?;
    add_time(text, period)?;
    text.push_str(", ")?;
    add_pair(text, period.length, period.penalty)?;
    Ok(())
}

/// Adds a line of two numbers.
pub(crate) fn add_pair(text: &mut String, one: u32, other: u32) -> Result<(), AllocError>
    ensures { OnOk result (string_bytes text.new
        ≡ string_bytes text.old ++ line_of (field_before (decimal one) (decimal other))) }
{
    write!(text, "{one}, {other}\r\n")
}

#[tactic(auto, using(crate::proofs::CanonicalDigits::digit_facts, exam_calendar::proofs::DateLemmas::date_ranges))]
fn add_date(text: &mut String, date: Date) -> Result<(), AllocError>
    requires { IsTrue (is_civil date) }
    ensures { OnOk result (string_bytes text.new ≡ string_bytes text.old ++ date_text date) }
{
    let Date { year, month, day } = date;
    write!(text, "{day:02}:{month:02}:{year:04}")
}

#[tactic(auto, using(crate::proofs::CanonicalDigits::digit_facts))]
fn add_time(text: &mut String, period: &Period) -> Result<(), AllocError>
    requires { PeriodInLimits period.now }
    ensures { OnOk result
        (string_bytes text.new ≡ string_bytes text.old ++ time_text period.now) }
{
    let (hour, minute, second) = (period.hour, period.minute, period.second);
    write!(text, "{hour:02}:{minute:02}:{second:02}")
}

/// Adds the line of an exam and the students who sit it.
pub(crate) fn add_exam(
    text: &mut String,
    exam: Exam,
    students: &[StudentNo],
) -> Result<(), AllocError>
    ensures { OnOk result (string_bytes text.new ≡ string_bytes text.old
        ++ line_of (exam_text (record { minutes = exam.minutes; students = students.now }))) }
{
    let minutes = exam.minutes;
    write!(text, "{minutes}")?;
    for student in students {
        let student = student.get();
        write!(text, ", {student}")?;
    }
    text.push_str("\r\n")
}

/// Adds the line of a rule on the periods of two exams.
pub(crate) fn add_period_rule(text: &mut String, rule: PeriodRule) -> Result<(), AllocError>
    ensures { OnOk result
        (string_bytes text.new ≡ string_bytes text.old ++ line_of (period_rule_text rule)) }
{
    match rule {
        PeriodRule::After(one, other) => add_rule(text, one, "AFTER", other),
        PeriodRule::Coincidence(one, other) => add_rule(text, one, "EXAM_COINCIDENCE", other),
        PeriodRule::Exclusion(one, other) => add_rule(text, one, "EXCLUSION", other),
    }
}

// Adds the line of a word between two exams.
fn add_rule(text: &mut String, one: ExamNo, word: &str, other: ExamNo) -> Result<(), AllocError>
    ensures { OnOk result (string_bytes text.new ≡ string_bytes text.old
        ++ line_of (field_before (decimal one) (field_before word.now (decimal other)))) }
{
    let one = one.get();
    let other = other.get();
    write!(text, "{one}, {word}, {other}\r\n")
}

/// Adds the line of a rule on the room of an exam.
pub(crate) fn add_room_rule(text: &mut String, rule: RoomRule) -> Result<(), AllocError>
    ensures { OnOk result
        (string_bytes text.new ≡ string_bytes text.old ++ line_of (room_rule_text rule)) }
{
    add_word(text, rule.0, "ROOM_EXCLUSIVE")
}

// Adds the line of a word after an exam.
fn add_word(text: &mut String, exam: ExamNo, word: &str) -> Result<(), AllocError>
    ensures { OnOk result (string_bytes text.new
        ≡ string_bytes text.old ++ line_of (field_before (decimal exam) word.now)) }
{
    let exam = exam.get();
    write!(text, "{exam}, {word}\r\n")
}

/// Adds the line of a weighting.
pub(crate) fn add_weighting(text: &mut String, said: Weighting) -> Result<(), AllocError>
    ensures { OnOk result
        (string_bytes text.new ≡ string_bytes text.old ++ line_of (weighting_text said)) }
{
    match said {
        Weighting::Row(weight) => add_weighed(text, "TWOINAROW", weight),
        Weighting::Day(weight) => add_weighed(text, "TWOINADAY", weight),
        Weighting::Spread(periods) => add_weighed(text, "PERIODSPREAD", periods),
        Weighting::Mixed(weight) => add_weighed(text, "NONMIXEDDURATIONS", weight),
        Weighting::Front(exams, periods, weight) => {
            write!(text, "FRONTLOAD,{exams},{periods},{weight}\r\n")
        }
        Weighting::Night(weight) => add_weighed(text, "OVERNIGHT", weight),
    }
}

// Adds the line of a word and its number.
fn add_weighed(text: &mut String, word: &str, number: u32) -> Result<(), AllocError>
    ensures { OnOk result
        (string_bytes text.new
        ≡ string_bytes text.old ++ line_of (word_and_number word.now number)) }
{
    write!(text, "{word},{number}\r\n")
}
