// The report on one solution, and each summand of its penalty.
ghost use Rattle.std.specs.Prelude.{◌≡◌, ◌<◌, ◌++◌, [], OnErr, OnOk, codes, length, string_bytes};
ghost use Rattle.std.specs.Io.KnownBytes.{Appends};
ghost use Rattle.std.specs.List.{flat_map};
ghost use Rattle.exam_reasons.specs.Lists.{listed};
ghost use Rattle.exam_reasons.specs.Pairs.{IsCounted};
ghost use Rattle.exam_reasons.specs.Reasons.{front_reason, front_reasons, mixed_reasons};
ghost use Rattle.exam_reasons.specs.Reasons.{pair_reason, period_reason, period_reasons, room_reason, room_reasons};
ghost use Rattle.office_output.specs.Writing.{WritesFront};
ghost use Rattle.office_check.specs.Why.{Adds, AddsFront, IsSubject, all_pairs_text, front_line};
ghost use Rattle.office_check.specs.Why.{kind_name, mixed_line, pair_line, pairs_text, place_line, why_text};

use crate::checking::{CheckFault, SolutionTask};
use crate::reporting::judge;
use exam_model::{Conflict, Enrolments, ExamNo, Instance, PeriodNo, RoomNo, Timetable};
use exam_reasons::{
    ExamReason, MixedReason, PairKind, PairReason, PlaceReason, costly_pairs, front_reason,
    mixed_reasons, pair_reason, period_reason, reasons_add_up, room_reason,
};
use exam_score::sizes_of;
use office_output::write_text;
use std::alloc::{AllocError, Global};
use std::io::{self, Write};

// How many bytes of lines are held back before they are written.
const FULL: usize = 32_768;

// The buffer of the lines has room for as many bytes, and for one more line, so that it never grows.
pub(crate) const ROOM: usize = FULL + 256;

/// Writes the report and then each summand of the penalty: pairs of exams, rooms and periods with
/// mixed durations, exams of the front load, periods and rooms. The answer is the exit status.
#[derive(Clone, Copy)]
pub struct Why;

impl SolutionTask for Why {
    type Answer = u8;

    ghost use Rattle.office_check.specs.Why.{ExplainsFront, IsExplained};

    ghost writes = { λ _ session enrolled placing old new status.
        IsExplained session enrolled placing old new status };

    ghost writes_front = { λ _ session enrolled placing old new.
        ExplainsFront session enrolled placing old new };

    fn write<W: Write>(
        &self,
        alloc: Global,
        instance: &Instance,
        enrolments: &Enrolments,
        timetable: &Timetable,
        writer: &mut W,
    ) -> Result<u8, CheckFault> {
        reasons_add_up();
        let Ok(judged) = judge(alloc, instance, enrolments, timetable) else {
            return Err(CheckFault::NoMemory);
        };
        let Ok(sizes) = sizes_of(alloc, enrolments) else {
            return Err(CheckFault::NoMemory);
        };
        let Ok(mut lines) = String::with_capacity(alloc, ROOM) else {
            return Err(CheckFault::NoMemory);
        };
        let Ok(pairs) = costly_pairs(alloc, instance, enrolments, timetable) else {
            return Err(CheckFault::NoMemory);
        };
        let Ok(mixed) = mixed_reasons(alloc, instance, timetable) else {
            return Err(CheckFault::NoMemory);
        };
        let subject = Subject {
            instance,
            enrolments,
            timetable,
            sizes: &sizes,
            pairs: &pairs,
        };
        match write_all(writer, &mut lines, judged.text.as_str(), &subject, &mixed) {
            Ok(()) => Ok(judged.status),
            Err(_) => Err(CheckFault::Write),
        }
    }
}

// A timetable with all by which it is judged, the number of each exam's students, and the pairs of
// exams that cost something.
#[derive(Clone, Copy)]
pub(crate) struct Subject<'a> {
    pub instance: &'a Instance,
    pub enrolments: &'a Enrolments,
    pub timetable: &'a Timetable,
    pub sizes: &'a [u32],
    pub pairs: &'a [Conflict],
}

// Writes a report and the summands.
fn write_all<W: Write>(
    writer: &mut W,
    lines: &mut String,
    report: &str,
    subject: &Subject,
    mixed: &[MixedReason],
) -> io::Result<()>
    requires subject { IsSubject subject.now }
    requires mixed { mixed.now
        ≡ mixed_reasons subject.now.instance.now subject.now.timetable.now }
    requires empty { string_bytes lines.old ≡ [] }
    ensures ok { OnOk result (Appends (W.contents writer.old) (W.contents writer.new) (report.now
        ++ why_text subject.now.instance.now subject.now.enrolments.now
        subject.now.timetable.now)) }
    ensures err { OnErr result (WritesFront (W.contents writer.old) (W.contents writer.new)
        (report.now ++ why_text subject.now.instance.now subject.now.enrolments.now
        subject.now.timetable.now)) }
{
    write_text(writer, report.as_bytes())?;
    add_all(writer, lines, subject, mixed)?;
    write_text(writer, lines.as_bytes())?;
    Ok(())
}

// Adds the lines of all summands.
fn add_all<W: Write>(
    writer: &mut W,
    lines: &mut String,
    subject: &Subject,
    mixed: &[MixedReason],
) -> io::Result<()>
    requires subject { IsSubject subject.now }
    requires mixed { mixed.now
        ≡ mixed_reasons subject.now.instance.now subject.now.timetable.now }
    ensures ok { OnOk result (Adds (W.contents writer.old) (W.contents writer.new)
        (string_bytes lines.old) (string_bytes lines.new)
        (why_text subject.now.instance.now subject.now.enrolments.now
        subject.now.timetable.now)) }
    ensures err { OnErr result (AddsFront (W.contents writer.old) (W.contents writer.new)
        (string_bytes lines.old) (why_text subject.now.instance.now subject.now.enrolments.now
        subject.now.timetable.now)) }
{
    add_all_pairs(writer, lines, subject)?;
    add_mixed(writer, lines, mixed)?;
    add_front(writer, lines, subject)?;
    add_periods(writer, lines, subject)?;
    add_rooms(writer, lines, subject)?;
    Ok(())
}

// Adds the lines of all pairs, kind by kind.
pub(crate) fn add_all_pairs<W: Write>(
    writer: &mut W,
    lines: &mut String,
    subject: &Subject,
) -> io::Result<()>
    requires { IsSubject subject.now }
    ensures ok { OnOk result (Adds (W.contents writer.old) (W.contents writer.new)
        (string_bytes lines.old) (string_bytes lines.new)
        (all_pairs_text subject.now.instance.now subject.now.enrolments.now
        subject.now.timetable.now)) }
    ensures err { OnErr result (AddsFront (W.contents writer.old) (W.contents writer.new)
        (string_bytes lines.old) (all_pairs_text subject.now.instance.now subject.now.enrolments.now
        subject.now.timetable.now)) }
{
    add_pairs(writer, lines, subject, PairKind::Row)?;
    add_pairs(writer, lines, subject, PairKind::Day)?;
    add_pairs(writer, lines, subject, PairKind::Spread)?;
    add_pairs(writer, lines, subject, PairKind::Night)?;
    Ok(())
}

// Adds the lines of the pairs of one kind, by the greater exam and then by the smaller one.
fn add_pairs<W: Write>(
    writer: &mut W,
    lines: &mut String,
    subject: &Subject,
    kind: PairKind,
) -> io::Result<()>
    requires { IsSubject subject.now }
    ensures ok { OnOk result (Adds (W.contents writer.old) (W.contents writer.new)
        (string_bytes lines.old) (string_bytes lines.new)
        (pairs_text subject.now.instance.now subject.now.enrolments.now
        subject.now.timetable.now kind)) }
    ensures err { OnErr result (AddsFront (W.contents writer.old) (W.contents writer.new)
        (string_bytes lines.old) (pairs_text subject.now.instance.now subject.now.enrolments.now
        subject.now.timetable.now kind)) }
{
    for pair in subject.pairs {
        add_pair(writer, lines, subject, kind, pair)?;
    }
    Ok(())
}

// Adds the line of two exams, if they cost something.
fn add_pair<W: Write>(
    writer: &mut W,
    lines: &mut String,
    subject: &Subject,
    kind: PairKind,
    pair: &Conflict,
) -> io::Result<()>
    requires subject { IsSubject subject.now }
    requires counted { IsCounted subject.now.enrolments.now pair.now }
    ensures ok { OnOk result (Adds (W.contents writer.old) (W.contents writer.new)
        (string_bytes lines.old) (string_bytes lines.new)
        (flat_map (pair_line kind) (listed (pair_reason subject.now.instance.now
        subject.now.enrolments.now subject.now.timetable.now kind pair.now.exam
        pair.now.other)))) }
    ensures err { OnErr result (AddsFront (W.contents writer.old) (W.contents writer.new)
        (string_bytes lines.old)
        (flat_map (pair_line kind) (listed (pair_reason subject.now.instance.now
        subject.now.enrolments.now subject.now.timetable.now kind pair.now.exam
        pair.now.other)))) }
{
    let reason = pair_reason(subject.instance, subject.timetable, kind, pair);
    match reason {
        Some(reason) => {
            make_room(writer, lines)?;
            Ok(add_pair_line(lines, kind, &reason)?)
        }
        None => Ok(()),
    }
}

// Adds the lines of rooms and periods with mixed durations.
fn add_mixed<W: Write>(writer: &mut W, lines: &mut String, mixed: &[MixedReason]) -> io::Result<()>
    ensures ok { OnOk result (Adds (W.contents writer.old) (W.contents writer.new)
        (string_bytes lines.old) (string_bytes lines.new) (flat_map mixed_line mixed.now)) }
    ensures err { OnErr result (AddsFront (W.contents writer.old) (W.contents writer.new)
        (string_bytes lines.old) (flat_map mixed_line mixed.now)) }
{
    for reason in mixed {
        make_room(writer, lines)?;
        add_mixed_line(lines, reason)?;
    }
    Ok(())
}

// Adds the lines of all exams of the front load.
fn add_front<W: Write>(writer: &mut W, lines: &mut String, subject: &Subject) -> io::Result<()>
    requires { IsSubject subject.now }
    ensures ok { OnOk result (Adds (W.contents writer.old) (W.contents writer.new)
        (string_bytes lines.old) (string_bytes lines.new)
        (flat_map front_line (front_reasons subject.now.instance.now
        subject.now.enrolments.now subject.now.timetable.now))) }
    ensures err { OnErr result (AddsFront (W.contents writer.old) (W.contents writer.new)
        (string_bytes lines.old) (flat_map front_line (front_reasons subject.now.instance.now
        subject.now.enrolments.now subject.now.timetable.now))) }
{
    for exam in 0..subject.instance.exams() {
        add_front_of(writer, lines, subject, ExamNo::new(exam))?;
    }
    Ok(())
}

// Adds the line of an exam, if it adds to the front load.
fn add_front_of<W: Write>(
    writer: &mut W,
    lines: &mut String,
    subject: &Subject,
    exam: ExamNo,
) -> io::Result<()>
    requires subject { IsSubject subject.now }
    requires exists { exam < length subject.now.enrolments.now }
    ensures ok { OnOk result (Adds (W.contents writer.old) (W.contents writer.new)
        (string_bytes lines.old) (string_bytes lines.new)
        (flat_map front_line (listed (front_reason subject.now.instance.now
        subject.now.enrolments.now subject.now.timetable.now exam)))) }
    ensures err { OnErr result (AddsFront (W.contents writer.old) (W.contents writer.new)
        (string_bytes lines.old) (flat_map front_line (listed (front_reason subject.now.instance.now
        subject.now.enrolments.now subject.now.timetable.now exam)))) }
{
    let reason = front_reason(
        subject.instance,
        subject.enrolments,
        subject.timetable,
        subject.sizes,
        exam,
    );
    match reason {
        Some(reason) => {
            make_room(writer, lines)?;
            Ok(add_front_line(lines, &reason)?)
        }
        None => Ok(()),
    }
}

// Adds the lines of all periods with a penalty.
fn add_periods<W: Write>(writer: &mut W, lines: &mut String, subject: &Subject) -> io::Result<()>
    requires { IsSubject subject.now }
    ensures ok { OnOk result (Adds (W.contents writer.old) (W.contents writer.new)
        (string_bytes lines.old) (string_bytes lines.new)
        (flat_map (place_line (codes "period"))
        (period_reasons subject.now.instance.now subject.now.timetable.now))) }
    ensures err { OnErr result (AddsFront (W.contents writer.old) (W.contents writer.new)
        (string_bytes lines.old) (flat_map (place_line (codes "period"))
        (period_reasons subject.now.instance.now subject.now.timetable.now))) }
{
    for period in 0..subject.instance.periods() {
        add_period(writer, lines, subject, PeriodNo::new(period))?;
    }
    Ok(())
}

// Adds the line of a period, if its exams cost something.
fn add_period<W: Write>(
    writer: &mut W,
    lines: &mut String,
    subject: &Subject,
    period: PeriodNo,
) -> io::Result<()>
    requires subject { IsSubject subject.now }
    requires exists { period < length subject.now.instance.now.periods }
    ensures ok { OnOk result (Adds (W.contents writer.old) (W.contents writer.new)
        (string_bytes lines.old) (string_bytes lines.new)
        (flat_map (place_line (codes "period")) (listed (period_reason subject.now.instance.now
        subject.now.timetable.now period)))) }
    ensures err { OnErr result (AddsFront (W.contents writer.old) (W.contents writer.new)
        (string_bytes lines.old)
        (flat_map (place_line (codes "period")) (listed (period_reason subject.now.instance.now
        subject.now.timetable.now period)))) }
{
    match period_reason(subject.instance, subject.timetable, period) {
        Some(reason) => {
            make_room(writer, lines)?;
            Ok(add_place_line(lines, "period", &reason)?)
        }
        None => Ok(()),
    }
}

// Adds the lines of all rooms with a penalty.
fn add_rooms<W: Write>(writer: &mut W, lines: &mut String, subject: &Subject) -> io::Result<()>
    requires { IsSubject subject.now }
    ensures ok { OnOk result (Adds (W.contents writer.old) (W.contents writer.new)
        (string_bytes lines.old) (string_bytes lines.new)
        (flat_map (place_line (codes "room"))
        (room_reasons subject.now.instance.now subject.now.timetable.now))) }
    ensures err { OnErr result (AddsFront (W.contents writer.old) (W.contents writer.new)
        (string_bytes lines.old) (flat_map (place_line (codes "room"))
        (room_reasons subject.now.instance.now subject.now.timetable.now))) }
{
    for room in 0..subject.instance.rooms() {
        add_room(writer, lines, subject, RoomNo::new(room))?;
    }
    Ok(())
}

// Adds the line of a room, if its exams cost something.
fn add_room<W: Write>(
    writer: &mut W,
    lines: &mut String,
    subject: &Subject,
    room: RoomNo,
) -> io::Result<()>
    requires subject { IsSubject subject.now }
    requires exists { room < length subject.now.instance.now.rooms }
    ensures ok { OnOk result (Adds (W.contents writer.old) (W.contents writer.new)
        (string_bytes lines.old) (string_bytes lines.new)
        (flat_map (place_line (codes "room")) (listed (room_reason subject.now.instance.now
        subject.now.timetable.now room)))) }
    ensures err { OnErr result (AddsFront (W.contents writer.old) (W.contents writer.new)
        (string_bytes lines.old)
        (flat_map (place_line (codes "room")) (listed (room_reason subject.now.instance.now
        subject.now.timetable.now room)))) }
{
    match room_reason(subject.instance, subject.timetable, room) {
        Some(reason) => {
            make_room(writer, lines)?;
            Ok(add_place_line(lines, "room", &reason)?)
        }
        None => Ok(()),
    }
}

// Writes the lines that are held back, if they are many.
fn make_room<W: Write>(writer: &mut W, lines: &mut String) -> io::Result<()>
    ensures ok { OnOk result (Adds (W.contents writer.old) (W.contents writer.new)
        (string_bytes lines.old) (string_bytes lines.new) []) }
    ensures err { OnErr result (WritesFront (W.contents writer.old) (W.contents writer.new)
        (string_bytes lines.old)) }
{
    if lines.len() >= FULL {
        write_text(writer, lines.as_bytes())?;
        lines.clear();
    }
    Ok(())
}

// Adds the line of a pair.
fn add_pair_line(lines: &mut String, kind: PairKind, reason: &PairReason) -> Result<(), AllocError>
    ensures { OnOk result (string_bytes lines.new
        ≡ string_bytes lines.old ++ pair_line kind reason.now) }
{
    let name = kind_name(kind);
    let exam = reason.exam.get();
    let other = reason.other.get();
    let students = reason.students;
    let points = reason.points;
    write!(lines, "{name} {exam} {other} {students} {points}\n")
}

// Returns the name of a kind of pairs.
fn kind_name(kind: PairKind) -> &'static str
    ensures { result.now ≡ kind_name kind }
{
    match kind {
        PairKind::Row => "row",
        PairKind::Day => "day",
        PairKind::Spread => "spread",
        PairKind::Night => "night",
    }
}

// Adds the line of a room and period.
fn add_mixed_line(lines: &mut String, reason: &MixedReason) -> Result<(), AllocError>
    ensures { OnOk result (string_bytes lines.new
        ≡ string_bytes lines.old ++ mixed_line reason.now) }
{
    let room = reason.room.get();
    let period = reason.period.get();
    let durations = reason.durations;
    let points = reason.points;
    write!(lines, "mixed {room} {period} {durations} {points}\n")
}

// Adds the line of an exam of the front load.
fn add_front_line(lines: &mut String, reason: &ExamReason) -> Result<(), AllocError>
    ensures { OnOk result (string_bytes lines.new
        ≡ string_bytes lines.old ++ front_line reason.now) }
{
    let exam = reason.exam.get();
    let students = reason.students;
    let points = reason.points;
    write!(lines, "front {exam} {students} {points}\n")
}

// Adds the line of a period or a room.
fn add_place_line(lines: &mut String, name: &str, reason: &PlaceReason) -> Result<(), AllocError>
    ensures { OnOk result (string_bytes lines.new
        ≡ string_bytes lines.old ++ place_line name.now reason.now) }
{
    let number = reason.number;
    let exams = reason.exams;
    let points = reason.points;
    write!(lines, "{name} {number} {exams} {points}\n")
}
