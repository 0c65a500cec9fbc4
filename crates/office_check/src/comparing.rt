// Comparing two solutions of one session.
ghost use Rattle.std.specs.Prelude.{◌≡◌, ◌≢◌, ◌+◌, ◌++◌, ℕ, List, codes, length, string_bytes};
ghost use Rattle.std.specs.Prelude.{IfErr, IfOk, IfSome, OnOk};
ghost use Rattle.std.specs.Io.KnownBytes.{Keeps};
ghost use Rattle.std.specs.List.{flat_map};
ghost use Rattle.exam_terms.specs.declared.limits.TheConstants.{INSTANCE_BYTES, TEXT_BYTES};
ghost use Rattle.exam_model.specs.Fits.{Fits};
ghost use Rattle.exam_changes.specs.Gained.{gained};
ghost use Rattle.exam_changes.specs.Moves.{candidates_of, moves};
ghost use Rattle.office_files.specs.Inputs.{ReadsAtMost};
ghost use Rattle.office_output.specs.Writing.{WritesFront};
ghost use Rattle.office_reports.specs.Reports.{number_line};
ghost use Rattle.office_check.specs.Compare.{Compares, ComparesFrom, ComparesSome};
ghost use Rattle.office_check.specs.Compare.{IsComparisonFrom, RefusesComparison, breaches_text};
ghost use Rattle.office_check.specs.Compare.{comparison_text, move_line, moves_text, numbers_line};
ghost use Rattle.office_check.specs.Compare.{of_after, parts_text, place_words};

use crate::checking::{CheckFault, files_of, solution_of};
use exam_changes::{Move, candidates, moves, new_breaches};
use exam_model::{Enrolments, Instance, Place, Timetable};
use exam_rules::breaches;
use exam_score::{Parts, score};
use office_files::{FileFault, InputFault};
use office_output::write_text;
use office_reports::violation_report;
use std::alloc::{AllocError, Global};
use std::io::{Read, Write};

/// Why two solutions are not compared, in the order of the work.
#[derive(Clone, Copy, Debug, PartialEq, Eq)]
pub enum CompareFault {
    /// A fault that judging the first solution has too.
    Check(CheckFault),
    /// The second solution's reader failed, or had no end within 5,000,000 reads.
    ReadAfter,
    /// The second solution's text is faulty.
    After(FileFault),
}

/// Compares two solutions of a session, and writes what differs: the exams that moved, how many
/// candidates sit them, each part of the penalty before and after, the breaches gained and those
/// lost. The solutions may break rules. Each reader has 5,000,000 reads; an interrupted read counts,
/// and is retried.
pub fn compare_run<R: Read, P: Read, Q: Read, W: Write>(
    alloc: Global,
    instance_reader: &mut R,
    before_reader: &mut P,
    after_reader: &mut Q,
    writer: &mut W,
) -> Result<(), CompareFault>
    ensures done { IfOk result (λ _. IfSome (R.remaining instance_reader.old) (λ instance.
        IfSome (P.remaining before_reader.old) (λ before.
        IfSome (Q.remaining after_reader.old) (λ after.
        Compares instance before after (W.contents writer.old) (W.contents writer.new))))) }

    // Even if the readers' bytes are not known, the solutions of some texts are compared; a text that
    // is known is one of them.
    ensures compared { IfOk result (λ _.
        ComparesSome (W.contents writer.old) (W.contents writer.new)) }
    ensures from { IfOk result (λ _. ComparesFrom (R.remaining instance_reader.old)
        (P.remaining before_reader.old) (Q.remaining after_reader.old)
        (W.contents writer.old) (W.contents writer.new)) }

    // In the order of the work: the session, the first solution, the second one, the comparison.
    ensures refused { IfErr result (λ fault.
        IfSome (R.remaining instance_reader.old) (λ instance.
        IfSome (P.remaining before_reader.old) (λ before.
        IfSome (Q.remaining after_reader.old) (λ after.
        RefusesComparison instance before after fault)))) }
    ensures unwritten { IfErr result (λ fault. fault ≢ CompareFault.Check CheckFault.Write
        → Keeps (W.contents writer.old) (W.contents writer.new)) }
    // If the comparison could not be written whole, a front of it was.
    ensures front { IfErr result (λ fault. fault ≡ CompareFault.Check CheckFault.Write
        → (text : List ℕ) × IsComparisonFrom (R.remaining instance_reader.old)
        (P.remaining before_reader.old) (Q.remaining after_reader.old) text
        × WritesFront (W.contents writer.old) (W.contents writer.new) text) }

    // Each reader is read at most one byte past its limit.
    ensures instance_taken { ReadsAtMost (INSTANCE_BYTES + 1)
        (R.remaining instance_reader.old) (R.remaining instance_reader.new) }
    ensures before_taken { ReadsAtMost (TEXT_BYTES + 1)
        (P.remaining before_reader.old) (P.remaining before_reader.new) }
    ensures after_taken { ReadsAtMost (TEXT_BYTES + 1)
        (Q.remaining after_reader.old) (Q.remaining after_reader.new) }
{
    let text = comparison_of(alloc, instance_reader, before_reader, after_reader)?;
    match write_text(writer, text.as_bytes()) {
        Ok(()) => Ok(()),
        Err(_) => Err(CompareFault::Check(CheckFault::Write)),
    }
}

// Returns what differs between the solutions of the readers' texts.
fn comparison_of<R: Read, P: Read, Q: Read>(
    alloc: Global,
    instance_reader: &mut R,
    before_reader: &mut P,
    after_reader: &mut Q,
) -> Result<String, CompareFault>
    ensures from { IfOk result (λ text. IsComparisonFrom (R.remaining instance_reader.old)
        (P.remaining before_reader.old) (Q.remaining after_reader.old) (string_bytes text)) }
    ensures refused { IfErr result (λ fault.
        IfSome (R.remaining instance_reader.old) (λ instance.
        IfSome (P.remaining before_reader.old) (λ before.
        IfSome (Q.remaining after_reader.old) (λ after.
        RefusesComparison instance before after fault)))) }
    ensures unwritten { IfErr result (λ fault. fault ≢ CompareFault.Check CheckFault.Write) }
    ensures instance_taken { ReadsAtMost (INSTANCE_BYTES + 1)
        (R.remaining instance_reader.old) (R.remaining instance_reader.new) }
    ensures before_taken { ReadsAtMost (TEXT_BYTES + 1)
        (P.remaining before_reader.old) (P.remaining before_reader.new) }
    ensures after_taken { ReadsAtMost (TEXT_BYTES + 1)
        (Q.remaining after_reader.old) (Q.remaining after_reader.new) }
{
    let (instance, enrolments, before) = match files_of(alloc, instance_reader, before_reader) {
        Ok(read) => read,
        Err(fault) => return Err(CompareFault::Check(fault)),
    };
    let after = match solution_of(alloc, after_reader, &instance) {
        Ok(after) => after,
        Err(fault) => return Err(of_after(fault)),
    };
    match comparison(alloc, &instance, &enrolments, &before, &after) {
        Ok(text) => Ok(text),
        Err(_) => Err(CompareFault::Check(CheckFault::NoMemory)),
    }
}

fn of_after(fault: InputFault) -> CompareFault
    ensures { result ≡ of_after fault }
{
    match fault {
        InputFault::Read => CompareFault::ReadAfter,
        InputFault::File(fault) => CompareFault::After(fault),
        InputFault::NoMemory => CompareFault::Check(CheckFault::NoMemory),
    }
}

// Returns what differs between two timetables.
fn comparison(
    alloc: Global,
    instance: &Instance,
    enrolments: &Enrolments,
    before: &Timetable,
    after: &Timetable,
) -> Result<String, AllocError>
    requires before { Fits instance.now enrolments.now before.now }
    requires after { Fits instance.now enrolments.now after.now }
    ensures { IfOk result (λ text. string_bytes text
        ≡ comparison_text instance.now enrolments.now before.now after.now) }
{
    let mut text = String::new(alloc);
    add_moved(alloc, &mut text, enrolments, before, after)?;
    let parts = score(alloc, instance, enrolments, before)?;
    let new_parts = score(alloc, instance, enrolments, after)?;
    add_parts(&mut text, &parts, &new_parts)?;
    add_breaches(alloc, &mut text, instance, enrolments, before, after)?;
    Ok(text)
}

// Adds the lines of the exams that moved, and how many candidates sit them.
fn add_moved(
    alloc: Global,
    text: &mut String,
    enrolments: &Enrolments,
    before: &Timetable,
    after: &Timetable,
) -> Result<(), AllocError>
    requires exams { length before.now ≡ length enrolments.now }
    requires same { length before.now ≡ length after.now }
    ensures { OnOk result (string_bytes text.new ≡ string_bytes text.old
        ++ moves_text (moves before.now after.now)
        ++ number_line (codes "candidates")
        (length (candidates_of enrolments.now (moves before.now after.now)))) }
{
    let moved = moves(alloc, before, after)?;
    let sitters = candidates(alloc, enrolments, &moved)?;
    add_number(text, "moved", moved.len())?;
    add_moves(text, &moved)?;
    add_number(text, "candidates", sitters.len())?;
    Ok(())
}

// Adds a line of a name and its number.
fn add_number(text: &mut String, name: &str, number: usize) -> Result<(), AllocError>
    ensures { OnOk result (string_bytes text.new
        ≡ string_bytes text.old ++ number_line name.now number) }
{
    write!(text, "{name} {number}\n")
}

// Adds the lines of exams that moved.
fn add_moves(text: &mut String, moves: &[Move]) -> Result<(), AllocError>
    ensures { OnOk result (string_bytes text.new
        ≡ string_bytes text.old ++ flat_map move_line moves.now) }
{
    for moved in moves {
        add_move(text, moved)?;
    }
    Ok(())
}

// Adds the line of an exam that moved.
fn add_move(text: &mut String, moved: &Move) -> Result<(), AllocError>
    ensures { OnOk result (string_bytes text.new ≡ string_bytes text.old ++ move_line moved.now) }
{
    let exam = moved.exam.get();
    write!(text, "{exam} ")?;
    add_place(text, moved.from)?;
    text.push_str(" ")?;
    add_place(text, moved.to)?;
    text.push_str("\n")?;
    Ok(())
}

// Adds the numbers of a place, or two dashes.
fn add_place(text: &mut String, place: Option<Place>) -> Result<(), AllocError>
    ensures { OnOk result (string_bytes text.new ≡ string_bytes text.old ++ place_words place) }
{
    match place {
        Some(place) => {
            let period = place.period.get();
            let room = place.room.get();
            write!(text, "{period} {room}")
        }
        None => text.push_str("- -"),
    }
}

// Adds the lines of the parts of two penalties, and of their totals.
fn add_parts(text: &mut String, before: &Parts, after: &Parts) -> Result<(), AllocError>
    ensures { OnOk result (string_bytes text.new
        ≡ string_bytes text.old ++ parts_text before.now after.now) }
{
    add_numbers(text, "two in a row", before.row(), after.row())?;
    add_numbers(text, "two in a day", before.day(), after.day())?;
    add_numbers(text, "period spread", before.spread(), after.spread())?;
    add_numbers(text, "over night", before.night(), after.night())?;
    add_numbers(text, "mixed durations", before.mixed(), after.mixed())?;
    add_numbers(text, "front load", before.front(), after.front())?;
    add_numbers(text, "period penalty", before.period(), after.period())?;
    add_numbers(text, "room penalty", before.room(), after.room())?;
    add_numbers(text, "total", before.total(), after.total())?;
    Ok(())
}

// Adds a line of a name and its numbers before and after.
fn add_numbers(text: &mut String, name: &str, before: u64, after: u64) -> Result<(), AllocError>
    ensures { OnOk result (string_bytes text.new
        ≡ string_bytes text.old ++ numbers_line name.now before after) }
{
    write!(text, "{name} {before} {after}\n")
}

// Adds the lines of the breaches gained, and then of those lost.
fn add_breaches(
    alloc: Global,
    text: &mut String,
    instance: &Instance,
    enrolments: &Enrolments,
    before: &Timetable,
    after: &Timetable,
) -> Result<(), AllocError>
    requires before { Fits instance.now enrolments.now before.now }
    requires after { Fits instance.now enrolments.now after.now }
    ensures { OnOk result (string_bytes text.new ≡ string_bytes text.old
        ++ breaches_text (gained instance.now enrolments.now before.now after.now)
        (gained instance.now enrolments.now after.now before.now)) }
{
    let found = breaches(alloc, instance, enrolments, before)?;
    let new_found = breaches(alloc, instance, enrolments, after)?;
    let gained = new_breaches(alloc, &found, &new_found)?;
    let lost = new_breaches(alloc, &new_found, &found)?;
    text.push_str("gained ")?;
    text.push_str(violation_report(alloc, &gained)?.as_str())?;
    text.push_str("lost ")?;
    text.push_str(violation_report(alloc, &lost)?.as_str())?;
    Ok(())
}
