// Every place of a session, with what the edit that puts an exam there answers.
ghost use Rattle.std.specs.Prelude.{◌≡◌, ◌<◌, ◌≤◌, ◌^◌, ◌++◌, ◌∷◌, [], length, map, slice_set, Some, None, IfOk, OnOk};
ghost use Rattle.std.specs.List.{range_with_len};
ghost use Rattle.exam_model.specs.Fits.{Fits, PlaceExists};
ghost use Rattle.exam_score.specs.Track.{track};
ghost use Rattle.exam_places.specs.Answers.{answers_of, place};
ghost use Rattle.exam_places.specs.Places.{edit_answer, places_of};
ghost use Rattle.exam_places.specs.PlaceTable.{is_keeper, place_entry};
ghost use Rattle.exam_places.specs.Unplaced.{ArePeriodFacts, AreTables, IsUnplaced, IsWithout};
ghost use Rattle.exam_places.specs.Unplaced.{answer_by, least_breach, row_by, rows_by, total_without};

use crate::breaches::{capacity_breach, early_breach, exclusive_breach};
use crate::place_row::{PlaceAnswer, PlaceRow};
use crate::place_table::{PlaceEntry, entry_at};
use crate::shares::{period_share, place_share};
use crate::tables::{ExamTables, tables_of};
use crate::unplaced_exam::UnplacedExam;
use exam_model::{Enrolments, ExamNo, Instance, PeriodNo, Place, RoomNo, Timetable};
use exam_rules::Breach;
use exam_score::Parts;
use std::alloc::{AllocError, Global};

/// Returns each place, by period and then by room, with the answer of the edit that puts the exam
/// there: the edit places an unplaced exam and moves a placed one, also to its own place. `parts`
/// is the timetable's penalty. `Err`: out of memory.
pub fn places(
    alloc: Global,
    instance: &Instance,
    enrolments: &Enrolments,
    timetable: &Timetable,
    parts: Parts,
    exam: ExamNo,
) -> Result<Vec<PlaceRow>, AllocError>
    requires fits { Fits instance.now enrolments.now timetable.now }
    requires exists { exam < length instance.now.exams }
    requires scored { parts ≡ track instance.now enrolments.now timetable.now }
    ensures rows { IfOk result (λ rows. rows.items
        ≡ places_of instance.now enrolments.now timetable.now exam) }
    // The edit that puts the exam at a place answers the same.
    ensures edits { IfOk result (λ rows. map (λ row. edit_answer row.answer) rows.items
        ≡ answers_of instance.now enrolments.now timetable.now exam) }
{
    places_if_scored(alloc, instance, enrolments, timetable, parts, exam)
}

/// Returns the same for parts that needn't be the timetable's penalty. If they aren't, as a file may
/// have it whose disk doesn't return what was written, the rows have other penalties.
pub fn places_if_scored(
    alloc: Global,
    instance: &Instance,
    enrolments: &Enrolments,
    timetable: &Timetable,
    parts: Parts,
    exam: ExamNo,
) -> Result<Vec<PlaceRow>, AllocError>
    requires fits { Fits instance.now enrolments.now timetable.now }
    requires exists { exam < length instance.now.exams }
    ensures { parts ≡ track instance.now enrolments.now timetable.now
        → IfOk result (λ rows. rows.items
        ≡ places_of instance.now enrolments.now timetable.now exam) }
{
    let without = cleared(alloc, timetable, exam)?;
    let unplaced = UnplacedExam {
        instance,
        enrolments,
        timetable: &without,
        exam,
    };
    all_rows(alloc, &unplaced, timetable, parts)
}

// Returns the timetable without the exam.
fn cleared(alloc: Global, timetable: &Timetable, exam: ExamNo) -> Result<Timetable, AllocError>
    requires exists { exam < length timetable.now }
    ensures { IfOk result (λ made. made ≡ slice_set timetable.now exam None) }
{
    let mut made = timetable.copy(alloc)?;
    made.clear(exam);
    Ok(made)
}

// Returns the rows of all places for an exam of a timetable, by the timetable without the exam.
fn all_rows(
    alloc: Global,
    unplaced: &UnplacedExam,
    timetable: &Timetable,
    parts: Parts,
) -> Result<Vec<PlaceRow>, AllocError>
    requires unplaced { IsUnplaced unplaced.now }
    requires without { IsWithout unplaced.now timetable.now }
    ensures { parts ≡ track unplaced.now.instance.now unplaced.now.enrolments.now timetable.now
        → IfOk result (λ rows. rows.items ≡ places_of unplaced.now.instance.now
        unplaced.now.enrolments.now timetable.now unplaced.now.exam) }
{
    unplaced.instance.lemma_limits();
    let tables = tables_of(alloc, unplaced)?;
    let total = total_without(unplaced, &tables, timetable, parts);
    let mut rows = Vec::new(alloc);
    for period in 0..unplaced.instance.periods() {
        let period = PeriodNo::new(period);
        add_period(alloc, &mut rows, unplaced, &tables, total, period)?;
    }
    Ok(rows)
}

// Returns the penalty without the exam: less what it adds at its place, if it has one. The parts
// are the timetable's penalty.
fn total_without(
    unplaced: &UnplacedExam,
    tables: &ExamTables,
    timetable: &Timetable,
    parts: Parts,
) -> u64
    requires unplaced { IsUnplaced unplaced.now }
    requires tables { AreTables unplaced.now tables.now }
    requires without { IsWithout unplaced.now timetable.now }
    ensures total { parts
        ≡ track unplaced.now.instance.now unplaced.now.enrolments.now timetable.now
        → result ≡ total_without unplaced.now }
    ensures small { result < 2 ^ 62 }
{
    unplaced.instance.lemma_limits();
    let Some(at) = timetable.get(unplaced.exam) else {
        return parts.total();
    };
    let entry = entry_at(unplaced, &tables.places, &at);
    let share = period_share(unplaced, tables, at.period) + place_share(unplaced, &entry, &at);
    parts.total().saturating_sub(share)
}

// What holds in every room of a period: the first breaches of the rules on periods, and the total
// penalty, but for what the room adds.
#[derive(Clone, Copy)]
struct PeriodFacts {
    early: Option<Breach>,
    late: Option<Breach>,
    total: u64,
}

// Adds the places of a period.
fn add_period(
    alloc: Global,
    rows: &mut Vec<PlaceRow>,
    unplaced: &UnplacedExam,
    tables: &ExamTables,
    total: u64,
    period: PeriodNo,
) -> Result<(), AllocError>
    requires unplaced { IsUnplaced unplaced.now }
    requires tables { AreTables unplaced.now tables.now }
    requires small { total < 2 ^ 62 }
    requires exists { period < length unplaced.now.instance.now.periods }
    ensures { OnOk result (rows.new.items ≡ rows.old.items ++ rows_by unplaced.now total period) }
{
    let entry = tables.periods[period.get() as usize];
    let facts = PeriodFacts {
        early: early_breach(unplaced, &entry, period),
        late: unplaced.late_breach(alloc, period)?,
        total: total + period_share(unplaced, tables, period),
    };
    add_rooms(rows, unplaced, tables, &facts, period)
}

// Adds a row for each room of a period.
fn add_rooms(
    rows: &mut Vec<PlaceRow>,
    unplaced: &UnplacedExam,
    tables: &ExamTables,
    facts: &PeriodFacts,
    period: PeriodNo,
) -> Result<(), AllocError>
    requires unplaced { IsUnplaced unplaced.now }
    requires tables { AreTables unplaced.now tables.now }
    requires exists { period < length unplaced.now.instance.now.periods }
    requires facts { ArePeriodFacts unplaced.now period facts.now }
    ensures { OnOk result (rows.new.items ≡ rows.old.items
        ++ map (row_by unplaced.now facts.now.total period)
        (range_with_len 0 (length unplaced.now.instance.now.rooms))) }
{
    for room in 0..unplaced.instance.rooms() {
        let room = RoomNo::new(room);
        let answer = answer_in(unplaced, tables, facts, &Place { period, room });
        push_row(rows, period, room, answer)?;
    }
    Ok(())
}

// Adds the row of a place.
fn push_row(
    rows: &mut Vec<PlaceRow>,
    period: PeriodNo,
    room: RoomNo,
    answer: Result<u64, Breach>,
) -> Result<(), AllocError>
    ensures { OnOk result (rows.new.items ≡ rows.old.items ++ record {
      period = period;
      room = room;
      answer = answer;
    } ∷ []) }
{
    rows.push(PlaceRow {
        period,
        room,
        answer,
    })?;
    Ok(())
}

// Returns the answer at a place of a period.
fn answer_in(
    unplaced: &UnplacedExam,
    tables: &ExamTables,
    facts: &PeriodFacts,
    at: &Place,
) -> PlaceAnswer
    requires unplaced { IsUnplaced unplaced.now }
    requires tables { AreTables unplaced.now tables.now }
    requires exists { PlaceExists unplaced.now.instance.now (Some at.now) }
    requires facts { ArePeriodFacts unplaced.now at.now.period facts.now }
    ensures { result ≡ answer_by unplaced.now facts.now.total at.now }
{
    unplaced.instance.lemma_limits();
    let keeps = tables.keepers[unplaced.exam.get() as usize];
    let entry = entry_at(unplaced, &tables.places, at);
    match breach_at(unplaced, keeps, &entry, facts, at) {
        Some(breach) => Err(breach),
        None => Ok(facts.total + place_share(unplaced, &entry, at)),
    }
}

// Returns the least breach that names the exam at a place. `keeps`: the exam must have its room to
// itself.
fn breach_at(
    unplaced: &UnplacedExam,
    keeps: bool,
    entry: &PlaceEntry,
    facts: &PeriodFacts,
    at: &Place,
) -> Option<Breach>
    requires unplaced { IsUnplaced unplaced.now }
    requires exists { PlaceExists unplaced.now.instance.now (Some at.now) }
    requires keeps { keeps ≡ is_keeper unplaced.now.instance.now unplaced.now.exam }
    requires entry { entry.now
        ≡ place_entry unplaced.now (length unplaced.now.instance.now.exams) at.now }
    requires facts { ArePeriodFacts unplaced.now at.now.period facts.now }
    ensures { result ≡ least_breach unplaced.now at.now }
{
    if let Some(breach) = facts.early {
        return Some(breach);
    }
    if let Some(breach) = capacity_breach(unplaced, entry, at) {
        return Some(breach);
    }
    if let Some(breach) = facts.late {
        return Some(breach);
    }
    exclusive_breach(unplaced, keeps, entry, at)
}
