// What a candidate sees of the office.
ghost use Rattle.std.specs.Prelude.{◌≡◌, ◌==◌, IfOk, Option, map};
ghost use Rattle.std.specs.Prelude.{option_and_then, option_map};
ghost use Rattle.std.specs.List.{list_any};
ghost use Rattle.exam_publish.specs.Changed.{sorted_numbers};
ghost use Rattle.office_model.specs.Office.{Publication};
ghost use Rattle.office_model.specs.ViewRows.{AreOfPublication, place_in, place_of_seat, seat_in};
ghost use Rattle.office_model.specs.ViewRows.{view_row};
ghost use Rattle.office_model.specs.Shown.{shown_exams, shown_place};
ghost use Rattle.office_model.specs.Views.{candidate_exams, view_from};

use exam_calendar::Date;
use exam_model::{ExamNo, Instance, PeriodNo, Place, RoomNo, StudentNo};
use exam_publish::SeatRow;
use exam_score::PersonalParts;
use std::alloc::{AllocError, Global};
use std::marker::Model;

/// A published place, with the day and the time of its period.
#[derive(Clone, Copy, Debug, PartialEq, Eq)]
pub struct ShownPlace {
    pub period: PeriodNo,
    pub date: Date,
    pub hour: u8,
    pub minute: u8,
    pub second: u8,
    pub room: RoomNo,
}

/// One of a candidate's exams: one in which they are enrolled or have a seat.
#[derive(Clone, Copy, Debug, PartialEq, Eq)]
pub struct ViewRow {
    pub exam: ExamNo,
    pub enrolled: bool,
    /// Its published place, if there is a publication.
    pub at: Option<ShownPlace>,
    pub seat: Option<u32>,
}

/// What a candidate sees: their number, their exams by number, and the cost of the periods of those
/// in which they have a seat.
#[derive(Drop)]
pub struct CandidateView {
    student: StudentNo,
    rows: Vec<ViewRow>,
    personal: PersonalParts,
}

impl Model for CandidateView {
    ghost use Rattle.office_model.specs.Shown.{ShownView};

    ghost Value = { ShownView };

    ghost view = { λ v. record {
      student = v.student;
      exams = v.rows.items;
      personal = v.personal;
    } };
}

impl CandidateView {
    pub fn new(student: StudentNo, rows: Vec<ViewRow>, personal: PersonalParts) -> CandidateView
        ensures { result ≡ record {
          student = student;
          exams = rows.items;
          personal = personal;
        } }
    {
        CandidateView {
            student,
            rows,
            personal,
        }
    }

    /// Returns the candidate's number.
    pub fn student(&self) -> StudentNo
        ensures { result ≡ self.now.student }
    {
        self.student
    }

    /// Returns the candidate's exams, by number.
    pub fn rows(&self) -> &[ViewRow]
        ensures { result.now ≡ self.now.exams }
    {
        &self.rows
    }

    /// Returns the cost of the candidate's exams with a seat.
    pub fn personal(&self) -> PersonalParts
        ensures { result ≡ self.now.personal }
    {
        self.personal
    }
}

/// Returns the exams in a candidate's view: those in which they are enrolled or have a seat, by
/// number. `enrolled` are the exams in which they are enrolled, `places` the published places of
/// these, and `seats` their seat rows.
pub fn view_rows(
    alloc: Global,
    instance: &Instance,
    enrolled: &[ExamNo],
    places: &[(ExamNo, Place)],
    seats: &[SeatRow],
) -> Result<Vec<ViewRow>, AllocError>
    ensures { IfOk result (λ rows. (published : Option Publication)
        → AreOfPublication published enrolled.now places.now seats.now
        → rows.items ≡ shown_exams (view_from instance.now enrolled.now published seats.now)) }
{
    let exams = candidate_exams(alloc, enrolled, seats)?;
    rows_of(alloc, instance, enrolled, places, seats, &exams)
}

// Returns the rows of these exams, in their order.
fn rows_of(
    alloc: Global,
    instance: &Instance,
    enrolled: &[ExamNo],
    places: &[(ExamNo, Place)],
    seats: &[SeatRow],
    exams: &[ExamNo],
) -> Result<Vec<ViewRow>, AllocError>
    ensures { IfOk result (λ rows. rows.items
        ≡ map (view_row instance.now.periods enrolled.now places.now seats.now) exams.now) }
{
    exams
        .iter()
        .map(|exam| view_row(instance, enrolled, places, seats, *exam))
        .collect(alloc)
}

// Returns the exams of a candidate's enrolments and of their seats together, ascending, each once.
fn candidate_exams(
    alloc: Global,
    enrolled: &[ExamNo],
    seats: &[SeatRow],
) -> Result<Vec<ExamNo>, AllocError>
    ensures { IfOk result (λ exams. exams.items ≡ candidate_exams enrolled.now seats.now) }
{
    let mut exams = Vec::from_slice(alloc, enrolled)?;
    for row in seats {
        exams.push(row.exam)?;
    }
    Ok(in_order(exams))
}

// Returns the exams in order, each once.
fn in_order(mut exams: Vec<ExamNo>) -> Vec<ExamNo>
    ensures { result.items ≡ sorted_numbers exams.items }
{
    exams.sort_unstable();
    exams.dedup();
    exams
}

// Returns one of a candidate's exams: whether they are enrolled, its published place, and their
// seat.
fn view_row(
    instance: &Instance,
    enrolled: &[ExamNo],
    places: &[(ExamNo, Place)],
    seats: &[SeatRow],
    exam: ExamNo,
) -> ViewRow
    ensures { result
        ≡ view_row instance.now.periods enrolled.now places.now seats.now exam }
{
    ViewRow {
        exam,
        enrolled: is_among(enrolled, exam),
        at: shown_place(instance, published_at(places, seats, exam)),
        seat: seat_number(seats, exam),
    }
}

fn is_among(exams: &[ExamNo], exam: ExamNo) -> bool
    ensures { result ≡ list_any (λ e. e == exam) exams.now }
{
    exams.contains(&exam)
}

// Returns the place of a candidate's seat in an exam; without a seat the known place.
fn published_at(places: &[(ExamNo, Place)], seats: &[SeatRow], exam: ExamNo) -> Option<Place>
    ensures { result ≡ place_of_seat (seat_in seats.now exam) (place_in places.now exam) }
{
    match seat_in(seats, exam) {
        Some(row) => Some(Place {
            period: row.period,
            room: row.room,
        }),
        None => place_in(places, exam),
    }
}

fn seat_in(seats: &[SeatRow], exam: ExamNo) -> Option<SeatRow>
    ensures { result ≡ seat_in seats.now exam }
{
    for row in seats {
        if row.exam == exam {
            return Some(*row);
        }
    }
    None
}

fn place_in(places: &[(ExamNo, Place)], exam: ExamNo) -> Option<Place>
    ensures { result ≡ place_in places.now exam }
{
    let found = places.iter().find(|found| found.0 == exam)?;
    Some(found.1)
}

// Returns the number of a candidate's seat in an exam, if they have one there.
fn seat_number(seats: &[SeatRow], exam: ExamNo) -> Option<u32>
    ensures { result ≡ option_map (λ row. row.seat) (seat_in seats.now exam) }
{
    Some(seat_in(seats, exam)?.seat)
}

// Returns a place with the day and the time of its period, if there is such a period.
fn shown_place(instance: &Instance, place: Option<Place>) -> Option<ShownPlace>
    ensures { result ≡ option_and_then (shown_place instance.now.periods) place }
{
    let at = place?;
    if at.period.get() >= instance.periods() {
        return None;
    }
    let period = instance.period(at.period);
    Some(ShownPlace {
        period: at.period,
        date: period.date,
        hour: period.hour,
        minute: period.minute,
        second: period.second,
        room: at.room,
    })
}
