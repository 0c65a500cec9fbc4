// A candidate's view of the office.
ghost use Rattle.std.specs.Prelude.{◌≡◌, ◌==◌, ℕ, IfOk, Some, find, map};
ghost use Rattle.sqlite.specs.Held.{state};
ghost use Rattle.sqlite.specs.State.{HasCleanDisk};
ghost use Rattle.office_model.specs.Office.{AreRecords, OfficeState, Records};
ghost use Rattle.office_model.specs.Shown.{shown_exams, shown_penalty, shown_to};
ghost use Rattle.office_model.specs.Views.{view_of};
ghost use Rattle.office_records.specs.Representation.{RepresentsOffice};
ghost use Rattle.office_store.specs.Judging.{plain_list};
ghost use Rattle.office_store.specs.Leaving.{LeavesUnchanged};
ghost use Rattle.office_store.specs.Running.{QueryReturned, ReturnsValue};
ghost use Rattle.office_store.specs.Viewing.{AreCandidateRows, place_in_row};

use crate::candidate_share::checked_share;
use crate::fault::StatementFailed;
use crate::office::Office;
use exam_model::{ExamNo, Instance, PeriodNo, Place, RoomNo, StudentNo};
use exam_score::PersonalParts;
use office_model::{CandidateView, StoreFault, ViewRow, view_rows};
use office_records::own_seats;
use office_tables::tables::{
    EnrolRow, EnrolsOf, PlacedRow, PlacementsOf, SeatRow, SeatsOf, StudentSharesOf,
};
use sqlite::Alter;
use std::alloc::{AllocError, Global};

// The rows of a candidate's enrolments, of the places of these exams, and of their seats.
#[derive(Drop)]
struct CandidateRows {
    enrols: Vec<EnrolRow>,
    places: Vec<PlacedRow>,
    seats: Vec<SeatRow>,
}

impl<S: Alter> Office<S> {
    /// Returns a candidate's view: the exams of their enrolments and seats, and their share of the
    /// penalty. No other candidate's rows are read. Before a load the view is empty.
    pub fn candidate_view(
        &mut self,
        alloc: Global,
        student: StudentNo,
    ) -> Result<CandidateView, StoreFault>
        ensures reads { QueryReturned S.Store (λ o. shown_to student (view_of student o))
            self.old self.new result }
        // While it is open, the database is unchanged. On `Ok` memory and the file agree.
        ensures leaves { LeavesUnchanged S.Store self.old self.new result }
    {
        let exams = self.candidate_exams(alloc, student)?;
        let personal = self.candidate_penalty(alloc, student)?;
        Ok(CandidateView::new(student, exams, personal))
    }

    /// Returns one exam of a candidate's view, from only their enrolments, places and seats.
    /// `None`: the exam isn't in their view, or nothing is loaded.
    pub fn candidate_exam(
        &mut self,
        alloc: Global,
        student: StudentNo,
        exam: ExamNo,
    ) -> Result<Option<ViewRow>, StoreFault>
        ensures reads { QueryReturned S.Store
            (λ o. find (λ row. row.exam == exam) (shown_exams (view_of student o)))
            self.old self.new result }
        // While it is open, the database is unchanged. On `Ok` memory and the file agree.
        ensures leaves { LeavesUnchanged S.Store self.old self.new result }
    {
        let rows = self.candidate_exams(alloc, student)?;
        Ok(row_of(&rows, exam))
    }

    /// Returns a candidate's share of the penalty, from only their own row.
    pub fn candidate_penalty(
        &mut self,
        alloc: Global,
        student: StudentNo,
    ) -> Result<PersonalParts, StoreFault>
        ensures reads { QueryReturned S.Store (λ o. shown_penalty (view_of student o))
            self.old self.new result }
        // While it is open, the database is unchanged. On `Ok` memory and the file agree.
        ensures leaves { LeavesUnchanged S.Store self.old self.new result }
    {
        let number = student.get();
        let rows = self.ask(alloc, &StudentSharesOf { student: number })?;
        checked_share(&rows)
    }

    // Returns all exams of a candidate's view; none if nothing is loaded.
    fn candidate_exams(
        &mut self,
        alloc: Global,
        student: StudentNo,
    ) -> Result<Vec<ViewRow>, StoreFault>
        ensures reads { QueryReturned S.Store (λ o. shown_exams (view_of student o))
            self.old self.new (plain_list result) }
        ensures leaves { LeavesUnchanged S.Store self.old self.new result }
    {
        let found = self.candidate_rows(alloc, student)?;
        let Some((instance, _)) = &self.memory.kept else {
            return Ok(Vec::new(alloc));
        };
        exams_from(alloc, instance, &found)
    }

    // Returns all rows of a candidate except their share.
    fn candidate_rows(
        &mut self,
        alloc: Global,
        student: StudentNo,
    ) -> Result<CandidateRows, StatementFailed>
        ensures rows { HasCleanDisk (state S.Store self.new) → (office : OfficeState)
            → RepresentsOffice (state S.Store self.new).now office
            → IfOk result (λ found. AreCandidateRows office student found.enrols.items
            found.places.items found.seats.items) }
        ensures leaves { LeavesUnchanged S.Store self.old self.new result }
    {
        let number = student.get();
        let enrols = self.ask(alloc, &EnrolsOf { student: number })?;
        let places = self.ask(alloc, &PlacementsOf { student: number })?;
        let seats = self.ask(alloc, &SeatsOf { student: number })?;
        Ok(CandidateRows {
            enrols,
            places,
            seats,
        })
    }
}

// Returns the exams that these rows show of the session in memory; the student can be anyone.
fn exams_from(
    alloc: Global,
    instance: &Instance,
    found: &CandidateRows,
) -> Result<Vec<ViewRow>, StoreFault>
    ensures meaning { (s : ℕ) (r : Records) → AreRecords r → r.session ≡ instance.now
        → AreCandidateRows (Some r) s found.now.enrols.items found.now.places.items
        found.now.seats.items
        → ReturnsValue (shown_exams (view_of s (Some r))) (plain_list result) }
{
    let enrolled = exams_of(alloc, &found.enrols)?;
    let places = places_of(alloc, &found.places)?;
    let seats = own_seats(alloc, &found.seats)?;
    let rows = view_rows(alloc, instance, &enrolled, &places, &seats)?;
    Ok(rows)
}

// Returns the row of this exam, if there is one.
fn row_of(rows: &[ViewRow], exam: ExamNo) -> Option<ViewRow>
    ensures { result ≡ find (λ row. row.exam == exam) rows.now }
{
    for row in rows {
        if row.exam == exam {
            return Some(*row);
        }
    }
    None
}

pub(crate) fn exams_of(alloc: Global, rows: &[EnrolRow]) -> Result<Vec<ExamNo>, AllocError>
    ensures { IfOk result (λ exams. exams.items ≡ map (λ row. row.exam) rows.now) }
{
    rows.iter().map(|row| ExamNo::new(row.exam)).collect(alloc)
}

fn places_of(alloc: Global, rows: &[PlacedRow]) -> Result<Vec<(ExamNo, Place)>, AllocError>
    ensures { IfOk result (λ places. places.items ≡ map place_in_row rows.now) }
{
    rows.iter().map(|row| place_in(row)).collect(alloc)
}

fn place_in(row: &PlacedRow) -> (ExamNo, Place)
    ensures { result ≡ place_in_row row.now }
{
    let place = Place {
        period: PeriodNo::new(row.period),
        room: RoomNo::new(row.room),
    };
    (ExamNo::new(row.exam), place)
}
