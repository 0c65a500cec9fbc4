// The exams whose place differs between two timetables.
ghost use Rattle.std.specs.Prelude.{◌≡◌, ◌<◌, ◌++◌, ◌∷◌, [], All, IfOk, OnOk, filter, length};
ghost use Rattle.exam_changes.specs.Moves.{is_move, is_same_place, moves};

use exam_model::{ExamNo, Place, Timetable};
use std::alloc::{AllocError, Global};

/// An exam with its places in two timetables, if it has them.
#[derive(Clone, Copy)]
pub struct Move {
    pub exam: ExamNo,
    pub from: Option<Place>,
    pub to: Option<Place>,
}

/// Returns the exams whose place differs, ascending. An exam that has a place in only one of the
/// timetables is one of them.
pub fn moves(alloc: Global, before: &Timetable, after: &Timetable) -> Result<Vec<Move>, AllocError>
    requires { length before.now ≡ length after.now }
    ensures all { IfOk result (λ found. found.items ≡ moves before.now after.now) }
    ensures exist { IfOk result (λ found. All (λ m. m.exam < length before.now) found.items) }
{
    let mut found = Vec::new(alloc);
    for exam in 0..before.exams() {
        let exam = ExamNo::new(exam);
        add_if_moved(&mut found, exam, before.get(exam), after.get(exam))?;
    }
    Ok(found)
}

// Adds an exam, if its places differ.
fn add_if_moved(
    found: &mut Vec<Move>,
    exam: ExamNo,
    from: Option<Place>,
    to: Option<Place>,
) -> Result<(), AllocError>
    ensures { OnOk result (found.new.items ≡ found.old.items
        ++ filter is_move (record { exam = exam; from = from; to = to } ∷ [])) }
{
    if !is_same_place(&from, &to) {
        found.push(Move { exam, from, to })?;
    }
    Ok(())
}

// Returns whether both are one place, or both none.
fn is_same_place(from: &Option<Place>, to: &Option<Place>) -> bool
    ensures { result ≡ is_same_place from.now to.now }
{
    match (from, to) {
        (Some(from), Some(to)) => from.period == to.period && from.room == to.room,
        (None, None) => true,
        _ => false,
    }
}
