// Laws of the office: functions with no code, whose contracts are the laws.
ghost use Rattle.std.specs.Prelude.{◌≡◌, ◌<◌, ℕ, List, length, true};
ghost use Rattle.exam_model.specs.declared.change.Change.{Change};
ghost use Rattle.exam_model.specs.Enrolments.{Enrolled};
ghost use Rattle.exam_model.specs.Instance.{Session};
ghost use Rattle.exam_model.specs.Timetable.{Placing};
ghost use Rattle.exam_places.specs.Answers.{place};
ghost use Rattle.exam_places.specs.Places.{place_row};
ghost use Rattle.office_policy.specs.Commands.{PlainCommand, draft_places};
ghost use Rattle.office_policy.specs.declared.callers.Caller.{Caller};
ghost use Rattle.office_policy.specs.declared.callers.Caller.TheVariants.{Cand};
ghost use Rattle.office_model.specs.Answers.{PlainAnswer, has_stored_data};
ghost use Rattle.office_model.specs.Candidates.{answer_to};
ghost use Rattle.office_model.specs.Office.{OfficeState};
ghost use Rattle.office_model.specs.PlaceEdits.{line_answer, put_command};
ghost use Rattle.office_model.specs.Quiet.{IsQuiet};
ghost use Rattle.office_model.specs.Runs.{Exchange, QuietRun, RunWith};
ghost use Rattle.office_model.specs.Step.{Steps, allowed_in, draft_in_session, step};
ghost use Rattle.office_model.specs.Views.{view_of};

/// A candidate's command changes nothing, and its answer is a function of their view.
pub fn reply_by_view()
    ensures { (s : ℕ) (office : OfficeState) (command : PlainCommand)
        → step office (Cand s) command ≡ (office, answer_to s command (view_of s office)) }
{}

/// Two offices with the same view of a candidate give the same answers to all of their commands.
pub fn same_view_same_answer()
    ensures { (s : ℕ) (one other : OfficeState) (command : PlainCommand)
        → view_of s one ≡ view_of s other
        → (step one (Cand s) command).1 ≡ (step other (Cand s) command).1 }
{}

/// A quiet request doesn't change the view.
pub fn quiet_step()
    ensures { (s : ℕ) (old new : OfficeState) (caller : Caller) (command : PlainCommand)
        (answer : PlainAnswer) → Steps old caller command answer new
        → IsQuiet s old command answer → view_of s new ≡ view_of s old }
{}

/// Quiet requests in a row don't change the view.
pub fn quiet_run()
    ensures { (s : ℕ) (old new : OfficeState) (requests : List Exchange)
        → QuietRun s old requests new → view_of s new ≡ view_of s old }
{}

/// Two runs from one office that make the same changes to a candidate, in the same order, lead to
/// equal views of the candidate.
pub fn same_changes_same_view()
    ensures { (s : ℕ) (changes : List Change) (old one other : OfficeState)
        (first second : List Exchange) → RunWith s changes old first one
        → RunWith s changes old second other → view_of s one ≡ view_of s other }
{}

/// An answer that shows something changes nothing.
pub fn shown_changes_nothing()
    ensures { (old new : OfficeState) (caller : Caller) (command : PlainCommand)
        (answer : PlainAnswer) → Steps old caller command answer new → has_stored_data answer ≡ true
        → new ≡ old }
{}

/// The edit that puts an exam at a place, if it is asked for next, answers what the exam's line for
/// this place says. Who may ask for the lines may ask for the edit.
pub fn places_are_edits()
    ensures { (office : OfficeState) (caller : Caller) (I : Session) (E : Enrolled) (T : Placing)
        (d e p r : ℕ) → allowed_in office caller (draft_places d e) ≡ Ok tt
        → draft_in_session d office ≡ Ok (((I, E), T), office)
        → e < length I.exams → p < length I.periods → r < length I.rooms
        → (step office caller (put_command d T e (place p r))).1
        ≡ line_answer d (place_row I E T e p r).answer }
{}
