// The desk, which runs every command of the office.
ghost use Rattle.std.specs.Prelude.{◌≡◌, ◌⊎◌, IfErr, IfOk, MatchBool};
ghost use Rattle.sqlite.specs.Held.{state};
ghost use Rattle.sqlite.specs.State.{HasCleanDisk};
ghost use Rattle.office_policy.specs.Commands.{HasSmallNumbers, plain_command};
ghost use Rattle.office_store.specs.Leaving.{LeavesAsItWas};
ghost use Rattle.office_store.specs.Running.{IsCommitted};
ghost use Rattle.office_store.specs.Shut.{IsShut};
ghost use Rattle.office_desk.specs.Answers.{plain_answer};
ghost use Rattle.office_desk.specs.Performing.{CommandAnswered, CommandPerformed, answer_of};

use crate::answer::Answer;
use crate::candidates::{candidate, me, my_exam, my_penalty};
use crate::changing::{
    body_or_answer, drop_draft, edit, enrol_batch, load, new_draft, publish, set_owner,
};
use crate::judging::permission;
use crate::publications::{publication, publication_penalty, publication_rooms, publication_seats};
use crate::showing::{draft, instance, penalty, places, violations};
use office_policy::{Caller, Command};
use office_store::{Edit, Office, StoreFault};
use sqlite::Alter;
use std::alloc::Global;
use std::marker::Model;

/// The desk of an office. Contracts see the office.
#[derive(Drop)]
pub struct Desk<S: Alter> {
    office: Office<S>,
}

impl<S: Alter> Model for Desk<S> {
    ghost use Rattle.sqlite.specs.Held.{Held, held_code};

    ghost Value = { Held S };

    ghost coded = { held_code S.code };

    ghost view = { λ desk. desk.office };
}

impl<S: Alter> Desk<S> {
    pub fn new(office: Office<S>) -> Desk<S>
        ensures { result ≡ office }
    {
        Desk { office }
    }

    pub fn into_office(self) -> Office<S>
        ensures { result ≡ self }
    {
        self.office
    }

    /// Runs a command and returns its answer. The policy is judged first, then the body, then the
    /// state. A refused command changes nothing.
    pub fn run(&mut self, alloc: Global, caller: Caller, command: &Command<'_>) -> Answer
        requires { HasSmallNumbers (plain_command command.now) }
        // Assuming the disk returns what was written, this is one step of the office; or the answer
        // is `Unavailable`, and the office is unchanged.
        // After a command that isn't refused the database is open, and all writes are committed.
        ensures { CommandAnswered S.Store caller (plain_command command.now) self.old self.new
            (plain_answer result) }
    {
        let asking = caller;
        match permission(&mut self.office, alloc, asking, command) {
            Ok(Ok(())) => into_answer(perform(&mut self.office, alloc, caller, command)),
            Ok(Err(denial)) => Answer::Denied(denial),
            Err(fault) => Answer::from(fault),
        }
    }

    /// Returns whether a failure of the disk has closed the office's store, as [`Office::is_shut`].
    pub fn is_shut(&mut self) -> Result<bool, StoreFault>
        ensures shut { HasCleanDisk (state S.Store self.new) → IfOk result (λ is_shut.
            MatchBool is_shut (IsShut (state S.Store self.new))
            (IsCommitted (state S.Store self.new))) }
        ensures leaves { LeavesAsItWas S.Store self.old self.new }
        ensures fault { IfErr result (λ e. e ≡ StoreFault.Store) }
    {
        self.office.is_shut()
    }
}

// Returns the answer, whether something was done or not.
fn into_answer(performed: Result<Answer, Answer>) -> Answer
    ensures { plain_answer result ≡ answer_of performed }
{
    match performed {
        Ok(answer) | Err(answer) => answer,
    }
}

// Performs a permitted command. On `Err` nothing was done.
fn perform<S: Alter>(
    office: &mut Office<S>,
    alloc: Global,
    caller: Caller,
    command: &Command<'_>,
) -> Result<Answer, Answer>
    requires { HasSmallNumbers (plain_command command.now) }
    ensures { CommandPerformed S.Store caller (plain_command command.now)
        office.old office.new result }
{
    match *command {
        Command::Me => me(office, alloc, candidate(caller)?),
        Command::MyExam(exam) => my_exam(office, alloc, candidate(caller)?, exam),
        Command::MyPenalty => my_penalty(office, alloc, candidate(caller)?),
        Command::Load(body) => load(office, alloc, body),
        Command::Instance => instance(office, alloc),
        Command::SetOwner(exam, body) => set_owner(office, exam, body),
        Command::NewDraft(number, body) => new_draft(office, alloc, number, body),
        Command::Draft(number) => draft(office, alloc, number),
        Command::DraftPenalty(number) => penalty(office, alloc, number),
        Command::DraftViolations(number) => violations(office, alloc, number),
        Command::DraftPlaces(number, exam) => places(office, alloc, number, exam),
        Command::DropDraft(number) => drop_draft(office, number),
        Command::Place(number, exam, body) => {
            let place = body_or_answer(body)?;
            edit(office, alloc, number, Edit::Place(exam, place))
        }
        Command::Move(number, exam, body) => {
            let place = body_or_answer(body)?;
            edit(office, alloc, number, Edit::Move(exam, place))
        }
        Command::Clear(number, exam) => edit(office, alloc, number, Edit::Clear(exam)),
        Command::Swap(number, a, b) => edit(office, alloc, number, Edit::Swap(a, b)),
        Command::Publish(number) => publish(office, alloc, number),
        Command::Publication => publication(office, alloc),
        Command::PublicationPenalty => publication_penalty(office, alloc),
        Command::PublicationRooms => publication_rooms(office, alloc),
        Command::PublicationSeats => publication_seats(office, alloc),
        Command::Batch(number, body) => enrol_batch(office, alloc, number, body),
    }
}
