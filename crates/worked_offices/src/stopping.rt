// Files that stop during each command, after a number of calls; then the machine crashes.
use crate::files::{
    Answer, NO_STOP, Stop, StoppingFile, Tried, attempt, files_after, files_of, files_of_version_1,
    is_stopped, text_after, text_of_files,
};
use crate::given::assert_same;
use crate::showing::Command;
use Command::{DropDraft, Enrol, Load, Move, NewDraft, Publish, SetOwner};
use office_store::StoreFault;
use sqlite::Files;
use sqlite_disk::{Fuse, Memory};
use std::alloc::Global;
use std::process::Abort;
use std::test::Fail;

/// An action to try in two files.
#[derive(Drop)]
struct Trial {
    log: Vec<u8>,
    db: Vec<u8>,
    tried: Tried,
    /// The answer if no file stops.
    answer: u64,
    /// Everything that the office shows before and after; empty if there is no office.
    before: String,
    after: String,
}

/// The answer, whether a file stopped, and everything that the office shows after a crash.
#[derive(Drop)]
struct Outcome {
    answer: Answer,
    is_stopped: bool,
    found: String,
}

fn trial_of_creation(alloc: Global) -> Result<Trial, Fail> {
    Ok(Trial {
        log: Vec::new(alloc),
        db: Vec::new(alloc),
        tried: Tried::Creation,
        answer: 0,
        before: String::new(alloc),
        after: text_after(alloc, &[])?,
    })
}

// Returns the trial of a command after others.
fn trial_of_command<D: StoppingFile>(
    alloc: Global,
    earlier: &[Command],
    command: Command,
    answer: u64,
) -> Result<Trial, Fail> {
    let mut commands = Vec::from_slice(alloc, earlier)?;
    commands.push(command)?;
    let files = files_after::<D>(alloc, earlier)?;
    Ok(Trial {
        log: Vec::from_slice(alloc, files.log.bytes())?,
        db: Vec::from_slice(alloc, files.db.bytes())?,
        tried: Tried::Command(command),
        answer,
        before: text_after(alloc, earlier)?,
        after: text_after(alloc, &commands)?,
    })
}

// Returns the trial of a migration after some commands; the office shows the same in both versions.
fn trial_of_migration<D: StoppingFile>(alloc: Global, earlier: &[Command]) -> Result<Trial, Fail> {
    let files = files_of_version_1::<D>(alloc, earlier)?;
    Ok(Trial {
        log: Vec::from_slice(alloc, files.log.bytes())?,
        db: Vec::from_slice(alloc, files.db.bytes())?,
        tried: Tried::Migration,
        answer: 0,
        before: text_after(alloc, earlier)?,
        after: text_after(alloc, earlier)?,
    })
}

// Tries the action with a stop. Then the machine crashes, which loses unsynced writes, and the
// files are opened again.
fn outcome_of<D: StoppingFile>(alloc: Global, trial: &Trial, stop: Stop) -> Result<Outcome, Fail> {
    let files: Files<D> = files_of(alloc, &trial.log, &trial.db, stop)?;
    let (answer, mut files) = attempt(alloc, files, trial.tried);
    let is_stopped = is_stopped(&mut files.log) || is_stopped(&mut files.db);
    files.log.crash();
    files.db.crash();
    let found = text_of_files(alloc, files)?;
    Ok(Outcome {
        answer,
        is_stopped,
        found,
    })
}

// Returns the stop of the log, or else of the database.
fn stop_after(calls: u64, is_log: bool) -> Stop {
    let mut stop = NO_STOP;
    if is_log {
        stop.log = calls;
    } else {
        stop.db = calls;
    }
    stop
}

// Returns whether the office can be opened in spite of a stop.
fn is_opened<D: StoppingFile>(alloc: Global, trial: &Trial, stop: Stop) -> Result<bool, Fail> {
    let files: Files<D> = files_of(alloc, &trial.log, &trial.db, stop)?;
    let (answer, _files) = attempt(alloc, files, trial.tried);
    Ok(answer.is_some())
}

// Returns the fewest calls, from 1 to 256, with which the office can be opened.
fn calls_of_opening<D: StoppingFile>(
    alloc: Global,
    trial: &Trial,
    is_log: bool,
) -> Result<u64, Fail> {
    let mut too_few: u64 = 0;
    for more in [128, 64, 32, 16, 8, 4, 2, 1] {
        let calls = too_few.saturating_add(more);
        if !is_opened::<D>(alloc, trial, stop_after(calls, is_log))? {
            too_few = calls;
        }
    }
    Ok(too_few.saturating_add(1))
}

// Returns whether the office is the expected one: after an answer, the office after the command;
// after a refusal or a failed opening, for which a file must have stopped, that one or the one
// before.
fn is_allowed(trial: &Trial, outcome: &Outcome) -> bool {
    let is_after = outcome.found.as_str() == trial.after.as_str();
    let is_before = outcome.found.as_str() == trial.before.as_str();
    match outcome.answer {
        Some(Ok(answer)) => answer == trial.answer && is_after,
        Some(Err(StoreFault::Store)) | None => outcome.is_stopped && (is_before || is_after),
        Some(Err(_)) => false,
    }
}

// Stops one file after each number of calls in turn, starting at the first, until a run meets no
// stop. Returns how many runs were not answered.
fn count_refusals<D: StoppingFile, R: Abort>(
    rt: &R,
    alloc: Global,
    trial: &Trial,
    is_log: bool,
    first: u64,
) -> Result<u32, Fail> {
    let mut refusals: u32 = 0;
    for more in 0..1000 {
        let calls = first.saturating_add(more);
        let outcome = outcome_of::<D>(alloc, trial, stop_after(calls, is_log))?;
        assert_same(rt, is_allowed(trial, &outcome), true, (is_log, calls));
        if !outcome.is_stopped {
            return Ok(refusals);
        }
        if outcome.answer != Some(Ok(trial.answer)) {
            refusals = refusals.saturating_add(1);
        }
    }
    Err("a file that stops each time")?
}

// Stops the log and then the database, starting at the end of opening; for a creation at its first
// call. Each of the two files makes some run fail.
fn try_each_stop<D: StoppingFile, R: Abort>(
    rt: &R,
    alloc: Global,
    trial: &Trial,
) -> Result<(), Fail> {
    for is_log in [true, false] {
        let first = match trial.tried {
            Tried::Creation => 0,
            _ => calls_of_opening::<D>(alloc, trial, is_log)?,
        };
        let refusals = count_refusals::<D, R>(rt, alloc, trial, is_log, first)?;
        assert_same(rt, refusals > 0, true, (is_log, "refuses"));
    }
    Ok(())
}

fn try_command<R: Abort>(
    rt: &R,
    alloc: Global,
    earlier: &[Command],
    command: Command,
    answer: u64,
) -> Result<(), Fail> {
    let trial = trial_of_command::<Fuse<Memory>>(alloc, earlier, command, answer)?;
    try_each_stop::<Fuse<Memory>, R>(rt, alloc, &trial)
}

#[test]
fn stops_of_create(rt: HostRuntime) -> Result<(), Fail> {
    let trial = trial_of_creation(rt.alloc())?;
    try_each_stop::<Fuse<Memory>, HostRuntime>(&rt, rt.alloc(), &trial)
}

// With a draft, a publication and a kept batch.
#[test]
fn stops_of_migration(rt: HostRuntime) -> Result<(), Fail> {
    let earlier = [Load, NewDraft, Publish, Enrol];
    let trial = trial_of_migration::<Fuse<Memory>>(rt.alloc(), &earlier)?;
    try_each_stop::<Fuse<Memory>, HostRuntime>(&rt, rt.alloc(), &trial)
}

#[test]
fn stops_of_load(rt: HostRuntime) -> Result<(), Fail> {
    try_command(&rt, rt.alloc(), &[], Load, 6)
}

#[test]
fn stops_of_set_owner(rt: HostRuntime) -> Result<(), Fail> {
    try_command(&rt, rt.alloc(), &[Load], SetOwner, 0)
}

#[test]
fn stops_of_new_draft(rt: HostRuntime) -> Result<(), Fail> {
    try_command(&rt, rt.alloc(), &[Load], NewDraft, 37)
}

#[test]
fn stops_of_drop_draft(rt: HostRuntime) -> Result<(), Fail> {
    try_command(&rt, rt.alloc(), &[Load, NewDraft], DropDraft, 0)
}

#[test]
fn stops_of_edit(rt: HostRuntime) -> Result<(), Fail> {
    try_command(&rt, rt.alloc(), &[Load, NewDraft], Move, 44)
}

// Candidate 3 is pending in the publication, and the draft is rescored.
#[test]
fn stops_of_enrol_batch(rt: HostRuntime) -> Result<(), Fail> {
    let earlier = [Load, NewDraft, Publish];
    try_command(&rt, rt.alloc(), &earlier, Enrol, 1)
}

// A publication replaces another one.
#[test]
fn stops_of_publish(rt: HostRuntime) -> Result<(), Fail> {
    let earlier = [Load, NewDraft, Publish, Move];
    try_command(&rt, rt.alloc(), &earlier, Publish, 44)
}
