// What the policy says about a command in the office's current state.
ghost use Rattle.sqlite.specs.Held.{state};
ghost use Rattle.office_policy.specs.Commands.{plain_command};
ghost use Rattle.office_model.specs.Step.{allowed_in};
ghost use Rattle.office_store.specs.Leaving.{LeavesAsItWas};
ghost use Rattle.office_store.specs.Running.{CallRan, QueryOutcome, Represents};

use exam_terms::DeptNo;
use office_policy::{Caller, Command, Denial, Kind, allowed};
use office_store::{Office, StoreFault};
use sqlite::Alter;
use std::alloc::Global;

// Returns whether the caller may run the command. Owners are read only if a department edits exams:
// the policy depends on them only then.
pub(crate) fn permission<S: Alter>(
    office: &mut Office<S>,
    alloc: Global,
    caller: Caller,
    command: &Command<'_>,
) -> Result<Result<(), Denial>, StoreFault>
    ensures asked { CallRan S.Store office.old office.new (λ o.
        QueryOutcome (allowed_in o caller (plain_command command.now)) o
        (Represents (state S.Store office.new)) result) }
    ensures leaves { LeavesAsItWas S.Store office.old office.new }
{
    match caller {
        Caller::Dept(dept) => permission_by_owners(office, alloc, dept, command),
        _ => Ok(allowed(caller, command, 0, 0)),
    }
}

// Returns whether the policy allows a department's command. The second owner of a swap is read only
// if the department owns the first exam.
fn permission_by_owners<S: Alter>(
    office: &mut Office<S>,
    alloc: Global,
    dept: DeptNo,
    command: &Command<'_>,
) -> Result<Result<(), Denial>, StoreFault>
    ensures asked { CallRan S.Store office.old office.new (λ o.
        QueryOutcome (allowed_in o (Caller.Dept dept) (plain_command command.now)) o
        (Represents (state S.Store office.new)) result) }
    ensures leaves { LeavesAsItWas S.Store office.old office.new }
{
    let caller = Caller::Dept(dept);
    let Kind::Editing(a, b) = command.kind() else {
        return Ok(allowed(caller, command, 0, 0));
    };
    let first = office.owner(alloc, a)?;
    let Some(b) = b else {
        return Ok(allowed(caller, command, first, 0));
    };
    if first != dept.get() {
        return Ok(allowed(caller, command, first, 0));
    }
    let second = office.owner(alloc, b)?;
    Ok(allowed(caller, command, first, second))
}
