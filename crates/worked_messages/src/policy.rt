// Callers, and the commands that each may run.
use crate::given::assert_same;
use exam_terms::{DeptNo, ExamNo, PeriodNo, Place, RoomNo, StudentNo};
use office_policy::{Body, Caller, Command, Denial, allowed, read_number};
use std::process::Abort;
use std::test::Fail;

fn dept(number: u32) -> Result<Caller, &'static str> {
    Ok(Caller::Dept(DeptNo::new(number).ok_or("no department")?))
}

fn candidate(number: u32) -> Result<Caller, &'static str> {
    Ok(Caller::Cand(StudentNo::new(number).ok_or("no student")?))
}

#[test]
fn callers_by_their_names(rt: HostRuntime) -> Result<(), Fail> {
    let cases = [
        (b"office".as_slice(), Some(Caller::Office)),
        (b"\t office  ", Some(Caller::Office)),
        (b"dept:3", Some(dept(3)?)),
        (b"dept:000000999", Some(dept(999)?)),
        (b" cand:0\t", Some(candidate(0)?)),
        (b"cand:999999999", Some(candidate(999_999_999)?)),
        (b"cand:000000012", Some(candidate(12)?)),
        (b"", None),
        (b"Office", None),
        (b"office:1", None),
        (b"offi ce", None),
        (b"dept:0", None),
        (b"dept:1000", None),
        (b"dept:0000000999", None),
        (b"dept:", None),
        (b"dept: 3", None),
        (b"cand:1000000000", None),
        (b"cand:0000000001", None),
        (b"cand:-1", None),
        (b"cand:+1", None),
        (b"cand:1 2", None),
        (b"cand1", None),
        (b"\noffice", None),
    ];
    for (value, caller) in cases {
        assert_same(&rt, Caller::read(value), caller, value);
    }
    Ok(())
}

#[test]
fn numbers_of_one_to_nine_digits(rt: HostRuntime) {
    let cases = [
        (b"0".as_slice(), Some(0)),
        (b"007", Some(7)),
        (b"999999999", Some(999_999_999)),
        (b"000000001", Some(1)),
        (b"1000000000", None),
        (b"0000000001", None),
        (b"", None),
        (b"x", None),
        (b"1.0", None),
        (b"+1", None),
        (b" 1", None),
    ];
    for (text, number) in cases {
        assert_same(&rt, read_number(text), number, text);
    }
}

fn edit(exam: u32) -> Command<'static> {
    let place = Place {
        period: PeriodNo::new(0),
        room: RoomNo::new(0),
    };
    Command::Place(1, ExamNo::new(exam), Body::Given(place))
}

fn swap() -> Command<'static> {
    Command::Swap(1, ExamNo::new(0), ExamNo::new(1))
}

// A command, the owners of its exams, and the policy's decision.
type Case = (Command<'static>, (u32, u32), Result<(), Denial>);

// Ends the test if the policy's decision for this caller is another one.
fn judges(rt: &impl Abort, caller: &Caller, cases: &[Case]) {
    for (row, (command, (first, other), wanted)) in cases.iter().enumerate() {
        let found = allowed(*caller, command, *first, *other);
        assert_same(rt, found, *wanted, row);
    }
}

// Department 3 owns exam 0, exam 1 has no owner, and exam 9 doesn't exist.
#[test]
fn departments_edit_their_exams(rt: HostRuntime) -> Result<(), Fail> {
    let cases = [
        (edit(0), (3, 0), Ok(())),
        (edit(1), (0, 0), Err(Denial::P3)),
        (edit(9), (0, 0), Err(Denial::P3)),
        (swap(), (3, 0), Err(Denial::P3)),
        (swap(), (0, 3), Err(Denial::P3)),
        (swap(), (3, 3), Ok(())),
        (Command::DraftPenalty(1), (0, 0), Ok(())),
        (Command::Load(Body::Bad), (3, 3), Err(Denial::P2)),
        (Command::Load(Body::Long), (3, 3), Err(Denial::P2)),
        (Command::Publication, (3, 3), Err(Denial::P2)),
        (Command::MyPenalty, (3, 3), Err(Denial::P4)),
    ];
    judges(&rt, &dept(3)?, &cases);
    Ok(())
}

#[test]
fn candidates_ask_for_their_own(rt: HostRuntime) -> Result<(), Fail> {
    let office = [
        (swap(), (0, 0), Ok(())),
        (Command::Load(Body::Long), (0, 0), Ok(())),
        (Command::Me, (0, 0), Err(Denial::P4)),
    ];
    judges(&rt, &Caller::Office, &office);
    let candidate_2 = [
        (Command::Draft(8), (0, 0), Err(Denial::P1)),
        (Command::Draft(1), (0, 0), Err(Denial::P1)),
        (Command::DraftPenalty(1), (0, 0), Err(Denial::P1)),
        (Command::DropDraft(1), (0, 0), Err(Denial::P1)),
        (edit(0), (0, 0), Err(Denial::P1)),
        (Command::Load(Body::Long), (0, 0), Err(Denial::P1)),
        (Command::Load(Body::Bad), (0, 0), Err(Denial::P1)),
        (Command::Publication, (0, 0), Err(Denial::P1)),
        (Command::Me, (0, 0), Ok(())),
        (Command::MyExam(ExamNo::new(7)), (0, 0), Ok(())),
        (Command::MyPenalty, (0, 0), Ok(())),
    ];
    judges(&rt, &candidate(2)?, &candidate_2);
    Ok(())
}
