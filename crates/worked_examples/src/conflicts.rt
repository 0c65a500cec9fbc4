// The list of a session's conflicts.
use crate::given::{assert_same, enrolments_of, student};
use exam_model::{Conflict, ExamNo};
use std::test::Fail;

fn conflict(exam: u32, other: u32, students: u32) -> Conflict {
    Conflict {
        exam: ExamNo::new(exam),
        other: ExamNo::new(other),
        students,
    }
}

// Students 1 and 2 sit exams 0 and 1, student 2 sits exam 3 as well, and student 3 only exam 2.
const SHARED: [(u32, u32); 6] = [(1, 0), (1, 1), (2, 0), (2, 1), (2, 3), (3, 2)];

// They are sorted by the greater exam. A change of the enrolments deletes the list.
#[test]
fn conflicts_are_listed(rt: HostRuntime) -> Result<(), Fail> {
    let mut enrolments = enrolments_of(rt.alloc(), &SHARED)?;
    assert_same(&rt, enrolments.conflicts().is_some(), false, "not listed");
    enrolments.list_conflicts(rt.alloc())?;
    let wanted = [conflict(0, 1, 2), conflict(0, 3, 1), conflict(1, 3, 1)];
    let Some(listed) = enrolments.conflicts() else {
        return Err("no list")?;
    };
    assert_same(&rt, listed, wanted.as_slice(), "listed");
    enrolments.add(student(3)?, ExamNo::new(0))?;
    assert_same(&rt, enrolments.conflicts().is_some(), false, "changed");
    Ok(())
}
