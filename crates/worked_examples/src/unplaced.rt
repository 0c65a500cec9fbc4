// Timetables of the small session in which some exams have no place.
ghost use Rattle.std.specs.Prelude.{◌<◌, ◌↔◌, IsTrue, All, length};

use crate::given::{Places, assert_same, fits, small, small_enrolments, timetable_of};
use BreachRule::{After, Capacity, Clash};
use exam_model::{ExamNo, Instance};
use exam_rules::{Breach, BreachRule, breaches, first_breach_of};
use exam_score::{Parts, front_share, score, sizes_of, stays_of};
use std::alloc::Global;
use std::test::Fail;

// Exams 0 and 1 are in one place; in the second, exam 2 is in a period that is too short as well.
const CROWDED: Places = [Some((0, 0)), Some((0, 0)), None, None];

const SHORT: Places = [Some((0, 0)), Some((0, 0)), Some((2, 0)), None];

fn breach(rule: BreachRule, exam: u32, other: u32) -> Breach {
    Breach {
        rule,
        exam: ExamNo::new(exam),
        other: ExamNo::new(other),
    }
}

// Returns the breaches and the penalty of a timetable, with or without a list of conflicts.
fn verdict_of(
    alloc: Global,
    places: &Places,
    is_listed: bool,
) -> Result<(Vec<Breach>, Parts), Fail> {
    let instance = small(alloc)?;
    let mut enrolments = small_enrolments(alloc)?;
    if is_listed {
        enrolments.list_conflicts(alloc)?;
    }
    let timetable = timetable_of(alloc, places)?;
    if !fits(&instance, &enrolments, &timetable) {
        return Err("a place that doesn't exist")?;
    }
    let found = breaches(alloc, &instance, &enrolments, &timetable)?;
    let parts = score(alloc, &instance, &enrolments, &timetable)?;
    Ok((found, parts))
}

// Exams 0 and 1 cost only their durations, which are mixed.
#[test]
fn a_list_changes_no_judgement(rt: HostRuntime) -> Result<(), Fail> {
    let wanted = [
        breach(Clash, 0, 1),
        breach(Capacity, 0, 0),
        breach(Capacity, 1, 1),
        breach(After, 1, 0),
    ];
    for is_listed in [false, true] {
        let (found, parts) = verdict_of(rt.alloc(), &CROWDED, is_listed)?;
        assert_same(&rt, found.as_slice(), wanted.as_slice(), is_listed);
        assert_same(&rt, (parts.mixed(), parts.total()), (10, 10), is_listed);
    }
    Ok(())
}

fn are_exams(exams: &[ExamNo], instance: &Instance) -> bool
    ensures { IsTrue result → All (λ e. e < length instance.now.exams) exams.now }
{
    exams.iter().all(|exam| exam.get() < instance.exams())
}

// Returns the first breach of a timetable that names one of these exams.
fn first_of(alloc: Global, places: &Places, exams: &[ExamNo]) -> Result<Option<Breach>, Fail> {
    let (instance, enrolments) = (small(alloc)?, small_enrolments(alloc)?);
    let timetable = timetable_of(alloc, places)?;
    if !fits(&instance, &enrolments, &timetable) || !are_exams(exams, &instance) {
        return Err("a place or an exam that doesn't exist")?;
    }
    Ok(first_breach_of(alloc, &instance, &enrolments, &timetable, exams)?)
}

#[test]
fn first_breach_by_rule(rt: HostRuntime) -> Result<(), Fail> {
    let [zero, one, three] = [0, 1, 3].map(ExamNo::new);
    let cases: [(&[ExamNo], Option<Breach>); 4] = [
        (&[zero, three], Some(breach(Clash, 0, 1))),
        (&[three, one], Some(breach(Clash, 0, 1))),
        (&[three], None),
        (&[], None),
    ];
    for (exams, wanted) in cases {
        let found = first_of(rt.alloc(), &SHORT, exams)?;
        assert_same(&rt, found, wanted, exams);
    }
    Ok(())
}

// Of two exams with equal sizes the smaller number is the largest.
#[test]
fn front_load_by_exams(rt: HostRuntime) -> Result<(), Fail> {
    let sizes = sizes_of(rt.alloc(), &small_enrolments(rt.alloc())?)?;
    assert_same(&rt, sizes.as_slice(), [2, 2, 1, 1].as_slice(), "sizes");
    if sizes.len() != 4 {
        return Err("other exams")?;
    }
    let share = front_share(&small(rt.alloc())?, &sizes, ExamNo::new(0), None);
    assert_same(&rt, share, 0, "without a place");
    Ok(())
}

#[test]
fn stays_of_placed_exams(rt: HostRuntime) -> Result<(), Fail> {
    let (instance, enrolments) = (small(rt.alloc())?, small_enrolments(rt.alloc())?);
    let timetable = timetable_of(rt.alloc(), &SHORT)?;
    if !fits(&instance, &enrolments, &timetable) {
        return Err("a place that doesn't exist")?;
    }
    // the period, the room and the minutes of exams 0 to 2
    let wanted = [(0, 0, 120), (0, 0, 90), (2, 0, 120)];
    let stays = stays_of(rt.alloc(), &instance, &timetable)?;
    assert_same(&rt, stays.len(), wanted.len(), "stays");
    for (stay, wanted) in stays.iter().zip(&wanted) {
        let found = (stay.period.get(), stay.room.get(), stay.minutes);
        assert_same(&rt, found, *wanted, "stay");
    }
    Ok(())
}
