// The common parts of the examples: a small session with its students and timetables.
ghost use Rattle.std.specs.Prelude.{◌↔◌, IsTrue};
ghost use Rattle.exam_model.specs.Fits.{Fits, PlaceExists};

use exam_model::{
    Date, Enrolments, Exam, ExamNo, Instance, Period, PeriodNo, PeriodRule, Place, Room, RoomNo,
    StudentNo, Timetable, Weights,
};
use std::alloc::{AllocError, Global};
use std::fmt::Debug;
use std::process::Abort;
use std::test::Fail;

/// Ends the test if the two differ, and says in which case.
pub(crate) fn assert_same<T: PartialEq + Debug + Drop, C: Debug + Drop>(
    rt: &impl Abort,
    found: T,
    wanted: T,
    case: C,
) {
    assert_eq!(rt; found, wanted, "{case:?}");
}

/// The places of four exams, by period and room.
pub(crate) type Places = [Option<(u32, u32)>; 4];

// Each student and exam of the small session.
const PAIRS: [(u32, u32); 6] = [(1, 0), (2, 0), (2, 1), (3, 1), (3, 2), (1, 3)];

pub(crate) fn student(number: u32) -> Result<StudentNo, &'static str> {
    StudentNo::new(number).ok_or("no number of a student")
}

pub(crate) fn place(period: u32, room: u32) -> Place {
    Place {
        period: PeriodNo::new(period),
        room: RoomNo::new(room),
    }
}

fn period(day: u8, hour: u8, length: u32, penalty: u32) -> Period {
    Period {
        date: Date {
            year: 2005,
            month: 4,
            day,
        },
        hour,
        minute: 0,
        second: 0,
        length,
        penalty,
    }
}

/// Returns the small session, with 6 for a night: four exams, of which exam 1 comes after exam 0;
/// three periods of one day and one of another; two rooms.
pub(crate) fn small(alloc: Global) -> Result<Instance, Fail> {
    let exams = [120, 90, 120, 60].map(|minutes| Exam { minutes });
    let periods = [
        period(15, 9, 120, 0),
        period(15, 14, 120, 0),
        period(15, 17, 90, 10),
        period(18, 9, 120, 5),
    ];
    let rooms = [(3, 0), (2, 7)].map(|(capacity, penalty)| Room { capacity, penalty });
    let rules = [PeriodRule::After(ExamNo::new(1), ExamNo::new(0))];
    let weights = Weights {
        row: 7,
        day: 5,
        spread: 3,
        mixed: 10,
        front_exams: 1,
        front_periods: 2,
        front: 4,
        night: 6,
    };
    Ok(Instance::new(alloc, &exams, &periods, &rooms, &rules, &[], weights)?)
}

/// Returns the students of the small session.
pub(crate) fn small_enrolments(alloc: Global) -> Result<Enrolments, Fail> {
    enrolments_of(alloc, &PAIRS)
}

/// Returns these students and exams, of four exams.
pub(crate) fn enrolments_of(alloc: Global, pairs: &[(u32, u32)]) -> Result<Enrolments, Fail> {
    let mut enrolments = Enrolments::new(alloc, 4)?;
    for (number, exam) in pairs {
        enrolments.add(student(*number)?, ExamNo::new(*exam))?;
    }
    Ok(enrolments)
}

/// Returns a timetable of four exams at these places.
pub(crate) fn timetable_of(alloc: Global, places: &Places) -> Result<Timetable, AllocError> {
    let mut timetable = Timetable::new(alloc, 4)?;
    for (exam, at) in places.iter().enumerate() {
        let exam = ExamNo::new(exam as u32);
        if let Some((period, room)) = at
            && exam.get() < timetable.exams()
        {
            timetable.set(exam, place(*period, *room));
        }
    }
    Ok(timetable)
}

fn place_exists(instance: &Instance, place: Option<Place>) -> bool
    ensures { IsTrue result ↔ PlaceExists instance.now place }
{
    match place {
        Some(place) => {
            place.period.get() < instance.periods() && place.room.get() < instance.rooms()
        }
        None => true,
    }
}

/// Returns whether the parts fit each other, as every reader of files guarantees.
pub(crate) fn fits(instance: &Instance, enrolments: &Enrolments, timetable: &Timetable) -> bool
    ensures { IsTrue result → Fits instance.now enrolments.now timetable.now }
{
    let exams = instance.exams();
    if enrolments.exams() != exams || timetable.exams() != exams {
        return false;
    }
    'exams: for exam in 0..exams {
        if !place_exists(instance, timetable.get(ExamNo::new(exam))) {
            return false;
        }
    }
    true
}
