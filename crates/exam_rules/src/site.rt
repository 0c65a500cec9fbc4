// The arguments of a rule.
use exam_model::{Enrolments, Instance, Timetable};

/// A session, its enrolments, and a timetable.
#[derive(Clone, Copy)]
pub(crate) struct Site<'a> {
    pub instance: &'a Instance,
    pub enrolments: &'a Enrolments,
    pub timetable: &'a Timetable,
}
