// The checks of `Instance::new`.
ghost use Rattle.std.specs.Prelude.{◌↔◌, ◌≤◌, length, IsTrue, All};
ghost use Rattle.exam_model.specs.Limits.{AreCounted, IsCount, ExamInLimits, PeriodInLimits, RoomInLimits, WeightsInLimits};
ghost use Rattle.exam_model.specs.Instance.{session, InLimits, PeriodRuleExists, RoomRuleExists};

use crate::parts::{Exam, Period, Room, Weights};
use crate::rules::{PeriodRule, RoomRule};
use exam_terms::limits::{MAX_AMOUNT, MAX_EXAMS, MAX_MINUTES, MAX_PERIODS, MAX_ROOMS, MAX_RULES};

impl Period {
    pub(crate) fn in_limits(&self) -> bool
        ensures { IsTrue result ↔ PeriodInLimits self.now }
    {
        self.date.exists()
            && self.hour <= 23
            && self.minute <= 59
            && self.second <= 59
            && self.length <= MAX_MINUTES
            && self.penalty <= MAX_AMOUNT
    }
}

impl Weights {
    pub(crate) fn in_limits(&self) -> bool
        ensures { IsTrue result ↔ WeightsInLimits self.now }
    {
        self.row <= MAX_AMOUNT
            && self.day <= MAX_AMOUNT
            && self.spread <= MAX_AMOUNT
            && self.mixed <= MAX_AMOUNT
            && self.front_exams <= MAX_AMOUNT
            && self.front_periods <= MAX_AMOUNT
            && self.front <= MAX_AMOUNT
            && self.night <= MAX_AMOUNT
    }
}

impl PeriodRule {
    pub(crate) fn exists(&self, exams: usize) -> bool
        ensures { IsTrue result ↔ PeriodRuleExists exams self.now }
    {
        match self {
            PeriodRule::After(a, b) | PeriodRule::Coincidence(a, b) | PeriodRule::Exclusion(a, b) =>
                { (a.get() as usize) < exams && (b.get() as usize) < exams }
        }
    }
}

/// Returns whether the parts of a session are within all limits.
pub(crate) fn in_limits(
    exams: &[Exam],
    periods: &[Period],
    rooms: &[Room],
    period_rules: &[PeriodRule],
    room_rules: &[RoomRule],
    weights: &Weights,
) -> bool
    ensures { IsTrue result ↔ InLimits (session exams.now periods.now rooms.now
        period_rules.now room_rules.now weights.now) }
{
    are_counted(exams, periods, rooms, period_rules, room_rules)
        && each_in_limits(exams, periods, rooms)
        && weights.in_limits()
}

fn are_counted(
    exams: &[Exam],
    periods: &[Period],
    rooms: &[Room],
    period_rules: &[PeriodRule],
    room_rules: &[RoomRule],
) -> bool
    ensures { IsTrue result ↔ AreCounted (length exams.now) (length periods.now)
        (length rooms.now) (length period_rules.now) (length room_rules.now) }
{
    is_count(MAX_EXAMS, exams.len())
        && is_count(MAX_PERIODS, periods.len())
        && is_count(MAX_ROOMS, rooms.len())
        && period_rules.len() <= MAX_RULES as usize
        && room_rules.len() <= MAX_RULES as usize
}

fn is_count(limit: u32, count: usize) -> bool
    ensures { IsTrue result ↔ IsCount limit count }
{
    (1..=limit as usize).contains(&count)
}

fn each_in_limits(exams: &[Exam], periods: &[Period], rooms: &[Room]) -> bool
    ensures { IsTrue result ↔ (All ExamInLimits exams.now × All PeriodInLimits periods.now
        × All RoomInLimits rooms.now) }
{
    exams.iter().all(|e| e.minutes <= MAX_MINUTES)
        && periods.iter().all(|p| p.in_limits())
        && rooms
            .iter()
            .all(|r| r.capacity <= MAX_AMOUNT && r.penalty <= MAX_AMOUNT)
}

/// Returns whether every exam that a rule names is below the number of exams.
pub(crate) fn numbers_exist(
    exams: usize,
    period_rules: &[PeriodRule],
    room_rules: &[RoomRule],
) -> bool
    ensures { IsTrue result ↔ (All (PeriodRuleExists exams) period_rules.now
        × All (RoomRuleExists exams) room_rules.now) }
{
    period_rules.iter().all(|r| r.exists(exams))
        && room_rules.iter().all(|r| (r.0.get() as usize) < exams)
}
