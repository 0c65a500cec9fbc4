// Breaches of the hard rules (ITC 2007, hard constraints).
ghost use Rattle.std.specs.Prelude.{◌≡◌};
ghost use Rattle.exam_rules.specs.Breach.{all_rules};

use exam_model::ExamNo;

/// The hard rules, in the order in which their breaches are listed.
#[derive(Clone, Copy, Debug, PartialEq, Eq)]
pub enum BreachRule {
    /// An exam lasts longer than its period.
    Duration,
    /// Two exams share a student and are in one period.
    Clash,
    /// The exams in a room and period have more students than the room holds.
    Capacity,
    /// An exam isn't after one that it must come after.
    After,
    /// Two exams that must be in one period, and share no student, are in different periods.
    Coincidence,
    /// Two exams that must be in different periods are in one.
    Exclusion,
    /// Another exam is in the room and period of one that must have its room to itself.
    RoomExclusive,
}

/// Returns the rules, in the order of their breaches.
pub(crate) fn rules() -> [BreachRule; 7]
    ensures { result ≡ all_rules }
{
    [
        BreachRule::Duration,
        BreachRule::Clash,
        BreachRule::Capacity,
        BreachRule::After,
        BreachRule::Coincidence,
        BreachRule::Exclusion,
        BreachRule::RoomExclusive,
    ]
}

/// A rule that two exams break. `Duration` and `Capacity` name one exam twice; `Clash`,
/// `Coincidence` and `Exclusion` name the smaller exam first; `After` and `RoomExclusive` name the
/// first exam of their line first.
#[derive(Clone, Copy, Debug, PartialEq, Eq)]
pub struct Breach {
    pub rule: BreachRule,
    pub exam: ExamNo,
    pub other: ExamNo,
}
