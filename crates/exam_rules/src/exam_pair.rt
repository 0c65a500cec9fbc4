// The pairs of exams that a rule finds.
ghost use Rattle.std.specs.Prelude.{◌≡◌, ℕ, Bool, ◌&&◌, ◌||◌, ◌==◌, OnOk};
ghost use Rattle.std.specs.List.{list_any};
ghost use Rattle.exam_rules.specs.Breach.{HasJust, passing_pairs, is_pair, is_some_pair};

use exam_model::ExamNo;
use std::alloc::AllocError;

#[derive(Clone, Copy, PartialEq, Eq, PartialOrd, Ord)]
pub(crate) struct ExamPair {
    pub exam: ExamNo,
    pub other: ExamNo,
}

/// Returns the pair of two exams, if they break a rule.
pub(crate) fn pair_if(broken: bool, exam: ExamNo, other: ExamNo) -> Option<ExamPair>
    ensures { (e f : ℕ) → is_some_pair e f result ≡ (((exam == e) && (other == f)) && broken) }
{
    if broken {
        Some(ExamPair { exam, other })
    } else {
        None
    }
}

/// Adds a pair, if there is one.
pub(crate) fn push_some(found: &mut Vec<ExamPair>, pair: Option<ExamPair>) -> Result<(), AllocError>
    ensures { OnOk result ((e f : ℕ) → list_any (is_pair e f) found.new.items
        ≡ (list_any (is_pair e f) found.old.items || is_some_pair e f pair)) }
{
    if let Some(pair) = pair {
        found.push(pair)?;
    }
    Ok(())
}

/// Returns the pairs in order, each once.
pub(crate) fn in_order(mut found: Vec<ExamPair>) -> Vec<ExamPair>
    ensures { (test : ℕ → ℕ → Bool) (n : ℕ) → HasJust test n found.items
        → result.items ≡ passing_pairs test n }
{
    found.sort_unstable();
    found.dedup();
    found
}
