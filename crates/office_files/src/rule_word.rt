// The words of the rules on two exams.
ghost use Rattle.std.specs.Prelude.{◌≡◌};
ghost use Rattle.office_files.specs.RuleWords.{rule_word, rule_by};

use crate::fault::FaultKind;
use crate::words::same_word;
use exam_model::{ExamNo, PeriodRule};

/// The condition of a rule on the periods of two exams.
#[derive(Clone, Copy)]
pub(crate) enum RuleWord {
    After,
    Coincidence,
    Exclusion,
}

/// Returns the word of a field, in lower or upper case; any other field is a bad word.
pub(crate) fn rule_word(text: &[u8]) -> Result<RuleWord, FaultKind>
    ensures { result ≡ rule_word text.now }
{
    if same_word(text, b"AFTER") {
        Ok(RuleWord::After)
    } else if same_word(text, b"EXAM_COINCIDENCE") {
        Ok(RuleWord::Coincidence)
    } else if same_word(text, b"EXCLUSION") {
        Ok(RuleWord::Exclusion)
    } else {
        Err(FaultKind::BadWord)
    }
}

/// Returns the rule with that word on two exams.
pub(crate) fn rule_by(word: RuleWord, one: u32, other: u32) -> PeriodRule
    ensures { result ≡ rule_by word one other }
{
    let (one, other) = (ExamNo::new(one), ExamNo::new(other));
    match word {
        RuleWord::After => PeriodRule::After(one, other),
        RuleWord::Coincidence => PeriodRule::Coincidence(one, other),
        RuleWord::Exclusion => PeriodRule::Exclusion(one, other),
    }
}
