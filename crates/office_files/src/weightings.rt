// Reading the weightings, which come in any order, each at most once.
ghost use Rattle.std.specs.Prelude.{◌≡◌, ℕ, List, Result};
ghost use Rattle.std.specs.List.{list_any};
ghost use Rattle.office_files.specs.Fields.{fields_of};
ghost use Rattle.office_files.specs.Weightings.{weight_word, has_word, amount_in, front_in, weighting_by};
ghost use Rattle.office_files.specs.Weights.{with_weighting, with_weightings, no_weights};

use crate::counts::Counts;
use crate::fault::FaultKind;
use crate::fields::{Fields, end_of_fields};
use crate::items::LineItem;
use crate::numbers::number;
use crate::words::same_word;
use exam_model::Weights;
use exam_terms::limits::MAX_AMOUNT;

/// The word of a weighting line.
#[derive(Clone, Copy)]
pub(crate) enum WeightWord {
    Row,
    Day,
    Spread,
    Mixed,
    Front,
    Night,
}

/// The value of a weighting line; that of the front load is how many exams, how many periods, and
/// the weight.
#[derive(Clone, Copy)]
pub(crate) enum Weighting {
    Row(u32),
    Day(u32),
    Spread(u32),
    Mixed(u32),
    Front(u32, u32, u32),
    Night(u32),
}

impl LineItem for Weighting {
    ghost use Rattle.office_files.specs.Weightings.{weighting_line};

    ghost reading = { weighting_line };

    fn read(_counts: Counts, before: &[Weighting], line: &[u8]) -> Result<Weighting, FaultKind> {
        let mut fields = Fields::new(line);
        let word = weight_word(fields.next())?;
        if is_said(word, before) {
            return Err(FaultKind::Repeated);
        }
        weighting_by(word, fields)
    }
}

fn weight_word(text: &[u8]) -> Result<WeightWord, FaultKind>
    ensures { result ≡ weight_word text.now }
{
    if same_word(text, b"TWOINAROW") {
        Ok(WeightWord::Row)
    } else if same_word(text, b"TWOINADAY") {
        Ok(WeightWord::Day)
    } else if same_word(text, b"PERIODSPREAD") {
        Ok(WeightWord::Spread)
    } else if same_word(text, b"NONMIXEDDURATIONS") {
        Ok(WeightWord::Mixed)
    } else if same_word(text, b"FRONTLOAD") {
        Ok(WeightWord::Front)
    } else if same_word(text, b"OVERNIGHT") {
        Ok(WeightWord::Night)
    } else {
        Err(FaultKind::BadWord)
    }
}

fn is_said(word: WeightWord, before: &[Weighting]) -> bool
    ensures { result ≡ list_any (has_word word) before.now }
{
    before.iter().any(|said| has_word(word, said))
}

fn has_word(word: WeightWord, said: &Weighting) -> bool
    ensures { result ≡ has_word word said.now }
{
    matches!(
        (word, said),
        (WeightWord::Row, Weighting::Row(_))
            | (WeightWord::Day, Weighting::Day(_))
            | (WeightWord::Spread, Weighting::Spread(_))
            | (WeightWord::Mixed, Weighting::Mixed(_))
            | (WeightWord::Front, Weighting::Front(_, _, _))
            | (WeightWord::Night, Weighting::Night(_))
    )
}

// Returns the weighting of the numbers after a word.
fn weighting_by(word: WeightWord, fields: Fields<'_>) -> Result<Weighting, FaultKind>
    ensures { result ≡ weighting_by word fields.entry }
{
    match word {
        WeightWord::Row => Ok(Weighting::Row(amount_in(fields)?)),
        WeightWord::Day => Ok(Weighting::Day(amount_in(fields)?)),
        WeightWord::Spread => Ok(Weighting::Spread(amount_in(fields)?)),
        WeightWord::Mixed => Ok(Weighting::Mixed(amount_in(fields)?)),
        WeightWord::Front => front_in(fields),
        WeightWord::Night => Ok(Weighting::Night(amount_in(fields)?)),
    }
}

// Returns the one number after a word.
fn amount_in(mut fields: Fields<'_>) -> Result<u32, FaultKind>
    ensures { result ≡ amount_in fields.entry }
{
    let amount = number(fields.next(), MAX_AMOUNT)?;
    end_of_fields(fields)?;
    Ok(amount)
}

fn front_in(mut fields: Fields<'_>) -> Result<Weighting, FaultKind>
    ensures { result ≡ front_in fields.entry }
{
    let exams = number(fields.next(), MAX_AMOUNT)?;
    let periods = number(fields.next(), MAX_AMOUNT)?;
    let weight = number(fields.next(), MAX_AMOUNT)?;
    end_of_fields(fields)?;
    Ok(Weighting::Front(exams, periods, weight))
}

/// Returns the weights of these lines; a weight without a line is 0.
pub(crate) fn weights_of(said: &[Weighting]) -> Weights
    ensures { result ≡ with_weightings no_weights said.now }
{
    let mut weights = Weights {
        row: 0,
        day: 0,
        spread: 0,
        mixed: 0,
        front_exams: 0,
        front_periods: 0,
        front: 0,
        night: 0,
    };
    for one in said {
        weights = with_weighting(weights, *one);
    }
    weights
}

// Returns the weights with those of one line.
fn with_weighting(weights: Weights, said: Weighting) -> Weights
    ensures { result ≡ with_weighting weights said }
{
    let mut weights = weights;
    match said {
        Weighting::Row(weight) => weights.row = weight,
        Weighting::Day(weight) => weights.day = weight,
        Weighting::Spread(periods) => weights.spread = periods,
        Weighting::Mixed(weight) => weights.mixed = weight,
        Weighting::Front(exams, periods, weight) => {
            weights.front_exams = exams;
            weights.front_periods = periods;
            weights.front = weight;
        }
        Weighting::Night(weight) => weights.night = weight,
    }
    weights
}
