// The place list: every place for an exam, with the answer of the edit that puts the exam there.
ghost use Rattle.std.specs.Prelude.{◌≡◌, ◌++◌, Err, OnOk, IfOk, string_bytes};
ghost use Rattle.office_reports.specs.PlaceList.{answer_text, place_line, places_text};

use crate::reports::rule_name;
use exam_places::{PlaceAnswer, PlaceRow};
use exam_rules::Breach;
use itoa::Buffer;
use std::alloc::{AllocError, Global};

/// Returns the text of the place list: a heading, then a line for each of these places, in their
/// order, with the period, the room, and the total penalty or the breach.
pub fn places_report(alloc: Global, rows: &[PlaceRow]) -> Result<String, AllocError>
    ensures { IfOk result (λ text. string_bytes text ≡ places_text rows.now) }
{
    let mut text = String::from_str(alloc, "period,room,penalty,rule,exam,other\n")?;
    for row in rows {
        add_place(&mut text, row)?;
    }
    Ok(text)
}

// Adds the line of a place.
fn add_place(text: &mut String, row: &PlaceRow) -> Result<(), AllocError>
    ensures { OnOk result (string_bytes text.new ≡ string_bytes text.old ++ place_line row.now) }
{
    text.push_str(Buffer::new().format(row.period.get()))?;
    text.push_str(",")?;
    text.push_str(Buffer::new().format(row.room.get()))?;
    text.push_str(",")?;
    add_answer(text, row.answer)
}

// Adds the end of the line: the penalty, or the breach. The formatting of `write!` takes several
// times as long.
fn add_answer(text: &mut String, answer: PlaceAnswer) -> Result<(), AllocError>
    ensures { OnOk result (string_bytes text.new ≡ string_bytes text.old ++ answer_text answer) }
{
    match answer {
        Ok(penalty) => {
            text.push_str(Buffer::new().format(penalty))?;
            text.push_str(",,,\n")
        }
        Err(breach) => add_breach(text, breach),
    }
}

// Adds the end of the line of a breach.
fn add_breach(text: &mut String, breach: Breach) -> Result<(), AllocError>
    ensures { OnOk result (string_bytes text.new
        ≡ string_bytes text.old ++ answer_text (Err breach)) }
{
    text.push_str(",")?;
    text.push_str(rule_name(breach.rule))?;
    text.push_str(",")?;
    text.push_str(Buffer::new().format(breach.exam.get()))?;
    text.push_str(",")?;
    text.push_str(Buffer::new().format(breach.other.get()))?;
    text.push_str("\n")
}
