// The reports on a timetable, in their printed form.
ghost use Rattle.std.specs.Prelude.{◌≡◌, ◌++◌, IfOk, OnOk, string_bytes};
ghost use Rattle.office_reports.specs.Reports.{breach_line, number_line, penalty_text};
ghost use Rattle.office_reports.specs.Reports.{rule_name, violation_text};

use exam_rules::{Breach, BreachRule};
use exam_score::Parts;
use std::alloc::{AllocError, Global};

// The bytes that a penalty report has room for at first: more than those of most reports.
const PENALTY_ROOM: usize = 192;

/// Returns the violation report: the number of breaches, then a line for each.
pub fn violation_report(alloc: Global, breaches: &[Breach]) -> Result<String, AllocError>
    ensures { IfOk result (λ text. string_bytes text ≡ violation_text breaches.now) }
{
    let mut text = String::new(alloc);
    add_number(&mut text, "breaches", breaches.len() as u64)?;
    for breach in breaches {
        add_breach(&mut text, *breach)?;
    }
    Ok(text)
}

// Adds the line of a breach.
fn add_breach(text: &mut String, breach: Breach) -> Result<(), AllocError>
    ensures { OnOk result (string_bytes text.new ≡ string_bytes text.old ++ breach_line breach) }
{
    let rule = rule_name(breach.rule);
    let exam = breach.exam.get();
    let other = breach.other.get();
    write!(text, "{rule} {exam} {other}\n")
}

/// Returns the name of a rule, as in reports and replies.
pub fn rule_name(rule: BreachRule) -> &'static str
    ensures { result.now ≡ rule_name rule }
{
    match rule {
        BreachRule::Duration => "Duration",
        BreachRule::Clash => "Clash",
        BreachRule::Capacity => "Capacity",
        BreachRule::After => "After",
        BreachRule::Coincidence => "Coincidence",
        BreachRule::Exclusion => "Exclusion",
        BreachRule::RoomExclusive => "RoomExclusive",
    }
}

/// Returns the penalty report: a line for each part of the penalty, and one for the total.
pub fn penalty_report(alloc: Global, parts: Parts) -> Result<String, AllocError>
    ensures { IfOk result (λ text. string_bytes text ≡ penalty_text parts) }
{
    let mut text = String::with_capacity(alloc, PENALTY_ROOM)?;
    add_number(&mut text, "two in a row", parts.row())?;
    add_number(&mut text, "two in a day", parts.day())?;
    add_number(&mut text, "period spread", parts.spread())?;
    add_number(&mut text, "over night", parts.night())?;
    add_number(&mut text, "mixed durations", parts.mixed())?;
    add_number(&mut text, "front load", parts.front())?;
    add_number(&mut text, "period penalty", parts.period())?;
    add_number(&mut text, "room penalty", parts.room())?;
    add_number(&mut text, "total", parts.total())?;
    Ok(text)
}

// Adds a line of a name and its number.
fn add_number(text: &mut String, name: &str, number: u64) -> Result<(), AllocError>
    ensures { OnOk result (string_bytes text.new
        ≡ string_bytes text.old ++ number_line name.now number) }
{
    write!(text, "{name} {number}\n")
}
