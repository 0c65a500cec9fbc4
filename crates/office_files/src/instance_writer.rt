// Writing an instance file.
ghost use Rattle.std.specs.Prelude.{◌≡◌, ◌++◌, ◌∷◌, ◌<◌, ◌≤◌, ℕ, [], All, Ok, length, IfOk, IfErr, OnOk, string_bytes};
ghost use Rattle.std.specs.List.{flat_map};
ghost use Rattle.office_files.specs.CanonicalLines.{exam_text, period_text, room_text};
ghost use Rattle.office_files.specs.CanonicalText.{section_text};
ghost use Rattle.office_files.specs.CanonicalLines.{period_rule_text, room_rule_text};
ghost use Rattle.office_files.specs.CanonicalLines.{line_of, weighting_text};
ghost use Rattle.office_files.specs.CanonicalText.{exam_lines_of, nights_of, weightings_of};
ghost use Rattle.office_files.specs.CanonicalText.{canonical_instance};
ghost use Rattle.office_files.specs.Spelled.{exams_heading, periods_heading, rooms_heading};
ghost use Rattle.office_files.specs.Spelled.{period_rules_heading, room_rules_heading};
ghost use Rattle.office_files.specs.Spelled.{weightings_heading};
ghost use Rattle.office_files.specs.InstanceText.{InstanceText, instance_in};

use crate::fault::{FaultKind, FileFault};
use crate::line_writers::{
    add_exam, add_pair, add_period, add_period_rule, add_room_rule, add_weighting,
};
use crate::weightings::Weighting;
use exam_model::{Enrolments, ExamNo, Instance, PeriodNo, RoomNo};
use std::alloc::{AllocError, Global};

/// Returns the canonical text of an instance and its enrolments (ITC 2007, input format).
pub fn write_instance(
    alloc: Global,
    instance: &Instance,
    enrolments: &Enrolments,
) -> Result<Vec<u8>, FileFault>
    requires fits { length enrolments.now ≡ length instance.now.exams }
    // One line for each part, with CR LF at its end.
    ensures text { IfOk result (λ text.
        text.items ≡ canonical_instance instance.now enrolments.now) }
    ensures memory { IfErr result (λ fault. (fault.what ≡ FaultKind.NoMemory) × (fault.line ≡ 0)) }

    // The written text reads back as the same.
    ensures spells { IfOk result (λ text.
        InstanceText text.items instance.now enrolments.now) }
    ensures same { IfOk result (λ text.
        instance_in text.items ≡ Ok (instance.now, enrolments.now)) }
{
    instance.lemma_limits();
    enrolments.lemma_order();
    let mut text = String::new(alloc);
    add_exams(&mut text, instance, enrolments)?;
    add_periods(&mut text, instance)?;
    add_rooms(&mut text, instance)?;
    add_period_rules(&mut text, instance)?;
    add_room_rules(&mut text, instance)?;
    add_weightings(&mut text, instance)?;
    Ok(text.into_bytes())
}

fn add_exams(
    text: &mut String,
    instance: &Instance,
    enrolments: &Enrolments,
) -> Result<(), AllocError>
    requires fits { length enrolments.now ≡ length instance.now.exams }
    ensures { OnOk result (string_bytes text.new ≡ string_bytes text.old
        ++ section_text exams_heading exam_text (exam_lines_of instance.now.exams enrolments.now)) }
{
    let count = instance.exams();
    write!(text, "[Exams:{count}]\r\n")?;
    for number in 0..count {
        let exam = ExamNo::new(number);
        let students = enrolments.students(exam);
        add_exam(text, instance.exam(exam), students)?;
    }
    Ok(())
}

fn add_periods(text: &mut String, instance: &Instance) -> Result<(), AllocError>
    ensures { OnOk result (string_bytes text.new ≡ string_bytes text.old
        ++ section_text periods_heading period_text instance.now.periods) }
{
    let count = instance.periods();
    write!(text, "[Periods:{count}]\r\n")?;
    for number in 0..count {
        let period = instance.period(PeriodNo::new(number));
        add_period(text, &period)?;
    }
    Ok(())
}

fn add_rooms(text: &mut String, instance: &Instance) -> Result<(), AllocError>
    ensures { OnOk result (string_bytes text.new ≡ string_bytes text.old
        ++ section_text rooms_heading room_text instance.now.rooms) }
{
    let count = instance.rooms();
    write!(text, "[Rooms:{count}]\r\n")?;
    for number in 0..count {
        let room = instance.room(RoomNo::new(number));
        add_pair(text, room.capacity, room.penalty)?;
    }
    Ok(())
}

fn add_period_rules(text: &mut String, instance: &Instance) -> Result<(), AllocError>
    ensures { OnOk result (string_bytes text.new ≡ string_bytes text.old
        ++ section_text period_rules_heading period_rule_text instance.now.period_rules) }
{
    text.push_str("[PeriodHardConstraints]\r\n")?;
    for rule in instance.period_rules() {
        add_period_rule(text, *rule)?;
    }
    Ok(())
}

fn add_room_rules(text: &mut String, instance: &Instance) -> Result<(), AllocError>
    ensures { OnOk result (string_bytes text.new ≡ string_bytes text.old
        ++ section_text room_rules_heading room_rule_text instance.now.room_rules) }
{
    text.push_str("[RoomHardConstraints]\r\n")?;
    for rule in instance.room_rules() {
        add_room_rule(text, *rule)?;
    }
    Ok(())
}

fn add_weightings(text: &mut String, instance: &Instance) -> Result<(), AllocError>
    ensures { OnOk result (string_bytes text.new ≡ string_bytes text.old
        ++ section_text weightings_heading weighting_text (weightings_of instance.now.weights)) }
{
    let weights = instance.weights();
    let (exams, periods) = (weights.front_exams, weights.front_periods);
    text.push_str("[InstitutionalWeightings]\r\n")?;
    add_weighting(text, Weighting::Row(weights.row))?;
    add_weighting(text, Weighting::Day(weights.day))?;
    add_weighting(text, Weighting::Spread(weights.spread))?;
    add_weighting(text, Weighting::Mixed(weights.mixed))?;
    add_weighting(text, Weighting::Front(exams, periods, weights.front))?;
    add_night(text, weights.night)?;
    Ok(())
}

// Adds the line of the weight of nights, if it isn't 0.
fn add_night(text: &mut String, weight: u32) -> Result<(), AllocError>
    ensures { OnOk result (string_bytes text.new ≡ string_bytes text.old
        ++ flat_map (λ said. line_of (weighting_text said)) (nights_of weight)) }
{
    if weight == 0 {
        return Ok(());
    }
    add_weighting(text, Weighting::Night(weight))
}
