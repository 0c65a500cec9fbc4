// All breaches of a timetable, rule by rule.
ghost use Rattle.std.specs.Prelude.{◌≡◌, ◌++◌, ◌↔◌, length, map, IfOk, OnOk, IsTrue, Contains};
ghost use Rattle.std.specs.List.Sorted.{IsStrictlySortedBy};
ghost use Rattle.exam_rules.specs.declared.breach.Breach.{Breach};
ghost use Rattle.exam_rules.specs.Breach.{breach, breach_cmp};
ghost use Rattle.exam_rules.specs.Places.{Fits};
ghost use Rattle.exam_rules.specs.Breaches.{is_breach, breaches_of, pairs_breaking};

use crate::breach::{Breach, BreachRule, rules};
use crate::exam_pair::ExamPair;
use crate::line_rules::{after_pairs, coincidence_pairs, exclusion_pairs};
use crate::period_rules::{clash_pairs, duration_pairs};
use crate::room_rules::{capacity_pairs, exclusive_pairs};
use crate::site::Site;
use exam_model::{Enrolments, Instance, Timetable};
use std::alloc::{AllocError, Global};

/// Returns all breaches of the hard rules: by rule, then by exam, then by the other exam. An exam
/// without a place breaks no rule, and a line that names one exam twice is never broken.
pub fn breaches(
    alloc: Global,
    instance: &Instance,
    enrolments: &Enrolments,
    timetable: &Timetable,
) -> Result<Vec<Breach>, AllocError>
    requires { Fits instance.now enrolments.now timetable.now }
    // Exactly the triples that the seven equations of `breaks` name.
    ensures members { IfOk result (λ found. (b : Breach) → (Contains found.items b
        ↔ IsTrue (is_breach instance.now enrolments.now timetable.now b))) }
    // By rule, then exam, then the other exam; so each breach comes once.
    ensures in_order { IfOk result (λ found. IsStrictlySortedBy breach_cmp found.items) }
    // The list that the crates above compute with.
    ensures listed { IfOk result (λ found. found.items
        ≡ breaches_of instance.now enrolments.now timetable.now) }
{
    let site = Site {
        instance,
        enrolments,
        timetable,
    };
    let mut found = Vec::new(alloc);
    'rules: for rule in &rules() {
        let pairs = pairs_of(alloc, *rule, &site)?;
        push_all(&mut found, *rule, &pairs)?;
    }
    Ok(found)
}

// Returns the pairs of exams that break a rule.
fn pairs_of(alloc: Global, rule: BreachRule, site: &Site) -> Result<Vec<ExamPair>, AllocError>
    requires { Fits site.now.instance.now site.now.enrolments.now site.now.timetable.now }
    ensures { IfOk result (λ pairs. pairs.items ≡ pairs_breaking site.now.instance.now
        site.now.enrolments.now site.now.timetable.now rule) }
{
    let (instance, enrolments, timetable) = (site.instance, site.enrolments, site.timetable);
    match rule {
        BreachRule::Duration => duration_pairs(alloc, instance, timetable),
        BreachRule::Clash => clash_pairs(alloc, instance, enrolments, timetable),
        BreachRule::Capacity => capacity_pairs(alloc, instance, enrolments, timetable),
        BreachRule::After => after_pairs(alloc, instance, timetable),
        BreachRule::Coincidence => coincidence_pairs(alloc, instance, enrolments, timetable),
        BreachRule::Exclusion => exclusion_pairs(alloc, instance, timetable),
        BreachRule::RoomExclusive => exclusive_pairs(alloc, instance, timetable),
    }
}

// Adds the breaches of one rule.
fn push_all(found: &mut Vec<Breach>, rule: BreachRule, pairs: &[ExamPair]) -> Result<(), AllocError>
    ensures { OnOk result (found.new.items ≡ found.old.items ++ map (breach rule) pairs.now) }
{
    'pairs: for pair in pairs {
        found.push(Breach {
            rule,
            exam: pair.exam,
            other: pair.other,
        })?;
    }
    Ok(())
}
