// The breaches of one timetable that another doesn't have.
ghost use Rattle.std.specs.Prelude.{◌≡◌, ◌↔◌, ◌++◌, ◌∷◌, [], Bool, Contains, IfOk, IsTrue, OnOk, filter, not};
ghost use Rattle.std.specs.List.Sorted.{IsStrictlySortedBy};
ghost use Rattle.exam_rules.specs.Breach.{breach_cmp, rank_of};
ghost use Rattle.exam_rules.specs.declared.breach.Breach.{Breach};
ghost use Rattle.exam_changes.specs.Gained.{is_listed};

use exam_model::ExamNo;
use exam_rules::{Breach, BreachRule};
use std::alloc::{AllocError, Global};

/// Returns the breaches of the second list that aren't in the first, in their order. Each is searched
/// for in the first, which is in the order of breaches.
pub fn new_breaches(
    alloc: Global,
    before: &[Breach],
    after: &[Breach],
) -> Result<Vec<Breach>, AllocError>
    requires { IsStrictlySortedBy breach_cmp before.now }
    // For any test that says whether a breach is in the first list.
    ensures { IfOk result (λ found. (test : Breach → Bool)
        → ((b : Breach) → (Contains before.now b ↔ IsTrue (test b)))
        → found.items ≡ filter (λ b. not (test b)) after.now) }
{
    not_listed(alloc, before, after)
}

fn not_listed(alloc: Global, before: &[Breach], after: &[Breach]) -> Result<Vec<Breach>, AllocError>
    requires { IsStrictlySortedBy breach_cmp before.now }
    ensures { IfOk result (λ found.
        found.items ≡ filter (λ b. not (is_listed before.now b)) after.now) }
{
    let mut found = Vec::new(alloc);
    'breaches: for breach in after {
        add_if_new(&mut found, before, breach)?;
    }
    Ok(found)
}

// Adds a breach, if it isn't in the list.
fn add_if_new(found: &mut Vec<Breach>, before: &[Breach], breach: &Breach) -> Result<(), AllocError>
    requires { IsStrictlySortedBy breach_cmp before.now }
    ensures { OnOk result (found.new.items ≡ found.old.items
        ++ filter (λ b. not (is_listed before.now b)) (breach.now ∷ [])) }
{
    if !is_listed(before, breach) {
        found.push(*breach)?;
    }
    Ok(())
}

// Returns whether a breach is in a list in order.
fn is_listed(breaches: &[Breach], breach: &Breach) -> bool
    requires { IsStrictlySortedBy breach_cmp breaches.now }
    ensures { result ≡ is_listed breaches.now breach.now }
{
    breaches
        .binary_search_by_key(&key_of(breach), |other| key_of(other))
        .is_ok()
}

// Returns what decides a breach's place in the order.
fn key_of(breach: &Breach) -> (u8, (ExamNo, ExamNo))
    ensures { result ≡ (rank_of breach.now.rule, (breach.now.exam, breach.now.other)) }
{
    (rank_of(breach.rule), (breach.exam, breach.other))
}

// Returns a rule's place in the order.
fn rank_of(rule: BreachRule) -> u8
    ensures { result ≡ rank_of rule }
{
    match rule {
        BreachRule::Duration => 0,
        BreachRule::Clash => 1,
        BreachRule::Capacity => 2,
        BreachRule::After => 3,
        BreachRule::Coincidence => 4,
        BreachRule::Exclusion => 5,
        BreachRule::RoomExclusive => 6,
    }
}
