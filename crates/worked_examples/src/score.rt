// Costs of pairs of periods, and the greatest penalties.
use crate::given::{assert_same, small};
use exam_model::{Instance, PairCost, PeriodNo};
use exam_score::{
    DayCost, NightCost, Parts, PersonalParts, RowCost, SpreadCost, personal, regrouping,
};
use std::test::Fail;

// Returns row, day, spread and night of two periods through their bound.
fn costs_at(instance: &Instance, one: u32, other: u32) -> [u64; 4] {
    [
        cost_at(&RowCost(instance), one, other),
        cost_at(&DayCost(instance), one, other),
        cost_at(&SpreadCost(instance), one, other),
        cost_at(&NightCost(instance), one, other),
    ]
}

fn cost_at<C: PairCost>(cost: &C, one: u32, other: u32) -> u64 {
    cost.cost(PeriodNo::new(one), PeriodNo::new(other))
}

// A period and itself cost nothing, nor does one that doesn't exist.
#[test]
fn costs_of_two_periods(rt: HostRuntime) -> Result<(), Fail> {
    let instance = small(rt.alloc())?;
    // two periods, and their costs for row, day, spread and night
    let cases = [
        (0, 1, [7, 0, 1, 0]),
        (2, 0, [0, 5, 1, 0]),
        (2, 3, [0, 0, 1, 0]),
        (1, 1, [0, 0, 0, 0]),
        (3, 4, [0, 0, 0, 0]),
    ];
    for (one, other, wanted) in cases {
        assert_same(&rt, costs_at(&instance, one, other), wanted, (one, other));
    }
    Ok(())
}

// Two exams in one period, each of which costs with a third one; there is no period 9.
#[test]
fn personal_penalties(rt: HostRuntime) -> Result<(), Fail> {
    let instance = small(rt.alloc())?;
    let parts = personal(&instance, &[2, 2, 1, 9].map(PeriodNo::new));
    let found = [parts.row(), parts.day(), parts.spread(), parts.night()];
    assert_same(&rt, found, [14, 0, 2, 0], "parts");
    assert_same(&rt, parts.total(), 16, "total");
    regrouping();
    Ok(())
}

#[test]
fn parts_end_below_two_to_the_62(rt: HostRuntime) {
    let most = (1u64 << 62) - 1;
    for (row, room, wanted) in [(most, 0, true), (most, 1, false), (u64::MAX, 1, false)] {
        let personal = PersonalParts::new(row, room, 0, 0).is_some();
        let whole = Parts::new(row, 0, 0, 0, 0, 0, 0, room).is_some();
        assert_same(&rt, (personal, whole), (wanted, wanted), (row, room));
    }
}
