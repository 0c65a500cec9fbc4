// The cost of two exams of one student.
ghost use Rattle.std.specs.Prelude.{◌≡◌, ℕ};
ghost use Rattle.exam_model.specs.PairCost.{CostLaws};

use exam_terms::PeriodNo;

/// The cost of two exams of one student, by their periods.
pub trait PairCost {
    ghost cost_of: { Self → ℕ → ℕ → ℕ };

    fn cost(&self, one: PeriodNo, other: PeriodNo) -> u64
        ensures { result ≡ cost_of self.now one other };

    // The order of the periods doesn't matter, one period costs nothing, and the most is 100,000.
    ghost laws: { CostLaws cost_of };
}
