// Amounts of row, day and spread: the costs of two periods, and sums of such costs.
ghost use Rattle.std.specs.Prelude.{◌≡◌, ◌+◌, ◌*◌, ◌^◌, ◌<◌};
ghost use Rattle.exam_score.specs.Kinds.{EachInTable, TableKind, table_amount};

// One amount for each kind of costs that the table of periods has.
#[derive(Clone, Copy)]
pub(crate) struct Amounts<T> {
    pub row: T,
    pub day: T,
    pub spread: T,
}

pub(crate) const NOTHING: Amounts<u64> = Amounts {
    row: 0,
    day: 0,
    spread: 0,
};

impl Amounts<u32> {
    // Returns the same amounts, to be added up.
    pub(crate) fn into_u64(self) -> Amounts<u64>
        ensures { result ≡ self }
    {
        Amounts {
            row: u64::from(self.row),
            day: u64::from(self.day),
            spread: u64::from(self.spread),
        }
    }
}

impl Amounts<u64> {
    // Adds other amounts, a number of times.
    pub(crate) fn add(&mut self, more: Amounts<u64>, times: u32)
        requires { EachInTable (λ k.
            table_amount self.old k + table_amount more k * times < 2 ^ 64) }
        ensures { (k : TableKind) → table_amount self.new k
            ≡ table_amount self.old k + table_amount more k * times }
    {
        let times = u64::from(times);
        self.row += more.row * times;
        self.day += more.day * times;
        self.spread += more.spread * times;
    }
}
