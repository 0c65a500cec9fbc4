// Penalties as SQLite stores them: its integers are signed.
ghost use Rattle.std.specs.Prelude.{◌≡◌, pos};
ghost use Rattle.office_tables.specs.Amounts.{IsStorable};

// Returns a penalty, which is below 2^62, as a signed number.
pub(crate) fn signed_amount(amount: u64) -> i64
    requires { IsStorable amount }
    ensures { result ≡ pos amount }
{
    amount as i64
}
