//! Reading the rest of the input after the last reply.
ghost use Rattle.std.specs.Prelude.{◌≡◌, ◌⊎◌, ℕ, ◌≤◌, List, OnOk, IfErr};
ghost use Rattle.std.specs.Io.KnownBytes.{Consumes, IsAtEnd};

use crate::connection::{PIECE, ServeFault};
use std::io::{ErrorKind, Read};

/// Reads to the end of the input, and drops the bytes. A socket that is closed with unread bytes of
/// its client is reset, and replies in transit are lost: if `serve` ends a connection itself
/// (Refused, Asked, Limit), its caller shuts down the sending side, drains, and then closes. A turn
/// is one call of `read`, interrupted or not, and an interrupted read is retried; the turns used
/// are subtracted from `turns`.
pub fn drain<R: Read>(reader: &mut R, turns: &mut u64) -> Result<(), ServeFault>
    // `Ok` is returned only at the end of the input.
    ensures ok { OnOk result (IsAtEnd (R.remaining reader.new)) }
    // `Read`, or `TooMany` if no turn is left.
    ensures err { IfErr result (λ fault. (fault ≡ ServeFault.Read) ⊎ (fault ≡ ServeFault.TooMany)) }
    // The bytes read are at the front of what is left of the reader.
    ensures taken { (bytes : List ℕ)
        × Consumes (R.remaining reader.old) (R.remaining reader.new) bytes }
    ensures spent { IfErr result (λ fault. fault ≡ ServeFault.TooMany → turns.new ≡ 0) }
    ensures turns { turns.new ≤ turns.old }
{
    let mut piece = [0u8; PIECE];
    while *turns > 0 {
        *turns -= 1;
        match reader.read(&mut piece) {
            Ok(0) => return Ok(()),
            Ok(_) => {}
            Err(e) => {
                if e.kind() != ErrorKind::Interrupted {
                    return Err(ServeFault::Read);
                }
            }
        }
    }
    Err(ServeFault::TooMany)
}
