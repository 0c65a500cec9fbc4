// The whole text of a reader, within a limit of bytes and a number of reads.
ghost use Rattle.std.specs.Prelude.{◌≡◌, ◌≢◌, ◌<◌, ◌≤◌, ◌+◌, ◌++◌, ℕ, length, IfErr, IfOk, IfSome, OnOk};
ghost use Rattle.std.specs.IoError.{error_kind};
ghost use Rattle.exam_terms.specs.declared.limits.TheConstants.{INSTANCE_BYTES, TEXT_BYTES};
ghost use Rattle.office_files.specs.Inputs.{RefusesText, StaysUnread, ReadsAtMost};

use crate::fault::{FaultKind, FileFault};
use exam_terms::limits::{INSTANCE_BYTES, TEXT_BYTES};
use std::alloc::{AllocError, Global};
use std::io::{Error, ErrorKind, Read};

/// Why an input can't be read.
#[derive(Clone, Copy, Debug, PartialEq, Eq)]
pub enum InputFault {
    /// The reader failed, or had no end within 5,000,000 reads.
    Read,
    /// The text is faulty, or longer than the limit of its kind of file (line 0).
    File(FileFault),
    /// Out of memory.
    NoMemory,
}

impl From<AllocError> for InputFault {
    ghost use Rattle.std.specs.Prelude.{◌≡◌};
    ghost use Rattle.office_files.specs.declared.inputs.InputFault.TheVariants.{NoMemory};

    ghost from_gives = { λ _ e. e ≡ NoMemory };

    fn from(_error: AllocError) -> InputFault {
        InputFault::NoMemory
    }
}

impl From<FileFault> for InputFault {
    ghost use Rattle.office_files.specs.Inputs.{IsInputFaultOf};

    ghost from_gives = { IsInputFaultOf };

    fn from(fault: FileFault) -> InputFault {
        match fault.what {
            FaultKind::NoMemory => InputFault::NoMemory,
            _ => InputFault::File(fault),
        }
    }
}

// Why a reader's text is not read whole.
#[derive(Clone, Copy, Debug, PartialEq, Eq)]
enum Unread {
    // The reader failed with an error other than an interruption.
    Failed,
    // No read is left.
    Spent,
    // There is more than the limit.
    TooLong,
    NoMemory,
}

impl From<AllocError> for Unread {
    ghost use Rattle.std.specs.Prelude.{◌≡◌};
    ghost use Rattle.office_files.specs.declared.inputs.Unread.TheVariants.{NoMemory};

    ghost from_gives = { λ _ e. e ≡ NoMemory };

    fn from(_error: AllocError) -> Unread {
        Unread::NoMemory
    }
}

impl From<Unread> for InputFault {
    ghost use Rattle.office_files.specs.Inputs.{IsReadFaultOf};

    ghost from_gives = { IsReadFaultOf };

    fn from(why: Unread) -> InputFault {
        match why {
            Unread::Failed | Unread::Spent => InputFault::Read,
            Unread::TooLong => InputFault::File(FileFault::TOO_LONG),
            Unread::NoMemory => InputFault::NoMemory,
        }
    }
}

// How many reads a reader has. An interrupted read counts, and is retried.
const READS: u32 = 5_000_000;

// Up to this many bytes are copied by plain moves, which take fewer instructions than the
// processor's own copying of long runs.
const COPIED_AT_ONCE: usize = 2048;

/// Returns the whole text of an instance file's reader, at most 4,194,304 bytes. The reader has
/// 5,000,000 reads; an interrupted read counts, and is retried.
pub fn instance_text<R: Read>(alloc: Global, reader: &mut R) -> Result<Vec<u8>, InputFault>
    // If the reader's bytes are known, these are all of them.
    ensures whole { IfOk result (λ text. IfSome (R.remaining reader.old)
        (λ input. input ≡ text.items)) }
    ensures short { IfOk result (λ text. length text.items ≤ INSTANCE_BYTES) }
    // A fault of the text is `TooLong`: there are more bytes than the limit.
    ensures refused { IfErr result (λ fault. IfSome (R.remaining reader.old)
        (λ input. RefusesText INSTANCE_BYTES input fault)) }
    // The reader is read at most one byte past the limit.
    ensures taken { ReadsAtMost (INSTANCE_BYTES + 1)
        (R.remaining reader.old) (R.remaining reader.new) }
{
    whole_text(alloc, reader, INSTANCE_BYTES)
}

/// Returns the whole text of a solution file's reader, at most 1,048,576 bytes, in as many reads.
pub fn solution_text<R: Read>(alloc: Global, reader: &mut R) -> Result<Vec<u8>, InputFault>
    // If the reader's bytes are known, these are all of them.
    ensures whole { IfOk result (λ text. IfSome (R.remaining reader.old)
        (λ input. input ≡ text.items)) }
    ensures short { IfOk result (λ text. length text.items ≤ TEXT_BYTES) }
    // A fault of the text is `TooLong`: there are more bytes than the limit.
    ensures refused { IfErr result (λ fault. IfSome (R.remaining reader.old)
        (λ input. RefusesText TEXT_BYTES input fault)) }
    // The reader is read at most one byte past the limit.
    ensures taken { ReadsAtMost (TEXT_BYTES + 1) (R.remaining reader.old) (R.remaining reader.new) }
{
    whole_text(alloc, reader, TEXT_BYTES)
}

// Returns all that is left of the reader, which is read at most one byte past the limit.
fn whole_text<R: Read>(alloc: Global, reader: &mut R, limit: usize) -> Result<Vec<u8>, InputFault>
    requires { limit ≤ INSTANCE_BYTES }
    ensures whole { IfOk result (λ text. IfSome (R.remaining reader.old)
        (λ input. input ≡ text.items)) }
    ensures short { IfOk result (λ text. length text.items ≤ limit) }
    ensures refused { IfErr result (λ fault. IfSome (R.remaining reader.old)
        (λ input. RefusesText limit input fault)) }
    ensures taken { ReadsAtMost (limit + 1) (R.remaining reader.old) (R.remaining reader.new) }
{
    let mut reads = READS;
    Ok(text_in(alloc, reader, limit, &mut reads)?)
}

// Returns the same within the reads that are left, each of which is counted.
fn text_in<R: Read>(
    alloc: Global,
    reader: &mut R,
    limit: usize,
    reads: &mut u32,
) -> Result<Vec<u8>, Unread>
    requires { limit ≤ INSTANCE_BYTES }
    ensures whole { IfOk result (λ text. IfSome (R.remaining reader.old)
        (λ input. input ≡ text.items)) }
    ensures short { IfOk result (λ text. length text.items ≤ limit) }
    // The reader failed, no read is left, there are more bytes than the limit, or memory ran out.
    ensures refused { IfErr result (StaysUnread limit reads.new (R.remaining reader.old)) }
    ensures taken { ReadsAtMost (limit + 1) (R.remaining reader.old) (R.remaining reader.new) }
{
    // Room for the longest text at once, so that none is copied as it grows. The system gives only
    // the pages that are written.
    let mut text: Vec<u8> = Vec::with_capacity(alloc, limit)?;
    let mut piece = [0u8; 16_384];
    'reads: while *reads > 0 {
        *reads -= 1;
        let most = (limit + 1 - text.len()).min(piece.len());
        match reader.read(&mut piece[..most]) {
            Ok(0) => return Ok(text),
            Ok(n) => append(&mut text, &piece[..n])?,
            Err(fault) => retry(&fault)?,
        }
        if text.len() > limit {
            return Err(Unread::TooLong);
        }
    }
    Err(Unread::Spent)
}

// Lets an interrupted read be made again. Any other fault of a reader is that it failed.
fn retry(fault: &Error) -> Result<(), Unread>
    ensures again { OnOk result (error_kind fault.now ≡ ErrorKind.Interrupted) }
    ensures failed { IfErr result (λ why. (why ≡ Unread.Failed)
        × (error_kind fault.now ≢ ErrorKind.Interrupted)) }
{
    match fault.kind() {
        ErrorKind::Interrupted => Ok(()),
        _ => Err(Unread::Failed),
    }
}

#[inline(always)]
fn append(text: &mut Vec<u8>, piece: &[u8]) -> Result<(), AllocError>
    ensures { OnOk result (text.new.items ≡ text.old.items ++ piece.now) }
{
    let mut left = piece;
    'parts: while left.len() > COPIED_AT_ONCE {
        let (part, others) = left.split_at(COPIED_AT_ONCE);
        text.extend_from_slice(part)?;
        left = others;
    }
    text.extend_from_slice(left)
}
