//! Laws of streams, and of runs of machines.
ghost use Rattle.std.specs.Prelude.{◌≡◌, ℕ, Bool, true, List, ◌++◌};
ghost use Rattle.office_messages.specs.Reply.{PlainReply};
ghost use Rattle.office_messages.specs.Messages.{Item, Messages, Begins, Agree};
ghost use Rattle.office_messages.specs.Serve.{AnswersItems};
ghost use Rattle.office_messages.specs.Stream.{PlainRequest};
ghost use Rattle.office_messages.specs.declared.connection.End.{End};

use crate::connection::Machine;

/// A stream has one reading, unless the input ends within a faulty head, before an empty line after
/// a line that isn't empty: then the head may be refused, or the connection may be cut.
pub fn one_reading()
    // The input ends so if less than 16,384 bytes are left, without an empty line after a line that
    // isn't empty, and if no continuation with at most 32 fields makes them a head.
    ensures { (stream : List ℕ) (items others : List Item) (end last : End)
        → Messages items end 0 stream → Messages others last 0 stream
        → Agree stream items end others last }
{}

/// The requests that were answered before a fault of the connection are the first messages of its
/// stream, in any reading.
pub fn front_of_messages()
    ensures { (stream : List ℕ) (front items : List Item) (end : End)
        → Begins front 0 stream → Messages items end 0 stream
        → (rest : List Item) × (items ≡ front ++ rest) }
{}

/// A map of states that maps each answer of one machine to an answer of another maps runs to runs.
pub fn runs_are_carried<M: Machine, N: Machine>()
    ensures { (f : M → N) → ((old : M) (r : PlainRequest) (reply : PlainReply) (new : M)
        → M.Answers old r reply new → N.Answers (f old) r reply (f new))
        → (items : List Item) (old : M) (output : List ℕ) (new : M)
        → AnswersItems M.Answers items old output new
        → AnswersItems N.Answers items (f old) output (f new) }
{}

/// An invariant of each answer of a machine is an invariant of a run: what holds before the run
/// holds after it, and what holds after it held before it.
pub fn runs_keep<M: Machine>()
    ensures forwards { (holds : M → Bool) → ((old : M) (r : PlainRequest) (reply : PlainReply)
        (new : M) → M.Answers old r reply new → holds old ≡ true → holds new ≡ true)
        → (items : List Item) (old : M) (output : List ℕ) (new : M)
        → AnswersItems M.Answers items old output new → holds old ≡ true → holds new ≡ true }
    ensures backwards { (holds : M → Bool) → ((old : M) (r : PlainRequest) (reply : PlainReply)
        (new : M) → M.Answers old r reply new → holds new ≡ true → holds old ≡ true)
        → (items : List Item) (old : M) (output : List ℕ) (new : M)
        → AnswersItems M.Answers items old output new → holds new ≡ true → holds old ≡ true }
{}
