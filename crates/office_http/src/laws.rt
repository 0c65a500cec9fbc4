//! Laws of the office's connections: functions without code; their contracts are the laws.
ghost use Rattle.std.specs.Prelude.{◌≡◌, ℕ, List, All, Option};
ghost use Rattle.sqlite.specs.Effect.{IsDatabase};
ghost use Rattle.sqlite.specs.Held.{Held, state};
ghost use Rattle.sqlite.specs.State.{HasCleanDisk};
ghost use Rattle.office_messages.specs.Reply.{PlainReply};
ghost use Rattle.office_messages.specs.Messages.{Item};
ghost use Rattle.office_messages.specs.Serve.{Serves, AnswersItems};
ghost use Rattle.office_messages.specs.Statuses.{code_of};
ghost use Rattle.office_messages.specs.Stream.{PlainRequest};
ghost use Rattle.office_messages.specs.Visits.{ServesVisits, Visit};
ghost use Rattle.office_messages.specs.declared.connection.Served.{Served};
ghost use Rattle.office_model.specs.Office.{OfficeState};
ghost use Rattle.office_model.specs.Views.{view_of};
ghost use Rattle.office_records.specs.Representation.{RepresentsOffice};
ghost use Rattle.office_store.specs.Crashes.{OpenedAfter};
ghost use Rattle.office_store.specs.Running.{IsCommitted};
ghost use Rattle.office_http.specs.Clients.{ServesAll, all_entries};
ghost use Rattle.office_http.specs.Crashes.{IsAfterFront, all_exchanges};
ghost use Rattle.office_http.specs.CandidateMessages.{HaveSameBytes, AreFrom, IsFrom, output_from_view};
ghost use Rattle.office_http.specs.Isolation.{AreAvailable, GetSameBytes, GetBytesByView, IsOwnOrQuiet, IsQuietFor, LeavesPublication, RepliesView, changes_to_candidate};
ghost use Rattle.office_http.specs.Transcripts.{RepliesOwnView, entries, entry, request_and_reply, transcript};
ghost use Rattle.office_http.specs.Replying.{Answered, Replies, RepliesCandidateView};

use sqlite::Alter;

/// A message whose reply is a 503 leaves the office unchanged, whatever its caller and its request.
pub fn unavailable_changes_nothing()
    ensures { (office next : OfficeState) (request : PlainRequest) (reply : PlainReply)
        → Replies office request reply next → code_of reply.status ≡ 503 → next ≡ office }
{}

/// A candidate's message gets the text of their view in the office that receives it, or the reply
/// that the office is unavailable. It changes nothing.
///
/// A candidate's pages say nothing about others' enrolments, seats, exams or drafts. Whether a
/// reply is a 503, and how long it takes, may depend on anything.
pub fn reply_by_view()
    ensures view { (office next : OfficeState) (request : PlainRequest) (reply : PlainReply)
        → Replies office request reply next → RepliesCandidateView office request reply }
    ensures stays { (s : ℕ) (office next : OfficeState) (request : PlainRequest)
        (reply : PlainReply) → Replies office request reply next → IsFrom s request
        → next ≡ office }
{}

/// Two offices that agree on a candidate's view reply to their message with the same bytes, unless
/// one of the offices is unavailable.
///
/// Nothing outside the view has to agree: other candidates, other exams, drafts, owners, batches.
pub fn same_view_same_bytes()
    ensures { (s : ℕ) (one other next last : OfficeState) (request : PlainRequest)
        (reply answer : PlainReply) → view_of s one ≡ view_of s other → IsFrom s request
        → Replies one request reply next → Replies other request answer last
        → HaveSameBytes (request, reply) (request, answer) }
{}

/// A message that is quiet for a candidate leaves their view unchanged. Each message is quiet
/// except an accepted load, an accepted publication, and a batch that is accepted for the first
/// time and names the candidate.
pub fn quiet_message()
    ensures { (s : ℕ) (old new : OfficeState) (request : PlainRequest) (reply : PlainReply)
        → (trace : Replies old request reply new) → IsQuietFor s (entry old request reply new trace)
        → view_of s new ≡ view_of s old }
{}

/// Over a whole connection, and over any messages one after another, each candidate gets the text
/// of their view in the office that received their message, whatever others ask before and between.
pub fn each_reply_by_view()
    ensures { (items : List Item) (old new : OfficeState) (output : List ℕ)
        → (trace : AnswersItems Replies items old output new)
        → All RepliesOwnView (transcript items old output new trace) }
{}

/// If all others' messages are quiet for a candidate, each message finds the candidate's view as it
/// was before the first, the view is the same after the last, and the candidate gets its text, or
/// the reply that the office is unavailable.
pub fn quiet_messages()
    ensures end { (s : ℕ) (items : List Item) (old new : OfficeState) (output : List ℕ)
        → (trace : AnswersItems Replies items old output new)
        → All (IsOwnOrQuiet s) (transcript items old output new trace)
        → view_of s new ≡ view_of s old }
    ensures each { (s : ℕ) (items : List Item) (old new : OfficeState) (output : List ℕ)
        → (trace : AnswersItems Replies items old output new)
        → All (IsOwnOrQuiet s) (transcript items old output new trace)
        → All (λ e. view_of s e.office ≡ view_of s old) (transcript items old output new trace) }
    ensures view { (s : ℕ) (items : List Item) (old new : OfficeState) (output : List ℕ)
        → (trace : AnswersItems Replies items old output new)
        → All (IsOwnOrQuiet s) (transcript items old output new trace)
        → All (RepliesView s (view_of s old)) (transcript items old output new trace) }
{}

/// Two connections to two offices: if the offices that receive a candidate's two messages agree on
/// the candidate's view, the candidate gets the same bytes for the same question, unless one of the
/// replies is that the office is unavailable. All such offices agree if they agree at the start and
/// others' messages are quiet for the candidate.
///
/// The law doesn't promise that a connection stays open, or that two equal messages are both
/// answered: another's message may end a connection, and a hundred messages do.
pub fn same_view_same_replies()
    ensures agree { (s : ℕ) (input before after : Option (List ℕ)) (one next : OfficeState)
        (served : Served) (stream written out : Option (List ℕ)) (other last : OfficeState)
        (ended : Served) → (first : Serves Replies input before after one next served)
        → (second : Serves Replies stream written out other last ended)
        → GetBytesByView s (entries first) (entries second) }
    ensures quiet { (s : ℕ) (input before after : Option (List ℕ)) (one next : OfficeState)
        (served : Served) (stream written out : Option (List ℕ)) (other last : OfficeState)
        (ended : Served) → (first : Serves Replies input before after one next served)
        → (second : Serves Replies stream written out other last ended)
        → view_of s one ≡ view_of s other → All (IsOwnOrQuiet s) (entries first)
        → All (IsOwnOrQuiet s) (entries second)
        → GetSameBytes s (entries first) (entries second) }
{}

/// If a connection has only a candidate's messages, and no reply is that the office is unavailable,
/// the bytes written are the text of the candidate's view, and the office is unchanged. So two such
/// connections with the same messages, to two offices that agree on the view, get the same bytes.
pub fn same_view_same_output()
    ensures written { (s : ℕ) (input before after : Option (List ℕ)) (office next : OfficeState)
        (served : Served) → (run : Serves Replies input before after office next served)
        → AreFrom s run.items → AreAvailable (entries run)
        → run.output ≡ output_from_view s (view_of s office) run.items }
    ensures stays { (s : ℕ) (input before after : Option (List ℕ)) (office next : OfficeState)
        (served : Served) → (run : Serves Replies input before after office next served)
        → AreFrom s run.items → next ≡ office }
    ensures same { (s : ℕ) (input before after : Option (List ℕ)) (one next : OfficeState)
        (served : Served) (stream written out : Option (List ℕ)) (other last : OfficeState)
        (ended : Served) → (first : Serves Replies input before after one next served)
        → (second : Serves Replies stream written out other last ended)
        → view_of s one ≡ view_of s other → first.items ≡ second.items → AreFrom s first.items
        → AreAvailable (entries first) → AreAvailable (entries second)
        → first.output ≡ second.output }
{}

/// Two lists of messages start from one office and contain no accepted load or publication. If
/// their batches that are accepted for the first time make the same changes to a candidate, in the
/// same order, then the candidate's view at the end is the same, and the candidate's messages get
/// the same bytes.
///
/// Which batches are accepted for the first time may depend on others' requests (a kept number, too
/// many pairs), so the law is about the changes that were made.
pub fn same_changes_same_view()
    ensures view { (s : ℕ) (old one other : OfficeState) (items others : List Item)
        (output text : List ℕ) → (first : AnswersItems Replies items old output one)
        → (second : AnswersItems Replies others old text other)
        → All LeavesPublication (transcript items old output one first)
        → All LeavesPublication (transcript others old text other second)
        → changes_to_candidate s (transcript items old output one first)
        ≡ changes_to_candidate s (transcript others old text other second)
        → view_of s one ≡ view_of s other }
    ensures same { (s : ℕ) (old one other next last : OfficeState) (items others : List Item)
        (output text : List ℕ) (request : PlainRequest) (reply answer : PlainReply)
        → (first : AnswersItems Replies items old output one)
        → (second : AnswersItems Replies others old text other)
        → All LeavesPublication (transcript items old output one first)
        → All LeavesPublication (transcript others old text other second)
        → changes_to_candidate s (transcript items old output one first)
        ≡ changes_to_candidate s (transcript others old text other second)
        → IsFrom s request → Replies one request reply next → Replies other request answer last
        → HaveSameBytes (request, reply) (request, answer) }
{}

/// Over clients one after another, including connections that end with a fault, each candidate gets
/// the text of their view in the office that received their message, whatever others ask before and
/// between.
pub fn each_client_by_view()
    ensures { (visits : List Visit) (old new : OfficeState) → (run : ServesAll visits old new)
        → All RepliesOwnView (all_entries visits old new run) }
{}

/// If all others' messages are quiet for a candidate, then over clients one after another,
/// including connections that end with a fault, each message finds the candidate's view as it was
/// before the first, the view is the same after the last, and the candidate gets its text, or the
/// reply that the office is unavailable.
pub fn quiet_clients()
    ensures end { (s : ℕ) (visits : List Visit) (old new : OfficeState)
        → (run : ServesAll visits old new)
        → All (IsOwnOrQuiet s) (all_entries visits old new run)
        → view_of s new ≡ view_of s old }
    ensures each { (s : ℕ) (visits : List Visit) (old new : OfficeState)
        → (run : ServesAll visits old new)
        → All (IsOwnOrQuiet s) (all_entries visits old new run)
        → All (λ e. view_of s e.office ≡ view_of s old) (all_entries visits old new run) }
    ensures view { (s : ℕ) (visits : List Visit) (old new : OfficeState)
        → (run : ServesAll visits old new)
        → All (IsOwnOrQuiet s) (all_entries visits old new run)
        → All (RepliesView s (view_of s old)) (all_entries visits old new run) }
{}

/// Two offices, each with clients one after another, including connections that end with a fault:
/// if the offices that receive a candidate's two messages agree on the candidate's view, the
/// candidate gets the same bytes for the same question, unless one of the replies is that the
/// office is unavailable. All such offices agree if they agree at the start and others' messages
/// are quiet for the candidate.
pub fn same_view_same_clients()
    ensures agree { (s : ℕ) (visits others : List Visit) (one next other last : OfficeState)
        → (first : ServesAll visits one next) → (second : ServesAll others other last)
        → GetBytesByView s (all_entries visits one next first)
        (all_entries others other last second) }
    ensures quiet { (s : ℕ) (visits others : List Visit) (one next other last : OfficeState)
        → (first : ServesAll visits one next) → (second : ServesAll others other last)
        → view_of s one ≡ view_of s other
        → All (IsOwnOrQuiet s) (all_entries visits one next first)
        → All (IsOwnOrQuiet s) (all_entries others other last second)
        → GetSameBytes s (all_entries visits one next first)
        (all_entries others other last second) }
{}

/// After a crash a later opening, by any store, finds the office after a front of the messages that a
/// desk answered on connections one after another. The front has each message whose reply is 200 or
/// 201, so each whose 200 or 201 a client was sent. The first message behind it may have been carried
/// out too, though its reply says otherwise.
pub fn done_messages_stay<S: Alter, T: Alter>()
    ensures { (visits : List Visit) (old new : Held S) (opened : Held T) (office : OfficeState)
        → (run : ServesVisits (Answered S.Store) visits old new)
        → IsCommitted (state S.Store old) → IsDatabase (state S.Store old).now
        → RepresentsOffice (state S.Store old).now office → HasCleanDisk (state S.Store new)
        → OpenedAfter (state S.Store new) (state T.Store opened)
        → IsAfterFront (all_exchanges (Answered S.Store) visits old new run) office
        (state T.Store opened).now }
{}
