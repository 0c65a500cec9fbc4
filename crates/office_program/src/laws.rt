// Laws of the program's runs: functions without code; their contracts are the laws.
ghost use Rattle.std.specs.Prelude.{◌≡◌, ℕ, All, List};
ghost use Rattle.clap.specs.Words.{Text};
ghost use Rattle.sqlite.specs.Held.{Held, state};
ghost use Rattle.sqlite.specs.State.{HasCleanDisk};
ghost use Rattle.office_http.specs.Isolation.{GetSameBytes, IsOwnOrQuiet, RepliesView};
ghost use Rattle.office_model.specs.Office.{OfficeState};
ghost use Rattle.office_model.specs.Views.{view_of};
ghost use Rattle.office_store.specs.Opening.{IsOfficeOf};
ghost use Rattle.office_program.specs.Runs.{Runs};
ghost use Rattle.office_program.specs.Serve.{AreOfPorts};
ghost use Rattle.office_program.specs.Servers.{AsksToServe, HasOnly, LedOffice, entries_of};
ghost use Rattle.office_program.specs.World.{World};
ghost use Rattle.office_program.specs.declared.ending.Ending.{Ending};
ghost use Rattle.office_program.specs.declared.words.Terms.{Terms};

use crate::machine::Kinds;

/// A run of `serve` on a machine whose database is known and holds an office, however it ends: the
/// office served the clients of the port, each candidate got the text of their view, and the database
/// that is given back holds the office that they led to, with shares that add up to its penalty; or
/// no port was listened on.
///
/// It is assumed that the disk returns what was written.
pub fn server_leads_its_office<K: Kinds>()
    ensures { (old new : World (Held K.Store) K.Net K.Err) (words : List Text) (end : Ending)
        (path : List ℕ) (terms : Terms) (before after : Held K.Store) (there : OfficeState)
        → Runs K.Store.Store (AreOfPorts K.Net.opens K.Net.closes K.Net.Opened.accepts
        K.Net.Opened.takes_back K.Net.Opened.Reader.remaining K.Net.Opened.Writer.contents)
        K.Err.Lines K.Err.contents old new words end
        → AsksToServe words path terms
        → HasOnly (old.databases path) before → HasOnly (new.databases path) after
        → HasCleanDisk (state K.Store.Store after)
        → IsOfficeOf (state K.Store.Store before).now there
        → LedOffice K.Store.Store (new.ports ≡ old.ports)
        (AreOfPorts K.Net.opens K.Net.closes K.Net.Opened.accepts K.Net.Opened.takes_back
        K.Net.Opened.Reader.remaining K.Net.Opened.Writer.contents old.ports new.ports terms.port)
        after there }
{}

/// Two servers, each with a database and clients of its own: if their offices agree on a
/// candidate's view at the start, and others' messages are quiet for the candidate, the candidate
/// gets the same bytes for the same question, and these are the text of the view; unless a reply is
/// that the office is unavailable.
pub fn same_view_same_servers<K: Kinds, L: Kinds>()
    ensures { (s : ℕ) (port other_port : ℕ) (ports_old ports_new : K.Net)
        (others_old others_new : L.Net) (after : Held K.Store) (last : Held L.Store)
        (there elsewhere : OfficeState)
        (one : LedOffice K.Store.Store (ports_new ≡ ports_old)
        (AreOfPorts K.Net.opens K.Net.closes K.Net.Opened.accepts K.Net.Opened.takes_back
        K.Net.Opened.Reader.remaining K.Net.Opened.Writer.contents ports_old ports_new port)
        after there)
        (other : LedOffice L.Store.Store (others_new ≡ others_old)
        (AreOfPorts L.Net.opens L.Net.closes L.Net.Opened.accepts L.Net.Opened.takes_back
        L.Net.Opened.Reader.remaining L.Net.Opened.Writer.contents others_old others_new
        other_port) last elsewhere)
        → view_of s there ≡ view_of s elsewhere
        → All (IsOwnOrQuiet s) (entries_of one) → All (IsOwnOrQuiet s) (entries_of other)
        → GetSameBytes s (entries_of one) (entries_of other)
        × All (RepliesView s (view_of s there)) (entries_of one) }
{}
