// Lines of faults, and whether each was written.
ghost use Rattle.std.specs.Prelude.{◌++◌, ◌∷◌, [], ℕ, Bool, List, codes};
ghost use Rattle.clap.specs.declared.error.Error.{Error};
ghost use Rattle.office_check.specs.Names.{printed_name};
ghost use Rattle.office_program.specs.FaultLines.{fault_line, not_text_line};

use crate::faults::ProgramFault;
use clap::Error;
use office_check::FileName;
use std::io::{Stderr, Write};

/// A writer of lines of faults, which says whether each was written.
pub trait Lines {
    // In the first state a try to write this text may end so, written whole or not, and change to
    // the second state.
    ghost tells: { Self → List ℕ → Bool → Self → Type 0 };

    // In the first state a try to write the text of this mistake in the words may end so, likewise.
    ghost tells_mistake: { Self → Error → Bool → Self → Type 0 };

    /// Tries to write the line of a fault. Returns whether it was written whole.
    fn tell(&mut self, fault: &ProgramFault<'_>) -> bool
        ensures { tells self.old (fault_line fault.now ++ 10 ∷ []) result self.new };

    /// Tries to write the line of a fault after a path. Returns whether it was written whole.
    fn tell_of(&mut self, path: &str, fault: &ProgramFault<'_>) -> bool
        ensures { tells self.old
            (printed_name path.now ++ codes ": " ++ fault_line fault.now ++ 10 ∷ [])
            result self.new };

    /// Tries to write the text of a mistake in the words. Returns whether it was written whole.
    fn tell_mistake(&mut self, mistake: &Error) -> bool
        ensures { tells_mistake self.old mistake.now result self.new };

    /// Tries to write the line for words that are not UTF-8. Returns whether it was written whole.
    fn tell_not_text(&mut self) -> bool
        ensures { tells self.old (not_text_line ++ 10 ∷ []) result self.new };
}

impl Lines for Stderr {
    // No clause of the system says which bytes a terminal has.
    ghost tells = { λ _ _ _ _. Unit {0} };

    ghost tells_mistake = { λ _ _ _ _. Unit {0} };

    fn tell(&mut self, fault: &ProgramFault<'_>) -> bool {
        writeln!(self, "{fault}").is_ok()
    }

    fn tell_of(&mut self, path: &str, fault: &ProgramFault<'_>) -> bool {
        let name = FileName(path);
        writeln!(self, "{name}: {fault}").is_ok()
    }

    fn tell_mistake(&mut self, mistake: &Error) -> bool {
        write!(self, "{mistake}").is_ok()
    }

    fn tell_not_text(&mut self) -> bool {
        writeln!(self, "error: the words are not all UTF-8").is_ok()
    }
}
