// Files by their paths.
ghost use Rattle.std.specs.Prelude.{ℕ, IfErr, IfOk, List, Option};
ghost use Rattle.office_program.specs.Sources.{IsReaderOf, MayNotOpen};

use crate::readers::TextReader;
use std::fs::{self, File};
use std::io::Result;

/// Files by their paths.
pub trait Texts {
    /// The reader of a file.
    type Text: TextReader + Drop;

    // What is known of the file of a path: nothing; that it can't be opened; or its bytes.
    ghost known: { Self → List ℕ → Option (Option (List ℕ)) };

    /// Opens the file of a path.
    fn open_text(&self, path: &str) -> Result<Self::Text>
        ensures opened { IfOk result (λ text.
            IsReaderOf (known self.now path.now) (Self.Text.remaining text)) }
        ensures failed { IfErr result (λ _. MayNotOpen (known self.now path.now)) };
}

impl Texts for HostRuntime {
    ghost use Rattle.std.specs.Prelude.{None};

    type Text = File;

    // No clause of the system says what a file holds.
    ghost known = { λ files path. None };

    fn open_text(&self, path: &str) -> Result<File> {
        fs::open(self, path)
    }
}
