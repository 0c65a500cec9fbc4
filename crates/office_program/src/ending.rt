// How the program, or a task of it, ended.
ghost use Rattle.std.specs.Prelude.{◌≡◌, true};

/// How the program ended.
#[derive(Clone, Copy)]
pub struct Ending {
    /// The exit status: 0 done, 1 a fault of a file, an office, a port, `out` or memory, 2 a
    /// mistake in the words, 3 a solution that breaks a hard rule.
    pub status: u8,
    /// Whether all of this was written to the writer of faults: the line of the fault or the text
    /// of the mistake that the program ended with, or else the lines of the connections that it
    /// served. True if there is nothing to write.
    pub is_err_written: bool,
}

impl Ending {
    // Returns an ending without anything for the writer of faults.
    pub(crate) fn quiet(status: u8) -> Ending
        ensures { result ≡ record { status = status; is_err_written = true } }
    {
        Ending {
            status,
            is_err_written: true,
        }
    }
}
