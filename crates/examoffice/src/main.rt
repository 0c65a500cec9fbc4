//! The examination office's program: it judges solutions of examination timetables by the rules
//! of the International Timetabling Competition 2007, and loads, serves and exports an office.
#![tactic(auto)]

use office_program::{refuse_arguments, run_words, system_machine, words_of};
use std::fs::File;
use std::os::fd::AsRawFd;
use std::process::ExitCode;
use std::{env, fs};

fn main(rt: HostRuntime) -> ExitCode {
    let _standard = (fill(&rt), fill(&rt), fill(&rt));
    let words = match env::args(&rt) {
        Ok(args) => words_of(rt.alloc(), args),
        Err(fault) => Err(fault),
    };
    let ending = match words {
        Ok(words) => run_words(&mut system_machine(&rt), &words),
        Err(fault) => refuse_arguments(&fault, &mut rt.stderr()),
    };
    ExitCode::from(ending.status)
}

// Opens /dev/null for a standard stream that is closed, so that no other file gets its file
// descriptor. It is opened only for reading, so printing to a closed stream still fails.
fn fill(rt: &HostRuntime) -> Option<File> {
    let null = fs::open(rt, "/dev/null").ok()?;
    if null.as_raw_fd() <= 2 {
        Some(null)
    } else {
        None
    }
}
