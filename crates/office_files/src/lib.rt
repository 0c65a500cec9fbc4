//! Readers and writers of instance and solution files.
#![tactic(auto)]

mod counts;
mod dates;
mod digits;
mod eight_digits;
mod exam_lines;
mod fault;
mod fields;
mod headers;
mod inputs;
mod instance_reader;
mod instance_writer;
mod items;
mod laws;
mod line_writers;
mod lines;
mod numbers;
mod rule_word;
mod sections;
mod solution_reader;
mod solution_writer;
mod tokens;
mod weightings;
mod words;

pub use fault::{FaultKind, FileFault};
pub use inputs::{InputFault, instance_text, solution_text};
pub use instance_reader::read_instance;
pub use instance_writer::write_instance;
pub use laws::{
    canonical_instance_reads_back, canonical_solution_reads_back, instance_readings_agree,
    one_instance, one_timetable, sits_as_named, solution_readings_agree, spelled_in_limits,
    spelled_timetable_suits, weighs_as_said,
};
pub use lines::Token;
pub use numbers::number;
pub use solution_reader::read_solution;
pub use solution_writer::write_solution;
pub use tokens::Tokens;
pub use words::same_word;
