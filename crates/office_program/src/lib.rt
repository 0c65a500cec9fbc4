//! The program's commands: it judges solutions, lists the places of an exam, loads or serves an
//! office, or exports what it has published, as its command line says.
#![tactic(auto)]

mod answering;
mod cause_lines;
mod causes;
mod check_all_words;
mod check_words;
mod checking;
mod commands;
mod compare_words;
mod comparing;
mod databases;
mod ending;
mod explaining;
mod exporting;
mod faults;
mod folder;
mod helps;
mod inputs;
mod judging;
mod laws;
mod lines;
mod listing;
mod loading;
mod machine;
mod notices;
mod places_words;
mod program;
mod readers;
mod serving;
mod shelf;
mod sources;
mod surroundings;
mod system;
mod texts;
mod words;

pub use cause_lines::{Cause, Source};
pub use checking::CheckForm;
pub use databases::{Databases, SystemDatabases};
pub use ending::Ending;
pub use exporting::{ExportFault, export_run};
pub use faults::ProgramFault;
pub use folder::{Folder, FolderFile};
pub use laws::{same_view_same_servers, server_leads_its_office};
pub use lines::Lines;
pub use loading::{LoadFault, load_run};
pub use machine::{Kinds, Machine, Worldly};
pub use notices::LongWork;
pub use program::{refuse_arguments, run_words};
pub use readers::TextReader;
pub use serving::{listen_and_serve, serve_clients, serve_office};
pub use shelf::Shelf;
pub use surroundings::{Found, FoundKind, Surroundings};
pub use system::{System, system_machine};
pub use texts::Texts;
pub use words::{Task, Terms, read_words, words_of};
