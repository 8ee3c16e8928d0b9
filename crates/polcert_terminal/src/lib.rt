//! What the programs do at a terminal: they read the words of the command line, open the files that these name, and show their progress.
#![tactic(auto)]

pub mod bound_command;
pub mod command_line;
pub mod polcert_command;
mod process;
mod progress;
pub mod robust_command;

pub use command_line::{DONE, print_clap_error, refuse_for_memory, refuse_words};
pub use process::{borrow_words, open_text, process_words};
pub use progress::{CheckProgress, InputText, WatchedSource};
