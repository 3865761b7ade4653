//! What a program over files does with a host: it loads files, makes a reply of them, stores and prints it. What a command is stands open here (`FileCommand`): it is
//! the list of the files that it loads, each with its limit, and the answers that it may give for their bytes.
//! Tests: the command lines of the programs above, which `.ci/commands.py` runs.
#![tactic(auto)]

mod command;
mod delivering;
mod loading;
mod program_files;
mod reply;
mod words;

pub use command::{FileCommand, run_command};
pub use delivering::{deliver, store_all};
pub use loading::{AllLoaded, Want, load_all};
pub use program_files::ProgramFiles;
pub use reply::{Reply, Store};
pub use words::{NoWords, words_of};
