//! The program `fleet`: from its words to its status; its commands, the files and streams that they read and write, and
//! refusals with their lines and statuses.
//!
//! `files` reads an input whole, and is the store of files, with the disk (`mem_files`: one in memory); it reads all
//! files that a command names, before any of them is judged. `fault` has every refusal of the program, with the line
//! and the status of the fault that is within, and `finish`, by which every command ends.
//!
//! `steps` has what commands are made of, each by the contract of one crate below, and what several of them print or
//! write. A command is a function from its request and its problem, or the texts of its files, to a status or a
//! refusal: those that print what they find are in `print_commands`, those that write files in `write_commands`, those
//! that run a program in `run_commands`, and the dispatch with its log in `dispatch_command`, each with its meaning in
//! the file of `specs/` of the same name.
//!
//! One module, `command`, executes them: `names_of` says which files a request names, and `run_request` reads these,
//! has the request answered by `answer_request`, and writes what is refused. A request is about tasks, and
//! `answer_problem` has the arm of its command, or about a program alone. `run_command` is what `main` calls.
#![tactic(auto)]

mod command;
mod dispatch_command;
mod fault;
mod files;
mod mem_files;
mod print_commands;
mod run_commands;
mod steps;
mod write_commands;

pub use command::{run_command, run_request};
pub use fault::{AutoFault, Fault, refuse};
pub use files::{CHUNK, Disk, FileFault, Files, MAX_BYTES, read_whole};
pub use fleet_args::{
    AutoRequest, Best, CheckRequest, CompileRequest, DispatchRequest, ListRequest, MigrateRequest,
    PlanRequest, ProgramFor, RehearseRequest, Request, RestRequest, RunRequest, Tasks, ThinRequest,
    TimesRequest, Tries, WordStop, read_words,
};
pub use mem_files::MemFiles;
pub use run_commands::{auto_run, run_hex};
