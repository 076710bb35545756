//! The command line: the words after the program's name, read as a request.
//!
//! `commands` has what each command is asked for, the tables of the arguments and of the commands, and how a request is
//! made of what `clap` found in the words (its *matches*); `arguments` has which forms arguments have, makes a command
//! of `clap` of a list of them, and reads their values in the matches; `request` reads words by the command with whose
//! name they begin, and joins the commands to say what is wrong with others; `laws` says that a command by itself reads
//! as the command line reads, and that each text which an option takes stands for a value. Words that are taken have
//! each word that the command needs (`proofs/OwnWords.antt`), so each is read where it is asked for; that words with a
//! text which an option does not take have a fault is `clap`'s definition.
#![tactic(auto)]

mod arguments;
mod commands;
mod laws;
mod request;

pub use commands::{
    AutoRequest, Best, CheckRequest, CompileRequest, DispatchRequest, ListRequest, MigrateRequest,
    PlanRequest, ProgramFor, RehearseRequest, Request, RestRequest, RunRequest, Tasks, ThinRequest,
    TimesRequest, Tries,
};
pub use laws::{commands_stand_alone, options_stand_for_values};
pub use request::{WordStop, read_words};
