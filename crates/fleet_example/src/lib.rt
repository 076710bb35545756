//! Worked examples: what the definitions say of small programs and plans, worked out by hand, and what a program of
//! one's own does with the crates. Nothing stands on it.
//!
//! What is worked out by hand stands by subject: `programs` (runs, levels, visits, acceptance), `plans` (which are free
//! of conflict, and first faults), `compiled` (the programs of plans), `meetings` (the holds that bring two agents onto
//! one cell) and `schedules` (actions that take times of their own, and a robot that breaks down). `library` is what
//! docs/LIBRARY.md shows: a run of program bytes, a dispatch over a floor, and a report that is noted by hand.
#![tactic(auto)]

pub mod compiled;
pub mod library;
pub mod meetings;
pub mod plans;
pub mod programs;
pub mod schedules;
