//! Tests of what no clause of a contract says and the built program cannot show (`tests/`). Without its tests the crate
//! has nothing.
//!
//! `call_tests` has calls of which a growth is refused, and a train of 128 agents; `path_tests` earliest paths past
//! reserved ones; `changed_tests` how many texts are read, and refused with each number, that differ in one byte from
//! the pair's; `sentence_tests` the sentences of faults; `stream_tests` runs and dispatches whose ends fail, which
//! `streams` has, and that fleets go on then. `fleets` has their worked fleets, and has them accepted and started.
//!
//! The other modules call the library as users do: each name of `tests/names.txt`, which is what they are promised, is
//! imported from the crate that the list names, and each call is made once at concrete types, with ample memory,
//! against what is worked out by hand. So a name that is taken away or moved, a call that nothing meets, or a body that
//! gives up for want of memory breaks the crate; `tests/names.sh` compares the list with the crates. `model_calls`
//! makes programs by hand and asks views, `text_calls` reads and writes maps, scenarios and plans, `plan_calls` plans,
//! compiles and thins, `code_calls` reads and writes bytes (with each byte of the pair's program set to each other
//! value, by both readers), `verify_calls` verifies, `kernel_calls` joins and compares rows, `run_calls` ticks, drives
//! and rehearses (1,024 agents of which one moves), `dispatch_calls` has dispatches tell all orders, and `cli_calls`
//! does whole commands over files in memory. `ends` has their files that fail at a call, `due` what compares.
#![tactic(auto)]

#[cfg(test)]
mod call_tests;
#[cfg(test)]
mod changed_tests;
#[cfg(test)]
mod cli_calls;
#[cfg(test)]
mod code_calls;
#[cfg(test)]
mod dispatch_calls;
#[cfg(test)]
mod due;
#[cfg(test)]
mod ends;
#[cfg(test)]
mod fleets;
#[cfg(test)]
mod kernel_calls;
#[cfg(test)]
mod model_calls;
#[cfg(test)]
mod path_tests;
#[cfg(test)]
mod plan_calls;
#[cfg(test)]
mod run_calls;
#[cfg(test)]
mod sentence_tests;
#[cfg(test)]
mod stream_tests;
#[cfg(test)]
mod streams;
#[cfg(test)]
mod text_calls;
#[cfg(test)]
mod verify_calls;
