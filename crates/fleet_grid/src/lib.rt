//! Maps of a grid.
//!
//! A map is read from the `.map` format of the MovingAI benchmark (Sturtevant 2012).
//!
//! `grid` has maps, a bit for each cell, and reads them: it goes over the lines of a text once, in the order in which
//! faults are judged, and over 64 bytes of a row at a time; `laws` says that a text stands for one map or has one first
//! fault. `table` has a value for each number, as for that of each cell: it takes memory for the pages alone in which
//! one was set; and it has lists, one for each key. `writing` writes a map, without cells that are to be blocked.
#![tactic(auto)]

mod fault;
mod grid;
mod laws;
mod table;
mod writing;

pub use fault::MapFault;
pub use grid::{Grid, MAX_SIDE, read_map};
pub use laws::{
    a_map_text_is_one_ground, a_text_is_a_map_or_has_a_first_fault, a_written_map_is_read,
    cells_have_places_of_their_own,
};
pub use table::{Key, Lists, Table, extend_to, set_in};
pub use writing::write_map;
