//! Why a text is no map.

use fleet_text::{OutFault, Refusal, TraceOut, put_memory, put_named, put_named_at, put_named_by};
use std::alloc::AllocError;
use thiserror::Error;

/// The first fault of a map text, from the front. The header's lines count from 1, rows and columns from 0.
#[derive(Clone, Copy, Debug, Error)]
pub enum MapFault {
    #[error("out of memory")]
    OutOfMemory,
    /// A line of the header is missing or has another form.
    #[error("line {line} of the header is missing or has another form")]
    Header { line: u64 },
    /// A side is 0 or above 4,096.
    #[error("a side of the map is 0 or above 4096")]
    Size,
    /// There are fewer rows than the header says.
    #[error("there are fewer rows than the header says")]
    RowCount,
    /// A row is shorter or longer than the header says.
    #[error("row {row} is not as wide as the header says")]
    RowLength { row: u16 },
    /// A byte of a row is no glyph.
    #[error("the byte in row {row}, column {column} is no glyph")]
    Glyph { row: u16, column: u16 },
    /// Something follows the last row.
    #[error("something follows the last row")]
    Trailing,
}

impl From<AllocError> for MapFault {
    ghost use Rattle.std.specs.Prelude.{◌≡◌};
    ghost use Rattle.fleet_grid.specs.declared.fault.MapFault.TheVariants.{OutOfMemory};

    ghost from_gives = { λ _ e. e ≡ OutOfMemory };

    fn from(_e: AllocError) -> MapFault {
        MapFault::OutOfMemory
    }
}

impl Refusal for MapFault {
    ghost use Rattle.fleet_grid.specs.RefusalWords.{map_words, is_map_failure};

    ghost words = { map_words };

    ghost is_failure = { is_map_failure };

    fn put<O: TraceOut>(&self, out: &mut O) -> Result<(), OutFault> {
        match *self {
            MapFault::OutOfMemory => put_memory(out),
            MapFault::Header { line } => put_named_at(out, "map", 2, "Header", "line", line),
            MapFault::Size => put_named(out, "map", 3, "Size"),
            MapFault::RowCount => put_named(out, "map", 4, "RowCount"),
            MapFault::RowLength { row } => put_named_at(
                out,
                "map",
                5,
                "RowLength",
                "row",
                row as u64,
            ),
            MapFault::Glyph { row, column } => {
                let row = ("row", row as u64);
                put_named_by(out, "map", 6, "Glyph", row, ("column", column as u64))
            }
            MapFault::Trailing => put_named(out, "map", 7, "Trailing"),
        }
    }

    fn is_failure(&self) -> bool {
        matches!(self, MapFault::OutOfMemory)
    }
}
