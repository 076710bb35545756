//! The writer of maps.

ghost use Rattle.std.specs.Prelude.{◌≡◌, ◌++◌, ◌∷◌, [], decimal, IfOk, OnOk};
ghost use Rattle.std.specs.List.{list_any};
ghost use Rattle.fleet_model.specs.Geometry.{is_same_cell};
ghost use Rattle.fleet_text.specs.Words.{ended_text};
ghost use Rattle.fleet_grid.specs.MapWriting.{is_left, row_left, glyph_of, row_text, header_lines, ground_without, map_text};

use crate::grid::Grid;
use fleet_model::{Cell, OutOfMemory};
use fleet_text::write_small_number;
use std::alloc::{AllocError, Global};

/// How many digits the longest number of 16 bits has. That of a side has one less.
const DIGITS: usize = 5;

/// Whether the cell is one of these.
fn is_one_of(cells: &[Cell], cell: Cell) -> bool
    ensures { result ≡ list_any (is_same_cell cell) cells.now }
{
    cells.iter().any(|other| cell == *other)
}

/// The glyph of a cell: of a passable one unless it is one of these.
fn glyph_of(grid: &Grid, without: &[Cell], cell: Cell) -> u8
    ensures { result ≡ glyph_of (is_left grid.now without.now cell.y cell.x) }
{
    if grid.passable(cell) && !is_one_of(without, cell) {
        b'.'
    } else {
        b'@'
    }
}

/// Adds the line of a row.
fn put_row(text: &mut Vec<u8>, grid: &Grid, without: &[Cell], y: u16) -> Result<(), AllocError>
    ensures { OnOk result (text.new.items ≡ text.old.items
        ++ row_text (row_left grid.now without.now y) ++ 10 ∷ []) }
{
    for x in 0..grid.width() {
        text.push(glyph_of(grid, without, Cell { x, y }))?;
    }
    text.push(b'\n')?;
    Ok(())
}

/// Adds the line of a word and a number.
fn put_side(text: &mut Vec<u8>, word: &[u8], side: u16) -> Result<(), AllocError>
    ensures { OnOk result (text.new.items ≡ text.old.items
        ++ (word.now ++ 32 ∷ decimal side) ++ 10 ∷ []) }
{
    let mut digits = [0; DIGITS];
    let at = write_small_number(side, &mut digits, DIGITS);
    text.extend_from_slice(word)?;
    text.push(b' ')?;
    text.extend_from_slice(&digits[at..])?;
    text.push(b'\n')?;
    Ok(())
}

/// Adds the lines before the rows.
fn put_header(text: &mut Vec<u8>, grid: &Grid) -> Result<(), AllocError>
    ensures { OnOk result (text.new.items
        ≡ text.old.items ++ ended_text (header_lines grid.now)) }
{
    text.extend_from_slice(b"type octile\n")?;
    put_side(text, b"height", grid.height())?;
    put_side(text, b"width", grid.width())?;
    text.extend_from_slice(b"map\n")?;
    Ok(())
}

/// The written form of a map, in which these cells are not passable besides: a header, and a line for each row. It
/// fails only if memory is refused.
pub fn write_map(alloc: Global, grid: &Grid, without: &[Cell]) -> Result<Vec<u8>, OutOfMemory>
    ensures { IfOk result (λ text. text.items ≡ map_text (ground_without grid.now without.now)) }
{
    let mut text = Vec::new(alloc);
    put_header(&mut text, grid)?;
    for y in 0..grid.height() {
        put_row(&mut text, grid, without, y)?;
    }
    Ok(text)
}
