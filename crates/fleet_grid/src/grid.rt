//! Maps: which cells are passable, kept as bits, the glyphs of a row, and reading a map from its text.

ghost use Rattle.std.specs.Prelude.{◌≡◌, ◌<◌, ◌*◌, IsTrue, IfSome, IfNone, false, ◌+◌, ◌-◌, ◌≤◌, ◌^◌, ◌++◌, ◌==◌, ◌/◌, ◌%◌, length, map, take, replicate, count_by, min, vec_capacity, OnOk, IfOk, [], position, bit_and, slice_index, ◌≢◌, ◌&&◌, if◌then◌else◌, Ok, Err, drop, IfErr, IsOkUnless, option_map, option_copied};
ghost use Rattle.fleet_model.specs.Geometry.{place_of, moved};
ghost use Rattle.fleet_grid.specs.Ground.{is_passable, passable_cells, cell_index, IsNoCell, IsGround, Ground, IsSide};
ghost use Rattle.fleet_grid.specs.declared.grid.TheConstants.{MAX_SIDE};
ghost use Rattle.fleet_grid.specs.MapText.{is_ground_glyph, is_glyph, cells_of, is_no_glyph, line_at, is_row_space, IsMapText, IsFirstMapFault};
ghost use Rattle.std.specs.List.{list_all};
ghost use Rattle.fleet_grid.specs.Stored.{stored_cells, byte_count, with_padding, ground_of, IsStored};
ghost use Rattle.std.specs.Simd.Lanes.{mask_l};
ghost use Rattle.fleet_model.specs.Answer.{IsDueUnless};
ghost use Rattle.fleet_text.specs.Text.{lines, words_from_front};
ghost use Rattle.fleet_grid.specs.MapReading.{field, number_field, is_alone, is_side, header_at, row_at, rows_at, map_at};

use crate::fault::MapFault;
use fleet_model::{Cell, Dir};
use fleet_text::{BLOCK, Cursor, TOO_LONG, from_front, is_blank, next_word, number_of};
use std::alloc::{AllocError, Global};
use std::marker::Model;
use std::simd::prelude::*;

/// The most columns and the most rows of a map.
pub const MAX_SIDE: u32 = 4_096;

/// Which cells of a map are passable. As a value it is the ground of the map: its width and height, each from 1 to
/// 4,096, and its rows of cells.
///
/// No method takes memory.
#[derive(Drop)]
pub struct Grid {
    width: u16,
    height: u16,
    cells: Cells,
}

impl Model for Grid {
    ghost use Rattle.fleet_grid.specs.Ground.{Ground, IsSide};
    ghost use Rattle.fleet_grid.specs.Stored.{ground_of, IsStored};

    ghost Value = { Ground };

    ghost view = { λ g. ground_of g.width g.height g.cells.bytes.items };

    ghost invariant = { λ g. IsSide g.width × IsSide g.height
        × IsStored g.width g.height g.cells.passable_count g.cells.bytes.items };
}

impl Grid {
    ghost use Rattle.fleet_grid.specs.Ground.{IsSide};
    ghost use Rattle.fleet_grid.specs.Stored.{ground_of, IsStored};

    /// A map of these sizes, from its cells row by row.
    fn new(width: u16, height: u16, cells: Cells) -> Self
        requires width { IsSide width }
        requires height { IsSide height }
        requires cells { IsStored width height cells.passable_count cells.bytes.items }
        ensures { result ≡ ground_of width height cells.bytes.items }
    {
        Grid {
            width,
            height,
            cells,
        }
    }

    /// How many columns the map has.
    pub fn width(&self) -> u16
        ensures value { result ≡ self.now.width }
        ensures sizes { IsGround self.now }
    {
        self.width
    }

    /// How many rows the map has.
    pub fn height(&self) -> u16
        ensures value { result ≡ self.now.height }
        ensures sizes { IsGround self.now }
    {
        self.height
    }

    /// How many cells are passable.
    pub fn ground(&self) -> u32
        ensures { result ≡ passable_cells self.now }
    {
        self.cells.passable_count
    }

    /// Whether the cell is passable; off the map none is.
    pub fn passable(&self, cell: Cell) -> bool
        ensures value { result ≡ is_passable self.now (place_of cell) }
        ensures on_map { IsTrue result → (cell.x < self.now.width) × (cell.y < self.now.height) }
    {
        let Cell { x, y } = cell;
        let is_right_of_map = x >= self.width;
        let is_below_map = y >= self.height;
        if is_right_of_map || is_below_map {
            return false;
        }
        let place = usize::from(y) * byte_count(usize::from(self.width)) + usize::from(x / 8);
        is_set(self.cells.bytes[place], (x % 8) as u8)
    }

    /// The neighbouring cell in a direction, if it is on the map and passable.
    pub fn neighbour(&self, cell: Cell, dir: Dir) -> Option<Cell>
        ensures some { IfSome result (λ next. (place_of next ≡ moved (place_of cell) dir)
            × IsTrue (is_passable self.now (place_of next))) }
        ensures on_map { IfSome result
            (λ next. (next.x < self.now.width) × (next.y < self.now.height)) }
        ensures none { IfNone result (is_passable self.now (moved (place_of cell) dir) ≡ false) }
    {
        // Reading a field brings the invariant: a side is at most 4,096, so a map ends before the numbers of a cell do.
        let _ = &self.width;
        let next = beside(cell, dir)?;
        if self.passable(next) {
            Some(next)
        } else {
            None
        }
    }

    /// Where a cell of the map stands in a table of its cells, row by row.
    pub fn cell_index(&self, cell: Cell) -> usize
        requires column { cell.x < self.now.width }
        requires row { cell.y < self.now.height }
        ensures value { result ≡ cell_index self.now cell }
        ensures within { result < self.now.width * self.now.height }
    {
        usize::from(cell.y) * usize::from(self.width) + usize::from(cell.x)
    }
}

/// The neighbouring cell in a direction, if its numbers are in range.
fn beside(cell: Cell, dir: Dir) -> Option<Cell>
    ensures some { IfSome result (λ next. place_of next ≡ moved (place_of cell) dir) }
    ensures none { IfNone result (IsNoCell (moved (place_of cell) dir)) }
{
    let Cell { x, y } = cell;
    match dir {
        Dir::North => Some(Cell {
            x,
            y: y.checked_sub(1)?,
        }),
        Dir::East => Some(Cell {
            x: x.checked_add(1)?,
            y,
        }),
        Dir::South => Some(Cell {
            x,
            y: y.checked_add(1)?,
        }),
        Dir::West => Some(Cell {
            x: x.checked_sub(1)?,
            y,
        }),
    }
}

/// Rows of cells, eight cells to a byte, the first in the lowest bit. A set bit is a passable cell, and each row begins
/// with a byte of its own.
#[derive(Drop)]
pub(crate) struct Cells {
    pub(crate) bytes: Vec<u8>,
    pub(crate) passable_count: u32,
}

/// A glyph of a cell that is not passable.
const BLOCKED: u8 = b'@';

/// How many bytes keep so many cells.
pub(crate) fn byte_count(cells: usize) -> usize
    requires { cells ≤ MAX_SIDE }
    ensures { result ≡ byte_count cells }
{
    cells.div_ceil(8)
}

/// A block of these glyphs, and blocked ones after them.
fn block_of(glyphs: &[u8]) -> [u8; BLOCK]
    requires { length glyphs.now ≤ BLOCK }
    ensures { result ≡ glyphs.now ++ replicate (BLOCK - length glyphs.now) BLOCKED }
{
    let mut block = [BLOCKED; BLOCK];
    block[..glyphs.len()].copy_from_slice(glyphs);
    block
}

impl Cells {
    /// No row, and room for the rows of a map of these sizes, but for no more than `most` bytes.
    pub(crate) fn with_capacity(
        alloc: Global,
        width: u16,
        height: u16,
        most: usize,
    ) -> Result<Self, AllocError>
        requires { width ≤ MAX_SIDE }
        ensures bytes { IfOk result (λ c. c.bytes.items ≡ []) }
        ensures count { IfOk result (λ c. c.passable_count ≡ 0) }
        ensures room { IfOk result (λ c. vec_capacity c.bytes
            ≡ min (byte_count width * height) most) }
    {
        let all = byte_count(usize::from(width)) * usize::from(height);
        Ok(Cells {
            bytes: Vec::with_capacity(alloc, all.min(most))?,
            passable_count: 0,
        })
    }

    /// Adds a row of bytes, of which those that are no glyphs are blocked, and answers whether all are glyphs.
    pub(crate) fn put_row(&mut self, line: &[u8]) -> Result<bool, AllocError>
        requires few { length line.now ≤ MAX_SIDE }
        requires count { self.old.passable_count + length line.now ≤ 2 ^ 24 }
        ensures bytes { OnOk result (stored_cells self.new.bytes.items
            ≡ stored_cells self.old.bytes.items ++ with_padding (cells_of line.now)) }
        ensures count { OnOk result (self.new.passable_count
            ≡ self.old.passable_count + count_by is_ground_glyph line.now) }
        ensures glyphs { IfOk result (λ are. are ≡ list_all is_glyph line.now) }
    {
        let mut rest = line;
        let mut are_glyphs = true;
        while let Some((block, after)) = rest.split_first_chunk::<BLOCK>() {
            are_glyphs &= self.put_block(block, BLOCK)?;
            rest = after;
        }
        are_glyphs &= self.put_block(&block_of(rest), rest.len())?;
        Ok(are_glyphs)
    }

    /// Adds the bytes that keep the first `len` glyphs of a block, the others of which are blocked, and answers whether
    /// all are glyphs. It is inlined, so that the compiler knows the length of a whole block.
    #[inline(always)]
    fn put_block(&mut self, block: &[u8; BLOCK], len: usize) -> Result<bool, AllocError>
        requires len { len ≤ BLOCK }
        requires count { self.old.passable_count ≤ 2 ^ 24 }
        ensures bytes { OnOk result (stored_cells self.new.bytes.items
            ≡ stored_cells self.old.bytes.items ++ take (8 * byte_count len)
            (map is_ground_glyph block.now)) }
        ensures count { OnOk result (self.new.passable_count
            ≡ self.old.passable_count + count_by is_ground_glyph block.now) }
        ensures glyphs { IfOk result (λ are. are ≡ list_all is_glyph block.now) }
    {
        let glyphs = u8x64::from_array(*block);
        let mask = ground_mask(glyphs);
        self.bytes
            .extend_from_slice(&mask.to_le_bytes()[..byte_count(len)])?;
        self.passable_count += mask.count_ones();
        Ok(are_glyphs(glyphs))
    }
}

/// Whether bit `place` of the byte is set.
pub(crate) fn is_set(byte: u8, place: u8) -> bool
    requires { place < 8 }
    ensures { result ≡ (byte / 2 ^ place % 2 == 1) }
{
    (byte >> place) & 1 == 1
}

// The glyphs of a row, 64 at a time.
//
// Glyphs of one kind differ in their low four bits. So for each byte the glyph of the kind with these bits is looked
// up and compared with the byte, as Langdale and Lemire tell the characters of JSON (2019).

/// At each place the glyph of a passable cell whose low four bits are the place, or a byte whose are not.
const GROUND_GLYPHS: [u8; 16] = [1, 0, 0, b'S', 0, 0, 0, b'G', 0, 0, 0, 0, 0, 0, b'.', 0];

/// The same of the glyphs of cells that are not passable.
const BLOCKED_GLYPHS: [u8; 16] = [b'@', 0, 0, 0, b'T', 0, 0, b'W', 0, 0, 0, 0, 0, 0, 0, b'O'];

/// The byte of the table at the low four bits of each byte of the block.
#[inline(always)]
fn looked_up(table: &[u8; 16], block: u8x64) -> u8x64
    ensures { result ≡ map (λ b. slice_index table.now (bit_and b 15)) block }
{
    let tables: u8x64 = u8x16::from_array(*table).swizzle([
        0, 1, 2, 3, 4, 5, 6, 7, 8, 9, 10, 11, 12, 13, 14, 15, 0, 1, 2, 3, 4, 5, 6, 7, 8, 9, 10, 11,
        12, 13, 14, 15, 0, 1, 2, 3, 4, 5, 6, 7, 8, 9, 10, 11, 12, 13, 14, 15, 0, 1, 2, 3, 4, 5, 6,
        7, 8, 9, 10, 11, 12, 13, 14, 15,
    ]);
    tables.swizzle_dyn_within::<16>(block & u8x64::splat(15))
}

/// Bit k says whether byte k of the block is the glyph of a passable cell.
#[inline(always)]
pub(crate) fn ground_mask(block: u8x64) -> u64
    ensures { result ≡ mask_l (map is_ground_glyph block) }
{
    looked_up(&GROUND_GLYPHS, block).simd_eq(block).to_bitmask()
}

/// Whether all bytes of the block are glyphs.
#[inline(always)]
pub(crate) fn are_glyphs(block: u8x64) -> bool
    ensures { result ≡ list_all is_glyph block }
{
    let is_ground = looked_up(&GROUND_GLYPHS, block).simd_eq(block);
    let is_blocked = looked_up(&BLOCKED_GLYPHS, block).simd_eq(block);
    let is_glyph = is_ground | is_blocked;
    (!is_glyph).to_bitmask() == 0
}

/// The first column whose byte is no glyph.
pub(crate) fn wrong_column(line: &[u8]) -> Option<usize>
    ensures { result ≡ position is_no_glyph line.now }
{
    line.iter().position(|b| !is_glyph(*b))
}

/// Whether the byte is a glyph.
fn is_glyph(byte: u8) -> bool
    ensures { result ≡ is_glyph byte }
{
    matches!(byte, b'.' | b'G' | b'S' | b'@' | b'O' | b'T' | b'W')
}

// Reading a map from its text.

/// The next line. A missing one counts as empty.
fn next_of<'a>(lines: &mut Cursor<'a>) -> &'a [u8]
    ensures line { result.now ≡ line_at lines.old 0 }
    ensures rest { lines.new ≡ drop 1 lines.old }
{
    lines.next_line().unwrap_or(&[])
}

/// The word of a header line after its keyword.
#[tactic(auto, unfolding(crate::specs::MapReading::field))]
fn field<'a>(keyword: &[u8], line: &'a [u8]) -> Option<&'a [u8]>
    ensures { option_copied result ≡ field keyword.now line.now }
{
    let (first, rest) = next_word(from_front(line))?;
    let (word, rest) = next_word(rest)?;
    if next_word(rest).is_some() || first != keyword {
        return None;
    }
    Some(word)
}

/// The number of the next line, one of the header, after its keyword.
#[tactic(auto, unfolding(crate::specs::MapReading::number_field))]
fn number_field(keyword: &[u8], lines: &mut Cursor) -> Option<u64>
    ensures value { result ≡ option_map (λ n. min n TOO_LONG)
        (number_field keyword.now (line_at lines.old 0)) }
    ensures rest { lines.new ≡ drop 1 lines.old }
{
    number_of(field(keyword, next_of(lines))?)
}

/// Whether the next line, one of the header, has its keyword and no other word.
fn is_alone(keyword: &[u8], lines: &mut Cursor) -> bool
    ensures value { result ≡ is_alone keyword.now (words_from_front (line_at lines.old 0)) }
    ensures rest { lines.new ≡ drop 1 lines.old }
{
    match next_word(from_front(next_of(lines))) {
        Some((first, rest)) => next_word(rest).is_none() && first == keyword,
        None => false,
    }
}

fn is_side(n: u64) -> bool
    ensures { result ≡ is_side n }
{
    (1..=u64::from(MAX_SIDE)).contains(&n)
}

/// These numbers as width and height, if both are sides of a map.
fn sizes_of(width: u64, height: u64) -> Result<(u16, u16), MapFault>
    ensures value { result
        ≡ (if is_side height && is_side width then Ok (width, height) else Err MapFault.Size) }
    ensures sizes { IfOk result (λ sizes. IsSide sizes.0 × IsSide sizes.1) }
{
    if !is_side(height) || !is_side(width) {
        return Err(MapFault::Size);
    }
    Ok((width as u16, height as u16))
}

/// Width and height, by the first four lines.
#[tactic(auto, unfolding(crate::specs::MapReading::header_at))]
fn header_of(lines: &mut Cursor) -> Result<(u16, u16), MapFault>
    ensures value { result ≡ header_at lines.old }
    ensures sizes { IfOk result (λ sizes. IsSide sizes.0 × IsSide sizes.1) }
    ensures rest { IfOk result (λ _. lines.new ≡ drop 4 lines.old) }
{
    if field(b"type", next_of(lines)).is_none() {
        return Err(MapFault::Header { line: 1 });
    }
    let Some(height) = number_field(b"height", lines) else {
        return Err(MapFault::Header { line: 2 });
    };
    let Some(width) = number_field(b"width", lines) else {
        return Err(MapFault::Header { line: 3 });
    };
    if !is_alone(b"map", lines) {
        return Err(MapFault::Header { line: 4 });
    }
    sizes_of(width, height)
}

/// Judges a line as a row of the map: its length, and then its glyphs.
#[tactic(auto, unfolding(crate::specs::MapReading::row_at))]
fn judge_row(width: u16, row: u16, line: &[u8]) -> Result<(), MapFault>
    ensures value { IsDueUnless (λ _. cells_of line.now) result
        (row_at width row line.now) MapFault.OutOfMemory }
    ensures width { OnOk result (length line.now ≡ width) }
{
    if line.len() != usize::from(width) {
        return Err(MapFault::RowLength { row });
    }
    if let Some(column) = wrong_column(line) {
        let column = column as u16;
        return Err(MapFault::Glyph { row, column });
    }
    Ok(())
}

/// Adds the line as a row, if it is one.
#[tactic(auto, unfolding(crate::specs::MapReading::row_at))]
fn put_row(cells: &mut Cells, width: u16, row: u16, line: &[u8]) -> Result<(), MapFault>
    requires width { width ≤ MAX_SIDE }
    requires count { cells.old.passable_count + width ≤ 2 ^ 24 }
    ensures value { IsDueUnless (λ _. cells_of line.now) result
        (row_at width row line.now) MapFault.OutOfMemory }
    ensures width { OnOk result (length line.now ≡ width) }
    ensures bytes { OnOk result (stored_cells cells.new.bytes.items
        ≡ stored_cells cells.old.bytes.items ++ with_padding (cells_of line.now)) }
    ensures count { OnOk result (cells.new.passable_count
        ≡ cells.old.passable_count + count_by is_ground_glyph line.now) }
{
    if line.len() != usize::from(width) {
        return Err(MapFault::RowLength { row });
    }
    let are_glyphs = cells.put_row(line)?;
    if are_glyphs {
        return Ok(());
    }
    judge_row(width, row, line)
}

/// The cells of all rows.
fn cells_of(alloc: Global, width: u16, height: u16, lines: &mut Cursor) -> Result<Cells, MapFault>
    requires width { IsSide width }
    requires height { IsSide height }
    ensures value { IsDueUnless (λ c. ((ground_of width height c.bytes.items).rows, lines.new))
        result (rows_at height width 0 lines.old) MapFault.OutOfMemory }
    ensures stored { IfOk result (λ c. IsStored width height c.passable_count c.bytes.items) }
{
    // Each byte of cells comes from bytes of the text, so sizes that the text cannot fill reserve no more than it can.
    let mut cells = Cells::with_capacity(alloc, width, height, lines.bytes_left())?;
    for row in 0..height {
        let Some(line) = lines.next_line() else {
            return Err(MapFault::RowCount);
        };
        put_row(&mut cells, width, row, line)?;
    }
    Ok(cells)
}

/// Whether the lines that are left are empty but for spaces, tabs and CRs.
fn is_ended(lines: &mut Cursor) -> bool
    ensures { result ≡ list_all (list_all is_row_space) lines.old }
{
    while let Some(line) = lines.next_line() {
        if !is_empty(line) {
            return false;
        }
    }
    true
}

/// Whether a line is empty but for spaces, tabs and CRs.
fn is_empty(line: &[u8]) -> bool
    ensures { result ≡ list_all is_row_space line.now }
{
    line.iter().all(|b| is_blank(*b) || *b == b'\r')
}

#[tactic(auto, unfolding(crate::specs::MapReading::map_at))]
fn map_of(alloc: Global, bytes: &[u8]) -> Result<Grid, MapFault>
    ensures { IsDueUnless (λ g. g) result (map_at (lines bytes.now)) MapFault.OutOfMemory }
{
    let mut lines = Cursor::new(bytes);
    let (width, height) = header_of(&mut lines)?;
    let cells = cells_of(alloc, width, height, &mut lines)?;
    if !is_ended(&mut lines) {
        return Err(MapFault::Trailing);
    }
    Ok(Grid::new(width, height, cells))
}

/// The map that a text of the MovingAI benchmark's format stands for (Sturtevant 2012). The text is read once, from the
/// front, and a refusal for another cause than memory is its first fault.
///
/// A bit is kept for each cell, and no more room is asked for than the text's bytes can fill.
pub fn read_map(alloc: Global, bytes: &[u8]) -> Result<Grid, MapFault>
    // The text stands for what is read.
    ensures found { IfOk result (λ g. IsMapText bytes.now g) }
    // What stands for a ground is read, unless memory runs out.
    ensures read { (g : Ground) → IsMapText bytes.now g → IsOkUnless result MapFault.OutOfMemory }
    // Which fault it is.
    ensures fault { IfErr result (λ f. f ≢ MapFault.OutOfMemory → IsFirstMapFault bytes.now f) }
{
    map_of(alloc, bytes)
}
