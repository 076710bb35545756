//! What it means that a text stands for a ground, or that a fault is its first.

ghost use Rattle.std.specs.Prelude.{◌≡◌, ℕ, ◌+◌, ◌<◌, ◌≤◌, ◌⊎◌, ◌&&◌, not, List, get_or, false};
ghost use Rattle.std.specs.List.{list_any};
ghost use Rattle.fleet_model.specs.declared.geometry.Cell.{Cell};
ghost use Rattle.fleet_model.specs.Geometry.{is_same_cell, place_of};
ghost use Rattle.fleet_text.specs.Text.{lines};
ghost use Rattle.fleet_text.specs.Verdict.{HasOneVerdict};
ghost use Rattle.fleet_grid.specs.Ground.{Ground, IsGround, is_ground_at, is_passable, cell_index};
ghost use Rattle.fleet_grid.specs.MapText.{line_at, is_ground_glyph, IsMapText, IsFirstMapFault};
ghost use Rattle.fleet_grid.specs.MapWriting.{ground_without, map_text};

/// A text stands for one ground at most. Its passable cells are the columns and rows of the passable glyphs, and
/// nothing else is.
pub fn a_map_text_is_one_ground()
    ensures one { (text : List ℕ) (g h : Ground) → IsMapText text g → IsMapText text h → g ≡ h }
    ensures sizes { (text : List ℕ) (g : Ground) → IsMapText text g → IsGround g }
    ensures cells { (text : List ℕ) (g : Ground) (x y : ℕ)
        → IsMapText text g → x < g.width → y < g.height
        → is_ground_at g x y ≡ is_ground_glyph (get_or (line_at (lines text) (4 + y)) x 0) }
    ensures elsewhere { (text : List ℕ) (g : Ground) (x y : ℕ) → IsMapText text g
        → (g.width ≤ x) ⊎ (g.height ≤ y) → is_ground_at g x y ≡ false }
{}

/// A text either stands for a ground or has a first fault, never both, and it has one first fault at most.
pub fn a_text_is_a_map_or_has_a_first_fault()
    ensures { (text : List ℕ) → HasOneVerdict (IsMapText text) (IsFirstMapFault text) }
{}

/// No two cells of a map stand in one place of a table.
pub fn cells_have_places_of_their_own()
    ensures { (g : Ground) (c d : Cell) → c.x < g.width → d.x < g.width
        → cell_index g c ≡ cell_index g d → c ≡ d }
{}

/// The written form of a map stands for its ground. Without some cells a ground is one of the same sizes, whose
/// passable cells are the others that were.
pub fn a_written_map_is_read()
    ensures read { (g : Ground) → IsGround g → IsMapText (map_text g) g }
    ensures sizes { (g : Ground) (cells : List Cell) → IsGround g → IsGround (ground_without g cells) }
    ensures cells { (g : Ground) (cells : List Cell) (c : Cell) → IsGround g
        → is_passable (ground_without g cells) (place_of c)
        ≡ (is_passable g (place_of c) && not (list_any (is_same_cell c) cells)) }
{}
