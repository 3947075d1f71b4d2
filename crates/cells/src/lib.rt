// The cells of a part of a table, by blocks. Loops keep one bool and return at their end, so that the compiler works on many cells at once.
#![tactic(auto)]

ghost use Rattle.std.specs.Prelude.{◌≡◌, ◌*◌, ◌/◌, ◌≤◌, length};
ghost use Rattle.format.specs.Basics.Lists.{all_below, list_below};
ghost use Rattle.format.specs.Layout.Chain.{is_free};
ghost use Rattle.theory.specs.Marks.{marks};
ghost use Rattle.cells.specs.Cells.{cell_of, cell_right, mark_agrees, covered_at};

use kinds::Sector;
use le::u32_at;

// Copies the cells of a part of a table; whether each is below the limit or one of the special values from `special` on.
pub fn copy_cells(to: &mut [u32], from: &[u8], limit: u32, special: u32) -> bool
    requires { 4 * length to.old ≤ length from.now }
    ensures answer { result ≡ all_below (length to.old) (cell_right limit special (cell_of from.now)) }
    ensures copied { to.new ≡ list_below (length to.old) (cell_of from.now) }
{
    let mut ok = true;
    for (i, cell) in to.iter_mut().enumerate() {
        let v = u32_at(from, 4 * i);
        *cell = v;
        ok &= (v < limit) | (special <= v);
    }
    ok
}

// Whether each cell is free.
pub fn all_free(from: &[u8]) -> bool
    ensures { result ≡ all_below (length from.now / 4) (is_free (cell_of from.now)) }
{
    let mut ok = true;
    for i in 0..from.len() / 4 {
        ok &= u32_at(from, 4 * i) == Sector::FREE.0;
    }
    ok
}

// Whether the cells that mark table sectors are those of the sectors with marks: 1 for a FAT sector, 2 for a DIFAT sector.
pub fn marks_agree(from: &[u8], marked: &[u32]) -> bool
    requires { 4 * length marked.now ≤ length from.now }
    ensures { result ≡ all_below (length marked.now) (mark_agrees (cell_of from.now) (marks marked.now)) }
{
    let mut ok = true;
    for (i, mark) in marked.iter().enumerate() {
        let v = u32_at(from, 4 * i);
        ok &= ((v == Sector::FATSECT.0) == (*mark == 1))
            & ((v == Sector::DIFSECT.0) == (*mark == 2));
    }
    ok
}

// Whether each number is a mark in the place of a cell, or a special value other than the end of a chain.
pub fn all_covered(next: &[u32]) -> bool
    ensures { result ≡ all_below (length next.now) (covered_at next.now) }
{
    next.iter().fold(
        true,
        |ok, v| ok & ((0x8000_0000 <= *v) & (*v != Sector::END.0)),
    )
}
