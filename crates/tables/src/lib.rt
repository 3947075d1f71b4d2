// The tables of an image: the lookup of a cell, and all cells of a table by blocks. Group 11 stands in `sectors`.
#![tactic(auto)]

ghost use Rattle.std.specs.Prelude.{◌≡◌, ◌+◌, ◌-◌, ◌≤◌, ◌<◌, ◌*◌, ◌/◌, length};
ghost use Rattle.format.specs.Basics.Lists.{all_below};
ghost use Rattle.format.specs.Layout.Geometry.{sector_count, cells_in};
ghost use Rattle.kinds.specs.Sizes.{geometry_of};
ghost use Rattle.header.specs.Sized.{ImageSized, F, D};
ghost use Rattle.cells.specs.Cells.{cell_right};
ghost use Rattle.tables.specs.Words.{word_in, sector_for, table_cell, free_from, block_at};
ghost use Rattle.tables.specs.Views.{cells_of};
ghost use Rattle.tables.specs.Work.{Wrote, Holds};
ghost use Rattle.tables.specs.Listed.{FatListed, TableListed, tables_of};

use cells::{all_free, copy_cells};
use header::{difat_count, fat_count, sector_count, work_need};
use kinds::{Geometry, Numbered, Sector};
use le::{least, u32_at};

pub mod sectors;

// ---- places

// The number that stands at index i of a sector of 32-bit numbers.
pub fn word_in(img: &[u8], g: Geometry, s: Sector, i: usize) -> u32
    requires image_sized { ImageSized (geometry_of g) img.now }
    requires s_bound { s.0 < sector_count (geometry_of g) img.now }
    requires i_bound { i < cells_in (geometry_of g) }
    ensures { result ≡ word_in (geometry_of g) img.now s.0 i }
{
    u32_at(img, s.place(g) + 4 * i)
}

// Number i of a table whose sectors are listed in the work buffer from a place on.
pub fn table_word(img: &[u8], work: &[u32], g: Geometry, list: usize, i: usize) -> u32
    requires image_sized { ImageSized (geometry_of g) img.now }
    requires g_in_bounds { list + i / cells_in (geometry_of g) < length work.now }
    requires i_bound { sector_for (geometry_of g) work.now list i < sector_count (geometry_of g) img.now }
    ensures { result ≡ table_cell (geometry_of g) img.now work.now list i }
{
    let s = Sector(work[list + g.cell_sector(i)]);
    word_in(img, g, s, g.cell_index(i))
}

// ---- blocks

// Cells of a table that lie in one sector: the byte of the image where the first stands, and how many there are.
#[derive(Clone, Copy)]
pub struct Block {
    pub place: usize,
    pub cells: usize,
}

// The cells from `low` on and below `end` that lie in the sector of the first.
pub fn block_at(work: &[u32], g: Geometry, list: usize, low: usize, end: usize) -> Block
    requires le_bytes { (512 ≤ g.bytes) × (g.bytes ≤ 4096) }
    requires g_in_bounds { list + low / cells_in (geometry_of g) < length work.now }
    requires low_lt_end { low < end }
    ensures { result ≡ block_at (geometry_of g) work.now list low end }
{
    let s = Sector(work[list + g.cell_sector(low)]);
    let i = g.cell_index(low);
    Block {
        place: s.place(g) + 4 * i,
        cells: least(g.cells() - i, end - low),
    }
}

// Whether the cells of a table from `low` on and below `end` are free.
pub fn table_free(
    img: &[u8],
    work: &[u32],
    g: Geometry,
    list: usize,
    low: usize,
    end: usize,
) -> bool
    requires table_listed { TableListed (geometry_of g) img.now work.now list end }
    requires low_le_end { low ≤ end }
    ensures { result
        ≡ all_below (end - low) (free_from (table_cell (geometry_of g) img.now work.now list) low) }
{
    let n = end - low;
    let mut ok = true;
    let mut i = 0;
    // A turn takes the cells of one block.
    while i < n {
        let Block { place, cells } = block_at(work, g, list, low + i, end);
        ok &= all_free(&img[place..place + 4 * cells]);
        i += cells;
    }
    ok
}

// Copies the first cells of a table into the work buffer, from a place on and before the list of its sectors. Whether each is below the
// limit, which is how many they are, or one of the special values.
pub fn copy_table(
    img: &[u8],
    work: &mut [u32],
    g: Geometry,
    list: usize,
    limit: usize,
    at: usize,
    special: u32,
) -> bool
    requires table_listed { TableListed (geometry_of g) img.now work.old list limit }
    requires limit_bound { (at + limit ≤ list) × (list ≤ length work.old) }
    requires limit_bound_2 { limit < 0x1_0000_0000 }
    ensures answer { result
        ≡ all_below limit (cell_right limit special (table_cell (geometry_of g) img.now work.old list)) }
    ensures wrote { Wrote work.old work.new at limit }
    ensures holds { Holds work.new at limit (table_cell (geometry_of g) img.now work.old list) }
{
    let mut ok = true;
    let mut i = 0;
    // A turn takes the cells of one block.
    while i < limit {
        let Block { place, cells } = block_at(work, g, list, i, limit);
        let to = at + i;
        ok &= copy_cells(
            &mut work[to..to + cells],
            &img[place..place + 4 * cells],
            limit as u32,
            special,
        );
        i += cells;
    }
    ok
}

// ---- cells

// The sizes, how many sectors there are, and where in the work buffer the FAT's sectors are listed.
#[derive(Clone, Copy)]
pub struct Tables {
    pub geometry: Geometry,
    pub sectors: usize,
    pub list: usize,
}

// The cell of a sector.
pub fn cell_at(img: &[u8], work: &[u32], t: Tables, s: Sector) -> Sector
    requires fat_listed { FatListed t img.now work.now }
    requires s_bound { s.0 < cells_in (geometry_of t.geometry) * F img.now }
    ensures { result.0 ≡ cells_of t img.now s.0 }
{
    let g = t.geometry;
    Sector(table_word(img, work, g, t.list, s.index()))
}

// The tables of an image whose group 11 holds.
pub fn tables_of(img: &[u8], g: Geometry) -> Tables
    requires image_sized { ImageSized (geometry_of g) img.now }
    requires img_bound { F img.now + D img.now ≤ sector_count (geometry_of g) img.now }
    ensures { result ≡ tables_of g img.now }
{
    let f = fat_count(img) as usize;
    let d = difat_count(img) as usize;
    Tables {
        geometry: g,
        sectors: sector_count(img, g),
        list: work_need(img.len()) - (f + d),
    }
}
