// The mini FAT: its cells by number, and the rules on its cells (of group 16). Its sectors stand listed in the work buffer.
#![tactic(auto)]

ghost use Rattle.std.specs.Prelude.{◌≡◌, ◌+◌, ◌≤◌, ◌<◌, ◌*◌};
ghost use Rattle.format.specs.Layout.Geometry.{cells_in};
ghost use Rattle.format.specs.Layout.Header.{mini_fat_count};
ghost use Rattle.format.specs.Rules.Cells.{rest_free};
ghost use Rattle.kinds.specs.Sizes.{geometry_of};
ghost use Rattle.tables.specs.Work.{Wrote};
ghost use Rattle.tables.specs.Listed.{FatListed};
ghost use Rattle.minis.specs.Listed.{MiniListed, MiniCounts, MinisCopied, minis_at, minis_of};

use chains::list_chain;
use header::{mini_fat_count, mini_fat_start};
use kinds::{Geometry, MiniSector, Numbered};
use tables::{Tables, copy_table, table_free, table_word};

// ---- cells

// The sizes, how many mini sectors there are, how many sectors the mini FAT has, and where in the work buffer they are listed.
#[derive(Clone, Copy)]
pub struct Minis {
    pub geometry: Geometry,
    pub units: usize,
    pub sectors: usize,
    pub list: usize,
}

// The cell of a mini sector.
pub fn mini_cell(img: &[u8], work: &[u32], t: Minis, m: MiniSector) -> MiniSector
    requires mini_listed { MiniListed t img.now work.now }
    requires m_bound { m.0 < cells_in (geometry_of t.geometry) * t.sectors }
    ensures { result.0 ≡ (minis_of t img.now).cell m.0 }
{
    MiniSector(table_word(img, work, t.geometry, t.list, m.index()))
}

// Lists the mini FAT's sectors in the work buffer from a place on.
pub fn list_minis(img: &[u8], work: &mut [u32], t: Tables, units: usize, at: usize) -> Minis
    requires fat_listed { FatListed t img.now work.old }
    requires mini_counts { MiniCounts (geometry_of t.geometry) img.now units }
    requires units_le_at { units ≤ at }
    requires img_bound { at + mini_fat_count img.now ≤ t.list }
    ensures answer { result ≡ minis_at t img.now units at }
    ensures listed { MiniListed result img.now work.new }
    ensures wrote { Wrote work.old work.new at (mini_fat_count img.now) }
{
    let sectors = mini_fat_count(img) as usize;
    list_chain(img, work, t, mini_fat_start(img), sectors, at);
    Minis {
        geometry: t.geometry,
        units,
        sectors,
        list: at,
    }
}

// ---- the rules on cells

// The cells below the number of mini sectors. Copies them into the work buffer from a place on, where chains can be marked then.
pub fn copy_minis(img: &[u8], work: &mut [u32], t: Minis, at: usize) -> bool
    requires mini_listed { MiniListed t img.now work.old }
    requires units_bound { at + t.units ≤ t.list }
    ensures { MinisCopied t img.now at work.old work.new result }
{
    let g = t.geometry;
    copy_table(img, work, g, t.list, t.units, at, MiniSector::END.0)
}

// The cells from the number of mini sectors on.
pub fn cells_rest(img: &[u8], work: &[u32], t: Minis) -> bool
    requires { MiniListed t img.now work.now }
    ensures { result ≡ rest_free (minis_of t img.now) }
{
    let g = t.geometry;
    table_free(img, work, g, t.list, t.units, g.cells() * t.sectors)
}
