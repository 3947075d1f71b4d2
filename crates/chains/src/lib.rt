// Walks along the FAT: the walk that marks a chain, group 12, and group 13.
#![tactic(auto)]

ghost use Rattle.std.specs.Prelude.{◌≡◌, true, ◌&&◌, ◌+◌, ◌≤◌, ◌<◌, leb, eqb, length};
ghost use Rattle.format.specs.Basics.Lists.{all_below};
ghost use Rattle.format.specs.Layout.Need.{round_up};
ghost use Rattle.format.specs.Layout.Chain.{END, chain, units};
ghost use Rattle.format.specs.Layout.Volume.{directory_sectors_of};
ghost use Rattle.format.specs.Rules.Cells.{fat_cell_right, rest_free, cell_rules};
ghost use Rattle.format.specs.Rules.Directory.{directory_rules};
ghost use Rattle.kinds.specs.Sizes.{geometry_of};
ghost use Rattle.tables.specs.Work.{Wrote, Holds};
ghost use Rattle.tables.specs.Views.{volume_of, sector_count_of, cells_of, sectors_of};
ghost use Rattle.tables.specs.Listed.{FatListed};
ghost use Rattle.theory.specs.Marks.{is_mark};
ghost use Rattle.chains.specs.Answers.{UnitsWalked, unit_at, length_answer};

use header::{count_right, directory_start, fat_count};
use kinds::{ChainUnit, Geometry, Numbered, Sector};
use tables::{Tables, cell_at, copy_table, table_free};

// ---- marking a chain

// Whether a number is a mark, and not a cell.
pub fn is_mark(v: u32) -> bool
    ensures { result ≡ is_mark v }
{
    (0x8000_0000 < v) & (v < 0xFFFF_FFFC)
}

// Marks the n units of a chain of either kind, each in the place of its cell with how many are left from there. The numbers of the units, `limit`
// of them, stand from `at` on. Says whether one of the units had a mark already, from another chain; nothing where there is no such chain.
// A chain of more units than there are is broken without a walk.
pub fn mark_chain(work: &mut [u32], at: usize, limit: usize, start: u32, n: u64) -> Option<bool>
    requires { (at + limit ≤ length work.old) × (limit < 0x1000_0000) }
    ensures { UnitsWalked at limit n start work.old work.new result }
{
    if (limit as u64) < n {
        return None;
    }
    let mut s = start;
    for k in (1..=n as u32).rev() {
        let u = s as usize;
        if limit <= u {
            return None;
        }
        let v = work[at + u];
        if is_mark(v) {
            return (v == 0x8000_0000 + k).then_some(true);
        }
        work[at + u] = 0x8000_0000 + k;
        s = v;
    }
    (s == Sector::END.0).then_some(false)
}

// How many units hold so many bytes.
pub fn units_for(size: u64, unit: u64) -> u64
    requires { 1 < unit }
    ensures { result ≡ round_up size unit }
{
    size.div_ceil(unit)
}

// How many sectors hold so many bytes. Each version's size stands here as a constant, so that nothing is divided by a number that the compiler does
// not know.
pub fn sectors_for(size: u64, g: Geometry) -> u64
    requires { 1 < g.bytes }
    ensures { result ≡ round_up size g.bytes }
{
    if g.bytes == Geometry::V3.bytes {
        return units_for(size, 512);
    }
    if g.bytes == Geometry::V4.bytes {
        return units_for(size, 4096);
    }
    units_for(size, g.bytes as u64)
}

// ---- listing a chain

// Writes the n sectors of a chain into the work buffer from a place on.
pub fn list_chain(img: &[u8], work: &mut [u32], t: Tables, start: Sector, n: usize, at: usize)
    requires fat_listed { FatListed t img.now work.old }
    requires start_value { chain (cells_of t img.now) (sector_count_of t img.now) n start.0 ≡ true }
    requires n_bound { at + n ≤ t.list }
    ensures wrote { Wrote work.old work.new at n }
    ensures holds { Holds work.new at n (unit_at (units (cells_of t img.now) n start.0)) }
{
    let mut s = start;
    for i in 0..n {
        work[at + i] = s.0;
        s = cell_at(img, work, t, s);
    }
}

// ---- group 12

// The cells below the number of sectors. Copies them to the start of the work buffer, where chains are walked along and marked then.
pub fn copy_fat(img: &[u8], work: &mut [u32], t: Tables) -> bool
    requires { FatListed t img.now work.old }
    ensures answer { result ≡ all_below (sector_count_of t img.now) (fat_cell_right (sectors_of t img.now)) }
    ensures holds { Holds work.new 0 (sector_count_of t img.now) (cells_of t img.now) }
    ensures wrote { Wrote work.old work.new 0 (sector_count_of t img.now) }
{
    let g = t.geometry;
    copy_table(img, work, g, t.list, t.sectors, 0, Sector::DIFSECT.0)
}

// The cells from the number of sectors on.
pub fn cells_rest(img: &[u8], work: &[u32], t: Tables) -> bool
    requires { FatListed t img.now work.now }
    ensures { result ≡ rest_free (sectors_of t img.now) }
{
    let g = t.geometry;
    let f = fat_count(img) as usize;
    table_free(img, work, g, t.list, t.sectors, g.cells() * f)
}

// Group 12. The cells below the number of sectors stand at the start of the work buffer after it.
pub fn cell_rules(img: &[u8], work: &mut [u32], t: Tables) -> bool
    requires { FatListed t img.now work.old }
    ensures answer { result ≡ cell_rules (sectors_of t img.now) }
    ensures holds { Holds work.new 0 (sector_count_of t img.now) (cells_of t img.now) }
    ensures wrote { Wrote work.old work.new 0 (sector_count_of t img.now) }
{
    let below = copy_fat(img, work, t);
    below & cells_rest(img, work, t)
}

// ---- group 13

// The length of a chain of k sectors, by what comes after them, if it is right.
fn length_of(k: usize, next: Sector, right: bool) -> Option<usize>
    ensures { result ≡ length_answer ((leb 1 k && eqb next.0 END) && right) k }
{
    (((1 <= k) & next.is_end()) & right).then_some(k)
}

// Group 13: how many sectors the directory has. The cells stand at the start of the work buffer.
pub fn directory_length(img: &[u8], work: &[u32], t: Tables) -> Option<usize>
    requires fat_listed { FatListed t img.now work.now }
    requires holds { Holds work.now 0 (sector_count_of t img.now) (cells_of t img.now) }
    ensures { result
        ≡ length_answer (directory_rules (volume_of t.geometry img.now))
        (length (directory_sectors_of (geometry_of t.geometry) img.now)) }
{
    let g = t.geometry;
    let n = t.sectors;
    let mut s = directory_start(img);
    for k in 0..n {
        if !s.below(n) {
            return length_of(k, s, count_right(img, g, k));
        }
        s = Sector(work[s.index()]);
    }
    length_of(n, s, count_right(img, g, n))
}
