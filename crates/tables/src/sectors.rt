// Group 11: the sectors of the FAT and of the DIFAT.
ghost use Rattle.std.specs.Prelude.{◌≡◌, ◌+◌, ◌≤◌, ◌<◌, ◌*◌, length};
ghost use Rattle.format.specs.Layout.Geometry.{difat_in, header_difat};
ghost use Rattle.format.specs.Layout.Tables.{difat_entry};
ghost use Rattle.format.specs.Rules.Tables.{difat_need, table_counts, difat_rest, table_marks, table_rules};
ghost use Rattle.kinds.specs.Sizes.{geometry_of};
ghost use Rattle.header.specs.Sized.{ImageSized, F, D, W};
ghost use Rattle.tables.specs.Work.{Wrote, Holds};
ghost use Rattle.tables.specs.Listed.{FatListed};
ghost use Rattle.tables.specs.Stages.{DifatArgs, DifatListed, Difats, ListArgs, ListLeft, TableMarked, TablesLeft};
ghost use Rattle.tables.specs.Stages.{StageArgs, Built, ListsLeft, MarksLeft};

use super::{Block, Tables, block_at, word_in};
use cells::marks_agree;
use header::{
    DIFAT_ENTRIES, difat_count, difat_in_header, difat_start, fat_count, sector_count, work_need,
};
use kinds::{ChainUnit, Geometry, Numbered, Sector};
use le::zero_first;

// ---- counts

pub fn table_counts(img: &[u8], g: Geometry) -> bool
    requires { ImageSized (geometry_of g) img.now }
    ensures { result ≡ table_counts (geometry_of g) img.now }
{
    let f = fat_count(img) as usize;
    let d = difat_count(img) as usize;
    let n = sector_count(img, g);
    (1 <= f) & (n <= g.cells() * f) & (d == difat_need(g, f))
}

// The DIFAT sectors that f FAT sectors need.
pub fn difat_need(g: Geometry, f: usize) -> usize
    requires { (512 ≤ g.bytes) × (g.bytes ≤ 4096) × (f < 0x1_0000_0000) }
    ensures { result ≡ difat_need (geometry_of g) f }
{
    f.saturating_sub(DIFAT_ENTRIES).div_ceil(g.difat())
}

// ---- the DIFAT's sectors and entries

// Lists the d DIFAT sectors, as long as each is below n; says whether all are and the last names the end.
pub fn list_difats(img: &[u8], work: &mut [u32], g: Geometry, n: usize, at: usize, d: usize) -> bool
    requires { DifatArgs (geometry_of g) img.now work.old n at d }
    ensures { DifatListed (geometry_of g) img.now work.old work.new at result }
{
    let link = g.difat();
    let mut s = difat_start(img);
    for j in 0..d {
        if !s.below(n) {
            return false;
        }
        work[at + j] = s.0;
        s = Sector(word_in(img, g, s, link));
    }
    s.is_end()
}

// Entry i of the DIFAT, whose sectors are listed from a place on.
pub fn difat_entry(img: &[u8], work: &[u32], g: Geometry, at: usize, i: usize) -> Sector
    requires difats { Difats (geometry_of g) img.now work.now at }
    requires i_bound { i < header_difat + difat_in (geometry_of g) * D img.now }
    ensures { result.0 ≡ difat_entry (geometry_of g) img.now i }
{
    if i < DIFAT_ENTRIES {
        return difat_in_header(img, g, i);
    }
    let per = g.difat();
    let j = i - DIFAT_ENTRIES;
    Sector(word_in(img, g, Sector(work[at + j / per]), j % per))
}

// Lists the f FAT sectors, in front of the DIFAT sectors.
pub fn list_fats(img: &[u8], work: &mut [u32], g: Geometry, at: usize, f: usize)
    requires difats { Difats (geometry_of g) img.now work.old (at + F img.now) }
    requires f_value { f ≡ F img.now }
    ensures wrote { Wrote work.old work.new at (F img.now) }
    ensures holds { Holds work.new at (F img.now) (difat_entry (geometry_of g) img.now) }
{
    for k in 0..f {
        work[at + k] = difat_entry(img, work, g, at + f, k).0;
    }
}

// The DIFAT's entries from f on are free.
pub fn difat_rest(img: &[u8], work: &[u32], g: Geometry, at: usize, f: usize, d: usize) -> bool
    requires difats { Difats (geometry_of g) img.now work.now at }
    requires f_value { (f ≡ F img.now) × (d ≡ D img.now) }
    ensures { result ≡ difat_rest (geometry_of g) img.now }
{
    let end = DIFAT_ENTRIES + g.difat() * d - f;
    (0..end).all(|i| difat_entry(img, work, g, at, f + i).is_free())
}

// ---- marks

// Marks the sectors of a list, as long as each is below n and has no mark; says whether all were so.
pub fn mark_list(work: &mut [u32], n: usize, at: usize, count: usize, v: u32) -> bool
    requires { ListArgs work.old n at count v }
    ensures { ListLeft work.old work.new n at count v result }
{
    for k in 0..count {
        let s = Sector(work[at + k]);
        if !s.below(n) || 0 < work[s.index()] {
            return false;
        }
        work[s.index()] = v;
    }
    true
}

// The cells that mark table sectors are those of the marked sectors.
pub fn table_marks(img: &[u8], work: &[u32], t: Tables) -> bool
    requires fat_listed { FatListed t img.now work.now }
    requires table_marked { TableMarked (geometry_of t.geometry) img.now work.now }
    ensures { result ≡ table_marks (geometry_of t.geometry) img.now }
{
    let g = t.geometry;
    let n = t.sectors;
    let mut ok = true;
    let mut i = 0;
    // A turn takes the cells of one block.
    while i < n {
        let Block { place, cells } = block_at(work, g, t.list, i, n);
        ok &= marks_agree(&img[place..place + 4 * cells], &work[i..i + cells]);
        i += cells;
    }
    ok
}

// ---- the whole

// Lists the FAT's and the DIFAT's sectors; says whether the DIFAT's are below n, end, and have no entry past the FAT's.
pub fn list_tables(
    img: &[u8],
    work: &mut [u32],
    g: Geometry,
    n: usize,
    f: usize,
    d: usize,
    list: usize,
) -> bool
    requires { StageArgs (geometry_of g) img.now work.old n f d list }
    ensures { ListsLeft (geometry_of g) img.now work.old work.new list result }
{
    if !list_difats(img, work, g, n, list + f, d) {
        return false;
    }
    list_fats(img, work, g, list, f);
    difat_rest(img, work, g, list + f, f, d)
}

// Takes away what marks there are, marks the listed sectors, and compares their cells.
pub fn mark_tables(
    img: &[u8],
    work: &mut [u32],
    g: Geometry,
    n: usize,
    f: usize,
    d: usize,
    list: usize,
) -> bool
    requires stage_args { StageArgs (geometry_of g) img.now work.old n f d list }
    requires built { Built (geometry_of g) img.now work.old list }
    ensures { MarksLeft (geometry_of g) img.now work.old work.new list result }
{
    zero_first(work, n);
    let t = Tables {
        geometry: g,
        sectors: n,
        list,
    };
    mark_list(work, n, list, f, 1)
        && mark_list(work, n, list + f, d, 2)
        && table_marks(img, work, t)
}

// Group 11. Where it holds, the FAT's sectors stand listed in the work buffer.
pub fn table_rules(img: &[u8], work: &mut [u32], g: Geometry) -> bool
    requires image_sized { ImageSized (geometry_of g) img.now }
    requires img_in_bounds { W img.now ≤ length work.old }
    ensures answer { result ≡ table_rules (geometry_of g) img.now }
    ensures left { TablesLeft (geometry_of g) img.now work.old work.new result }
{
    let need = work_need(img.len());
    let n = sector_count(img, g);
    let f = fat_count(img) as usize;
    let d = difat_count(img) as usize;
    if !table_counts(img, g) || n < f + d {
        return false;
    }
    let list = need - (f + d);
    list_tables(img, work, g, n, f, d, list) && mark_tables(img, work, g, n, f, d, list)
}
