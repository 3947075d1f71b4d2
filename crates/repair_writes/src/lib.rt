// The writes of a repair: cells of a table whose sectors stand listed in the work buffer become free, and entries become black. Nothing is
// judged here, and nothing is read of the image but what is about to be written.
#![tactic(auto)]

ghost use Rattle.std.specs.Prelude.{◌≡◌, true, ◌+◌, ◌≤◌, ◌<◌, length};
ghost use Rattle.format.specs.Basics.Lists.{pick_below};
ghost use Rattle.format.specs.Basics.Bytes.{put32};
ghost use Rattle.format.specs.Layout.Chain.{FREE};
ghost use Rattle.format.specs.Rules.Directory.{directory_rules};
ghost use Rattle.format.specs.Calls.SetLength.{release};
ghost use Rattle.format.specs.Calls.RepairSteps.{rest_freed, has_colour, blackened};
ghost use Rattle.kinds.specs.Sizes.{geometry_of};
ghost use Rattle.entries.specs.Entry.{entry_at};
ghost use Rattle.tables.specs.Views.{volume_of};
ghost use Rattle.directory.specs.Listed.{DirectoryListed};
ghost use Rattle.repair_writes.specs.Cells.{cell_byte, table_in, CellRoom, TableRoom, CellsApart, may_free};

use chains::is_mark;
use directory::{Directory, place};
use entries::entry_type;
use entry_writes::put_black;
use kinds::{EntryId, Geometry, Numbered, Sector};
use le::{put_u32, u32_at};
use spaces::listed_place;

// ---- cells

// Cell u becomes free.
fn free_cell(img: &mut [u8], work: &[u32], g: Geometry, list: usize, u: usize)
    requires { CellRoom (geometry_of g) work.now list (length img.old) u }
    ensures { img.new ≡ put32 img.old (cell_byte (geometry_of g) work.now list u) FREE }
{
    let p = listed_place(work, g, list, 4 * u);
    put_u32(img, p, Sector::FREE.0);
}

// Whether cell u may become free: its unit has no mark, and it is not the cell of a table sector.
fn may_free(img: &[u8], work: &[u32], g: Geometry, list: usize, at: usize, u: usize) -> bool
    requires cell_room { CellRoom (geometry_of g) work.now list (length img.now) u }
    requires u_in_bounds { at + u < length work.now }
    ensures { result ≡ may_free (geometry_of g) work.now list at img.now u }
{
    let c = Sector(u32_at(img, listed_place(work, g, list, 4 * u)));
    !is_mark(work[at + u]) & !(c.is_fat() | c.is_difat())
}

// The cells from number `from` to before number `to` become free.
pub fn free_rest(img: &mut [u8], work: &[u32], g: Geometry, list: usize, from: usize, to: usize)
    requires table_room { TableRoom (geometry_of g) work.now list (length img.old) to }
    requires from_le_to { from ≤ to }
    ensures { img.new ≡ rest_freed (table_in (geometry_of g) work.now list from to) img.old }
{
    for u in from..to {
        free_cell(img, work, g, list, u);
    }
}

// Of the first n cells, those of units with no mark become free, but not those of table sectors. The units' numbers stand in the work
// buffer from `at` on.
pub fn free_unowned(img: &mut [u8], work: &[u32], g: Geometry, list: usize, n: usize, at: usize)
    requires table_room { TableRoom (geometry_of g) work.now list (length img.old) n }
    requires cells_apart { CellsApart (geometry_of g) work.now list n }
    requires n_in_bounds { at + n ≤ length work.now }
    ensures { img.new
        ≡ release (table_in (geometry_of g) work.now list n n)
        (pick_below n (may_free (geometry_of g) work.now list at img.old)) img.old }
{
    for u in 0..n {
        if may_free(img, work, g, list, at, u) {
            free_cell(img, work, g, list, u);
        }
    }
}

// ---- entries

// Whether the entry at a byte place has a colour: types 1, 2 and 5.
fn has_colour(img: &[u8], p: usize) -> bool
    requires { p + 128 ≤ length img.now }
    ensures { result ≡ has_colour (entry_at img.now p) }
{
    let t = entry_type(img, p);
    t.is_storage() | t.is_stream() | t.is_root()
}

// Every entry that has a colour becomes black.
pub fn blacken_entries(img: &mut [u8], work: &[u32], d: Directory)
    requires directory_listed { DirectoryListed d img.old work.now }
    requires img_value { directory_rules (volume_of d.geometry img.old) ≡ true }
    ensures { img.new ≡ blackened (volume_of d.geometry img.old) img.old }
{
    let n = d.count();
    for x in EntryId::ROOT.until(n) {
        let p = place(work, d, x);
        if has_colour(img, p) {
            put_black(img, p);
        }
    }
}
