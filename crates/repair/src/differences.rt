// How many cells and colour bytes differ between two images. The lists of an opened volume say where these stand in both.
ghost use Rattle.std.specs.Prelude.{◌≡◌, length};
ghost use Rattle.format.specs.Basics.Lists.{pick_below};
ghost use Rattle.format.specs.Calls.Repair.{cell_differs, colour_differs, differences};
ghost use Rattle.kinds.specs.Sizes.{geometry_of};
ghost use Rattle.tables.specs.Views.{volume_of};
ghost use Rattle.directory.specs.Listed.{entries_of, DirectoryListed};
ghost use Rattle.volume.specs.Opened.{Readied};
ghost use Rattle.spaces.specs.Spaces.{volume_in};
ghost use Rattle.repair_writes.specs.Cells.{table_in, TableRoom};

use directory::{Directory, place};
use entries::colour;
use header::fat_count;
use kinds::{EntryId, Geometry, Numbered};
use le::u32_at;
use spaces::listed_place;
use volume::Volume;

// How many of the first n cells of a table differ. The table's sectors stand listed in the work buffer.
fn cells_differ(img: &[u8], after: &[u8], work: &[u32], g: Geometry, list: usize, n: usize) -> u64
    requires table_room { TableRoom (geometry_of g) work.now list (length after.now) n }
    requires img_len { length img.now ≡ length after.now }
    ensures { result
        ≡ length (pick_below n (cell_differs (table_in (geometry_of g) work.now list n n) img.now after.now)) }
{
    let mut count: u64 = 0;
    for u in 0..n {
        let p = listed_place(work, g, list, 4 * u);
        if u32_at(img, p) != u32_at(after, p) {
            count += 1;
        }
    }
    count
}

// How many entries differ in their colour.
fn colours_differ(img: &[u8], after: &[u8], work: &[u32], d: Directory) -> u64
    requires directory_listed { DirectoryListed d after.now work.now }
    requires img_len { length img.now ≡ length after.now }
    ensures { result ≡ length (pick_below (entries_of d after.now).count
        (colour_differs (volume_of d.geometry after.now) img.now after.now)) }
{
    let n = d.count();
    let mut count: u64 = 0;
    for x in EntryId::ROOT.until(n) {
        let p = place(work, d, x);
        if colour(img, p) != colour(after, p) {
            count += 1;
        }
    }
    count
}

// How many cells and colours differ between an image and another of its length, on which a volume is opened.
pub fn count_differences(img: &[u8], after: &[u8], work: &[u32], v: Volume) -> u64
    requires readied { Readied v after.now work.now }
    requires img_len { length img.now ≡ length after.now }
    ensures { result ≡ differences (volume_in v after.now) img.now after.now }
{
    let g = v.tables.geometry;
    let cells = g.cells();
    let fat = cells * (fat_count(after) as usize);
    let sectors = cells_differ(img, after, work, g, v.tables.list, fat);
    let minis = cells_differ(img, after, work, g, v.minis.list, cells * v.minis.sectors);
    sectors + minis + colours_differ(img, after, work, v.directory)
}
