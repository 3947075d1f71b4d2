// What the steps of a repair ask of an image, by the functions of validation.
#![tactic(auto)]

ghost use Rattle.std.specs.Prelude.{◌≡◌, ◌≤◌, length};
ghost use Rattle.format.specs.Layout.Volume.{directory_sectors_of};
ghost use Rattle.format.specs.Calls.RepairSteps.{tables_hold, directory_holds, entries_hold};
ghost use Rattle.kinds.specs.Sizes.{geometry_of};
ghost use Rattle.header.specs.Sized.{ImageSized, W};
ghost use Rattle.tables.specs.Work.{Wrote};
ghost use Rattle.tables.specs.Views.{volume_of, sector_count_of};
ghost use Rattle.tables.specs.Listed.{FatListed};
ghost use Rattle.tables.specs.Stages.{TablesLeft};
ghost use Rattle.chains.specs.Answers.{length_answer};
ghost use Rattle.volume.specs.Passed.{TablesHold, SystemLeft};

use chains::{cell_rules, directory_length};
use header::header_rules;
use kinds::Geometry;
use tables::Tables;
use tables::sectors::table_rules;
use volume::entry_stage::entry_tests;
use volume::mini_stage::{System, system_tables};

// Groups 10 and 11. The FAT's sectors stand listed after them.
pub fn tables_hold(img: &[u8], work: &mut [u32], g: Geometry) -> bool
    requires image_sized { ImageSized (geometry_of g) img.now }
    requires img_in_bounds { W img.now ≤ length work.old }
    ensures answer { result ≡ tables_hold (geometry_of g) img.now }
    ensures left { TablesLeft (geometry_of g) img.now work.old work.new result }
{
    if !header_rules(img, g) {
        return false;
    }
    table_rules(img, work, g)
}

// Groups 12 and 13: how many sectors the directory has. The FAT's cells are copied to the start of the work buffer.
pub fn directory_holds(img: &[u8], work: &mut [u32], t: Tables) -> Option<usize>
    requires { FatListed t img.now work.old }
    ensures answer { result
        ≡ length_answer (directory_holds (volume_of t.geometry img.now))
        (length (directory_sectors_of (geometry_of t.geometry) img.now)) }
    ensures wrote { Wrote work.old work.new 0 (sector_count_of t img.now) }
{
    if !cell_rules(img, work, t) {
        return None;
    }
    directory_length(img, work, t)
}

// Groups 14, 15 and 16 but for the cells from K on. The system's lists stand after them, and its chains are marked.
pub fn entries_hold(img: &[u8], work: &mut [u32], g: Geometry, n: usize) -> Option<System>
    requires { TablesHold (geometry_of g) img.now work.old n }
    ensures { SystemLeft g img.now (entries_hold (volume_of g img.now)) work.old work.new result }
{
    entry_tests(img, work, g, n).ok()?;
    system_tables(img, work, g, n)
}
