// The steps of a repair, on the image that is lent: each asks, writes and hands on to the next; the first that cannot be taken ends them.
#![tactic(auto)]

ghost use Rattle.std.specs.Prelude.{◌≡◌, ◌≤◌, length};
ghost use Rattle.format.specs.Rules.Length.{work_need};
ghost use Rattle.format.specs.Calls.RepairSteps.{third_step, second_step, repaired};
ghost use Rattle.kinds.specs.Sizes.{geometry_of};
ghost use Rattle.header.specs.Sized.{ImageSized, W};
ghost use Rattle.tables.specs.Work.{Wrote};
ghost use Rattle.repair_steps.specs.Passed.{TablesPassed, DirectoryPassed};

use header::fat_count;
use kinds::Geometry;
use minis::cells_rest;
use repair_asks::{directory_holds, entries_hold, tables_hold};
use repair_owners::{free_marked, free_owners};
use repair_writes::{blacken_entries, free_rest};
use tables::tables_of;
use volume::entry_stage::open_directory;

// Steps 3 and 4.
fn repair_entries(img: &mut [u8], work: &mut [u32], g: Geometry, n: usize)
    requires { DirectoryPassed (geometry_of g) img.old work.old n }
    ensures image { img.new ≡ third_step (geometry_of g) img.old }
    ensures wrote { Wrote work.old work.new 0 (work_need (length img.old)) }
{
    let Some(s) = entries_hold(img, work, g, n) else {
        return;
    };
    let m = s.minis;
    // Where the third step has nothing to write, groups 10 to 16 hold already.
    let idle = cells_rest(img, work, m);
    if idle {
        free_marked(img, work, s);
        return;
    }
    let cells = g.cells() * m.sectors;
    free_rest(img, work, g, m.list, m.units, cells);
    free_owners(img, work, g);
}

// Steps 2 to 4.
fn repair_directory(img: &mut [u8], work: &mut [u32], g: Geometry)
    requires { TablesPassed (geometry_of g) img.old work.old }
    ensures image { img.new ≡ second_step (geometry_of g) img.old }
    ensures wrote { Wrote work.old work.new 0 (work_need (length img.old)) }
{
    let t = tables_of(img, g);
    let Some(n) = directory_holds(img, work, t) else {
        return;
    };
    let d = open_directory(img, work, g, n);
    blacken_entries(img, work, d);
    repair_entries(img, work, g, n);
}

// All four steps: what is left is the outcome, which nobody has judged.
pub fn outcome(img: &mut [u8], work: &mut [u32], g: Geometry)
    requires image_sized { ImageSized (geometry_of g) img.old }
    requires img_in_bounds { W img.old ≤ length work.old }
    ensures image { img.new ≡ repaired (geometry_of g) img.old }
    ensures wrote { Wrote work.old work.new 0 (work_need (length img.old)) }
{
    if !tables_hold(img, work, g) {
        return;
    }
    let t = tables_of(img, g);
    let cells = g.cells() * (fat_count(img) as usize);
    free_rest(img, work, g, t.list, t.sectors, cells);
    repair_directory(img, work, g);
}
