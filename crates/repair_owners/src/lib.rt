// The fourth step of a repair: where groups 10 to 17 hold, the cells of units that nobody owns become free. All chains are marked before a
// byte is written.
#![tactic(auto)]

ghost use Rattle.std.specs.Prelude.{◌≡◌, true, ◌≤◌, length};
ghost use Rattle.format.specs.Basics.Lists.{all_below};
ghost use Rattle.format.specs.Rules.Length.{work_need};
ghost use Rattle.format.specs.Rules.Mini.{mini_cell_right};
ghost use Rattle.format.specs.Calls.RepairSteps.{unowned_freed, fourth_step};
ghost use Rattle.kinds.specs.Sizes.{geometry_of};
ghost use Rattle.header.specs.Sized.{ImageSized, W};
ghost use Rattle.tables.specs.Work.{Wrote};
ghost use Rattle.tables.specs.Views.{volume_of};
ghost use Rattle.minis.specs.Listed.{minis_of};
ghost use Rattle.volume.specs.Passed.{SystemMarked, SystemLeft};
ghost use Rattle.repair_owners.specs.Streams.{system_holds, StreamsMarked, StreamsLeft, streams_freed};

use kinds::Geometry;
use minis::cells_rest;
use repair_asks::{directory_holds, entries_hold, tables_hold};
use repair_writes::free_unowned;
use tables::tables_of;
use volume::mini_stage::System;

// ---- marks

// Group 17. Where it holds, the chains of all streams are marked beside those of the system.
fn mark_streams(img: &[u8], work: &mut [u32], s: System) -> bool
    requires { SystemMarked s.tables s.directory s.minis img.now work.old s.shared }
    ensures { StreamsLeft s img.now work.old work.new result }
{
    owners::mark_streams(img, work, s.tables, s.minis, s.directory).is_some()
}

// ---- what is asked

// Groups 10 to 16 but for the mini FAT's cells from K on.
fn system_holds(img: &[u8], work: &mut [u32], g: Geometry) -> Option<System>
    requires image_sized { ImageSized (geometry_of g) img.now }
    requires img_in_bounds { W img.now ≤ length work.old }
    ensures { SystemLeft g img.now (system_holds (geometry_of g) img.now) work.old work.new result }
{
    if !tables_hold(img, work, g) {
        return None;
    }
    let t = tables_of(img, g);
    let n = directory_holds(img, work, t)?;
    entries_hold(img, work, g, n)
}

// ---- what is written

// The cells of units without a mark become free, in the FAT and in the mini FAT.
fn free_cells(img: &mut [u8], work: &[u32], s: System)
    requires streams_marked { StreamsMarked s img.old work.now }
    requires img_value { all_below (minis_of s.minis img.old).limit (mini_cell_right (minis_of s.minis img.old)) ≡ true }
    ensures { img.new ≡ unowned_freed (volume_of s.tables.geometry img.old) img.old }
{
    let t = s.tables;
    let m = s.minis;
    free_unowned(img, work, t.geometry, t.list, t.sectors, 0);
    free_unowned(img, work, m.geometry, m.list, m.units, t.sectors);
}

// Group 17 and the cells: where it holds, those of units that nobody owns become free. The chains of the system are marked.
pub fn free_marked(img: &mut [u8], work: &mut [u32], s: System)
    requires system_marked { SystemMarked s.tables s.directory s.minis img.old work.old s.shared }
    requires img_value { all_below (minis_of s.minis img.old).limit (mini_cell_right (minis_of s.minis img.old)) ≡ true }
    ensures image { img.new ≡ streams_freed (volume_of s.tables.geometry img.old) img.old }
    ensures wrote { Wrote work.old work.new 0 (work_need (length img.old)) }
{
    if mark_streams(img, work, s) {
        free_cells(img, work, s);
    }
}

// The fourth step.
pub fn free_owners(img: &mut [u8], work: &mut [u32], g: Geometry)
    requires image_sized { ImageSized (geometry_of g) img.old }
    requires img_in_bounds { W img.old ≤ length work.old }
    ensures image { img.new ≡ fourth_step (geometry_of g) img.old }
    ensures wrote { Wrote work.old work.new 0 (work_need (length img.old)) }
{
    let Some(s) = system_holds(img, work, g) else {
        return;
    };
    if cells_rest(img, work, s.minis) {
        free_marked(img, work, s);
    }
}
