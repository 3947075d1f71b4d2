// Groups 10 to 13.
ghost use Rattle.std.specs.Prelude.{◌≤◌, length};
ghost use Rattle.format.specs.Rules.Verdict.{groups};
ghost use Rattle.kinds.specs.Sizes.{geometry_of};
ghost use Rattle.header.specs.Sized.{ImageSized, W};
ghost use Rattle.volume.specs.Opened.{StageLeft};

use super::Volume;
use super::entry_stage::entry_groups;
use chains::{cell_rules, directory_length};
use header::header_rules;
use kinds::{Geometry, Refusal};
use tables::sectors::table_rules;
use tables::tables_of;

pub fn table_groups(img: &[u8], work: &mut [u32], g: Geometry) -> Result<Volume, Refusal>
    requires image_sized { ImageSized (geometry_of g) img.now }
    requires img_in_bounds { W img.now ≤ length work.old }
    ensures { StageLeft g img.now (groups (geometry_of g) img.now) work.old work.new result }
{
    if !header_rules(img, g) {
        return Err(Refusal::Header);
    }
    if !table_rules(img, work, g) {
        return Err(Refusal::Tables);
    }
    let t = tables_of(img, g);
    if !cell_rules(img, work, t) {
        return Err(Refusal::Cells);
    }
    let n = directory_length(img, work, t).ok_or(Refusal::Directory)?;
    entry_groups(img, work, g, n)
}
