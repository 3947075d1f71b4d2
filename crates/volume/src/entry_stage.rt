// Groups 14 and 15.
ghost use Rattle.std.specs.Prelude.{◌≡◌, ◌-◌, length};
ghost use Rattle.format.specs.Rules.Length.{work_need};
ghost use Rattle.kinds.specs.Sizes.{geometry_of};
ghost use Rattle.tables.specs.Work.{Wrote};
ghost use Rattle.tables.specs.Views.{volume_of};
ghost use Rattle.tables.specs.Listed.{FatListed, list_place, tables_of};
ghost use Rattle.directory.specs.Listed.{directory_at, DirectoryListed};
ghost use Rattle.volume.specs.Groups.{entry_groups};
ghost use Rattle.volume.specs.Passed.{TablesHold, EntriesLeft};
ghost use Rattle.volume.specs.Opened.{StageLeft};

use super::Volume;
use super::mini_stage::mini_groups;
use directory::Directory;
use directory::listed::list_directory;
use entry_rules::read_entries;
use hierarchy::tree_rules;
use kinds::{Geometry, Refusal};
use tables::tables_of;

// Lists the directory's sectors before the FAT's.
pub fn open_directory(img: &[u8], work: &mut [u32], g: Geometry, n: usize) -> Directory
    requires { TablesHold (geometry_of g) img.now work.old n }
    ensures answer { result ≡ directory_at (tables_of g img.now) n (list_place img.now - n) }
    ensures directory { DirectoryListed result img.now work.new }
    ensures fat { FatListed (tables_of g img.now) img.now work.new }
    ensures wrote { Wrote work.old work.new 0 (work_need (length img.now)) }
{
    let t = tables_of(img, g);
    let list = t.list;
    list_directory(img, work, t, n, list - n)
}

// The two groups by themselves. The nodes of the entries and the walk over the trees lie before the lists.
pub fn entry_tests(img: &[u8], work: &mut [u32], g: Geometry, n: usize) -> Result<(), Refusal>
    requires { TablesHold (geometry_of g) img.now work.old n }
    ensures { EntriesLeft (geometry_of g) img.now n work.old work.new result }
{
    let d = open_directory(img, work, g, n);
    if !read_entries(img, work, d) {
        return Err(Refusal::Entries);
    }
    if !tree_rules(img, work, d) {
        return Err(Refusal::Trees);
    }
    Ok(())
}

pub fn entry_groups(img: &[u8], work: &mut [u32], g: Geometry, n: usize) -> Result<Volume, Refusal>
    requires { TablesHold (geometry_of g) img.now work.old n }
    ensures { StageLeft g img.now (entry_groups (volume_of g img.now)) work.old work.new result }
{
    entry_tests(img, work, g, n)?;
    mini_groups(img, work, g, n)
}
