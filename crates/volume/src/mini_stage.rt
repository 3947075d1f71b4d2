// Group 16: the chains of the mini FAT and of the mini stream, and the mini FAT's cells.
ghost use Rattle.std.specs.Prelude.{◌≡◌, ◌-◌};
ghost use Rattle.format.specs.Rules.Mini.{mini_tables};
ghost use Rattle.kinds.specs.Sizes.{geometry_of};
ghost use Rattle.tables.specs.Work.{Wrote};
ghost use Rattle.tables.specs.Views.{volume_of, sector_count_of};
ghost use Rattle.tables.specs.Listed.{tables_of};
ghost use Rattle.directory.specs.Listed.{directory_at};
ghost use Rattle.volume.specs.Groups.{mini_groups};
ghost use Rattle.volume.specs.Passed.{TablesHold, TablesCopied, MiniRoom, TableRight, SystemLeft};
ghost use Rattle.volume.specs.Opened.{StageLeft};

use super::Volume;
use super::owner_stage::owner_groups;
use chains::copy_fat;
use directory::listed::list_directory;
use directory::{Directory, place};
use entries::size;
use header::mini_fat_count;
use kinds::{EntryId, Geometry, MiniSector, Refusal};
use minis::{Minis, cells_rest, copy_minis, list_minis};
use system_chains::mark_system;
use tables::{Tables, tables_of};

// What is listed after group 16, and whether two of the system's chains share a sector.
#[derive(Clone, Copy)]
pub struct System {
    pub tables: Tables,
    pub directory: Directory,
    pub minis: Minis,
    pub shared: bool,
}

// Lists the mini FAT's sectors before the directory's, and copies its cells behind those of the sectors; nothing where there is no cell for a mini
// sector, or the value of one of those cells is wrong.
fn mini_table(img: &[u8], work: &mut [u32], t: Tables, d: Directory) -> Option<Minis>
    requires { MiniRoom t d img.now work.old }
    ensures answer { TableRight t d img.now work.new result }
    ensures wrote { Wrote work.old work.new
        (sector_count_of t img.now) (d.list - sector_count_of t img.now) }
{
    let g = t.geometry;
    let list = d.list;
    let k = (size(img, place(work, d, EntryId::ROOT), g) / (MiniSector::BYTES as u64)) as usize;
    let m = mini_fat_count(img) as usize;
    if g.cells() * m < k {
        return None;
    }
    let minis = list_minis(img, work, t, k, list - m);
    if !copy_minis(img, work, minis, t.sectors) {
        return None;
    }
    Some(minis)
}

// Copies the FAT's cells, and lists the directory's sectors before the FAT's.
fn copy_tables(img: &[u8], work: &mut [u32], t: Tables, n: usize) -> Directory
    requires tables_hold { TablesHold (geometry_of t.geometry) img.now work.old n }
    requires t_value { t ≡ tables_of t.geometry img.now }
    ensures answer { result ≡ directory_at t n (t.list - n) }
    ensures copied { TablesCopied t result img.now work.old work.new }
{
    let list = t.list;
    copy_fat(img, work, t);
    list_directory(img, work, t, n, list - n)
}

// Group 16 but for the cells from K on. Marks the system's chains, and lists the directory's sectors and the mini FAT's; nothing where a rule is
// broken.
pub fn system_tables(img: &[u8], work: &mut [u32], g: Geometry, n: usize) -> Option<System>
    requires { TablesHold (geometry_of g) img.now work.old n }
    ensures { SystemLeft g img.now (mini_tables (volume_of g img.now)) work.old work.new result }
{
    let t = tables_of(img, g);
    let d = copy_tables(img, work, t, n);
    let shared = mark_system(img, work, t, d)?;
    let minis = mini_table(img, work, t, d)?;
    Some(System {
        tables: t,
        directory: d,
        minis,
        shared,
    })
}

pub fn mini_groups(img: &[u8], work: &mut [u32], g: Geometry, n: usize) -> Result<Volume, Refusal>
    requires { TablesHold (geometry_of g) img.now work.old n }
    ensures { StageLeft g img.now (mini_groups (volume_of g img.now)) work.old work.new result }
{
    let s = system_tables(img, work, g, n).ok_or(Refusal::Mini)?;
    if !cells_rest(img, work, s.minis) {
        return Err(Refusal::Mini);
    }
    owner_groups(img, work, s.tables, s.directory, s.minis, s.shared)
}
