// The directory's sectors, listed in the work buffer.
ghost use Rattle.std.specs.Prelude.{◌≡◌, true, ◌+◌, ◌≤◌, length};
ghost use Rattle.format.specs.Layout.Volume.{directory_sectors_of};
ghost use Rattle.format.specs.Rules.Directory.{directory_rules};
ghost use Rattle.kinds.specs.Sizes.{geometry_of};
ghost use Rattle.tables.specs.Work.{Wrote};
ghost use Rattle.tables.specs.Views.{volume_of};
ghost use Rattle.tables.specs.Listed.{FatListed};
ghost use Rattle.directory.specs.Listed.{directory_at, DirectoryListed};

use super::Directory;
use chains::list_chain;
use header::directory_start;
use tables::Tables;

// Writes the directory's n sectors into the work buffer from a place on, before the list of FAT sectors.
pub fn list_directory(img: &[u8], work: &mut [u32], t: Tables, n: usize, at: usize) -> Directory
    requires fat_listed { FatListed t img.now work.old }
    requires n_value { n ≡ length (directory_sectors_of (geometry_of t.geometry) img.now) }
    requires img_value { directory_rules (volume_of t.geometry img.now) ≡ true }
    requires n_bound { at + n ≤ t.list }
    ensures answer { result ≡ directory_at t n at }
    ensures listed { DirectoryListed result img.now work.new }
    ensures wrote { Wrote work.old work.new at n }
{
    list_chain(img, work, t, directory_start(img), n, at);
    Directory {
        geometry: t.geometry,
        sectors: n,
        list: at,
    }
}
