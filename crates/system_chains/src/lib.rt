// The chains that the system has: the directory's, the mini FAT's and the mini stream's.
#![tactic(auto)]

ghost use Rattle.std.specs.Prelude.{◌≡◌, true, length};
ghost use Rattle.format.specs.Layout.Volume.{directory_sectors_of, mini_fat_sectors, mini_stream_sectors};
ghost use Rattle.format.specs.Rules.Directory.{directory_rules};
ghost use Rattle.format.specs.Rules.Mini.{mini_fat_chain, mini_stream_chain};
ghost use Rattle.kinds.specs.Sizes.{geometry_of};
ghost use Rattle.tables.specs.Views.{volume_of, sectors_of};
ghost use Rattle.chains.specs.Answers.{ChainsMarked};
ghost use Rattle.system_chains.specs.System.{SectorsMarkable, SystemMarkable, SystemWalked};

use chains::{mark_chain, sectors_for};
use directory::{Directory, place};
use entries::{size, start_sector};
use header::{directory_start, mini_fat_count, mini_fat_start};
use kinds::{EntryId, MiniSector};
use tables::Tables;

// Marks the directory's chain.
fn mark_directory(img: &[u8], work: &mut [u32], t: Tables, n: usize) -> Option<bool>
    requires sectors_markable { SectorsMarkable t img.now work.old }
    requires n_value { n ≡ length (directory_sectors_of (geometry_of t.geometry) img.now) }
    requires img_value { directory_rules (volume_of t.geometry img.now) ≡ true }
    ensures { ChainsMarked (sectors_of t img.now) 0 true (directory_sectors_of (geometry_of t.geometry) img.now)
        work.old work.new result }
{
    mark_chain(work, 0, t.sectors, directory_start(img).0, n as u64)
}

// Marks the mini FAT's chain.
fn mark_mini_fat(img: &[u8], work: &mut [u32], t: Tables) -> Option<bool>
    requires { SectorsMarkable t img.now work.old }
    ensures { ChainsMarked (sectors_of t img.now) 0 (mini_fat_chain (volume_of t.geometry img.now))
        (mini_fat_sectors (geometry_of t.geometry) img.now) work.old work.new result }
{
    mark_chain(
        work,
        0,
        t.sectors,
        mini_fat_start(img).0,
        mini_fat_count(img) as u64,
    )
}

// Marks the mini stream's chain.
fn mark_mini_stream(img: &[u8], work: &mut [u32], t: Tables, d: Directory) -> Option<bool>
    requires { SystemMarkable t d img.now work.old }
    ensures { ChainsMarked (sectors_of t img.now) 0 (mini_stream_chain (volume_of t.geometry img.now))
        (mini_stream_sectors (geometry_of t.geometry) img.now) work.old work.new result }
{
    let p = place(work, d, EntryId::ROOT);
    let n = size(img, p, t.geometry);
    if 0 < n % (MiniSector::BYTES as u64) {
        return None;
    }
    mark_chain(
        work,
        0,
        t.sectors,
        start_sector(img, p).0,
        sectors_for(n, t.geometry),
    )
}

// Marks all of them. Says whether two share a sector; nothing where one is no chain.
pub fn mark_system(img: &[u8], work: &mut [u32], t: Tables, d: Directory) -> Option<bool>
    requires system_markable { SystemMarkable t d img.now work.old }
    requires img_value { directory_rules (volume_of t.geometry img.now) ≡ true }
    ensures { SystemWalked t img.now work.old work.new result }
{
    let a = mark_directory(img, work, t, d.sectors)?;
    let b = mark_mini_fat(img, work, t)?;
    let c = mark_mini_stream(img, work, t, d)?;
    Some(a | b | c)
}
