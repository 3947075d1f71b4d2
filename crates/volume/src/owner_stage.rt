// Groups 17 and 18, and the opened volume.
ghost use Rattle.std.specs.Prelude.{◌≡◌};
ghost use Rattle.tables.specs.Work.{Wrote};
ghost use Rattle.tables.specs.Views.{volume_of};
ghost use Rattle.volume.specs.Groups.{owner_groups};
ghost use Rattle.volume.specs.Passed.{SystemMarked, ListsStand};
ghost use Rattle.volume.specs.Opened.{StageLeft, Readied};

use super::Volume;
use chains::{list_chain, sectors_for};
use directory::{Directory, place};
use entries::{size, start_sector};
use kinds::{EntryId, Refusal};
use minis::Minis;
use owners::rules::owner_rules;
use tables::Tables;

// Lists the mini stream's sectors before the mini FAT's, which makes the volume ready.
fn list_stream(img: &[u8], work: &mut [u32], t: Tables, d: Directory, m: Minis) -> Volume
    requires { ListsStand t d m img.now work.old }
    ensures answer { (result.tables ≡ t) × (result.directory ≡ d) × (result.minis ≡ m) }
    ensures ready { Readied result img.now work.new }
    ensures wrote { Wrote work.old work.new 0 m.list }
{
    let g = t.geometry;
    let list = m.list;
    let p = place(work, d, EntryId::ROOT);
    let n = sectors_for(size(img, p, g), g) as usize;
    let at = list - n;
    list_chain(img, work, t, start_sector(img, p), n, at);
    Volume {
        tables: t,
        directory: d,
        minis: m,
        stream: at,
    }
}

// The marks of the system's chains stand already; `shared` says whether two of these share a sector.
pub fn owner_groups(
    img: &[u8],
    work: &mut [u32],
    t: Tables,
    d: Directory,
    m: Minis,
    shared: bool,
) -> Result<Volume, Refusal>
    requires { SystemMarked t d m img.now work.old shared }
    ensures { StageLeft t.geometry img.now (owner_groups (volume_of t.geometry img.now))
        work.old work.new result }
{
    owner_rules(img, work, t, m, d, shared)?;
    Ok(list_stream(img, work, t, d, m))
}
