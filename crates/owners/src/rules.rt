// Groups 17 and 18: the chains of all streams, and the owners of all units.
ghost use Rattle.std.specs.Prelude.{◌≡◌, ◌+◌};
ghost use Rattle.format.specs.Rules.Streams.{stream_rules};
ghost use Rattle.format.specs.Rules.Owners.{owner_rules};
ghost use Rattle.tables.specs.Work.{Wrote};
ghost use Rattle.tables.specs.Views.{volume_of, sector_count_of};
ghost use Rattle.owners.specs.Streams.{StreamsMarkable, CellsRight, OnlySystem, minis_in, owners_answer};

use super::{mark_streams, units_covered};
use directory::Directory;
use kinds::Refusal;
use minis::Minis;
use tables::Tables;

// Refused where a stream's chain is wrong, or where a unit has two owners, or none though its cell is not free. The system's chains are marked
// already; `shared` says whether two of these share a sector.
pub fn owner_rules(
    img: &[u8],
    work: &mut [u32],
    t: Tables,
    m: Minis,
    d: Directory,
    shared: bool,
) -> Result<(), Refusal>
    requires streams_markable { StreamsMarkable t m d img.now work.old }
    requires cells_right { CellsRight t img.now }
    requires only_system { OnlySystem t img.now work.old shared }
    ensures answer { result
        ≡ owners_answer (stream_rules (volume_of t.geometry img.now)) (owner_rules (volume_of t.geometry img.now)) }
    ensures wrote { Wrote work.old work.new 0
        (sector_count_of t img.now + (minis_in t img.now).limit) }
{
    let also = mark_streams(img, work, t, m, d).ok_or(Refusal::Streams)?;
    let covered = units_covered(img, work, t, m, d);
    if !(shared | also) & covered {
        return Ok(());
    }
    Err(Refusal::Owners)
}
