// Streams and owners: the chains of all streams (group 17), and the units that nobody owns (group 18).
#![tactic(auto)]

ghost use Rattle.std.specs.Prelude.{◌≡◌, ◌+◌, ◌-◌, ◌≤◌};
ghost use Rattle.directory.specs.Listed.{entries_of};
ghost use Rattle.owners.specs.Streams.{StreamsMarkable, BlockMarked, StreamsMarked, CellsRight, all_covered};

use cells::all_covered;
use directory::Directory;
use kinds::EntryId;
use lanes::mark_lanes;
use minis::Minis;
use stream_chains::{gather, split};
use tables::Tables;

pub mod rules;

// Marks the chains of the streams among the entries from x up to `end`: first those of mini sectors, then those of sectors, each kind side by side.
fn mark_block(
    img: &[u8],
    work: &mut [u32],
    t: Tables,
    m: Minis,
    d: Directory,
    x: EntryId,
    end: usize,
) -> Option<bool>
    requires streams_markable { StreamsMarkable t m d img.now work.old }
    requires x_le_end { (x.0 ≤ end) × (end ≤ (entries_of d img.now).count) × (end ≤ x.0 + 32) }
    ensures { BlockMarked t m d img.now x.0 (end - x.0) work.old work.new result }
{
    let mut starts = [0u32; 32];
    let mut sizes = [0u64; 32];
    let k = gather(img, work, d, x, end, &mut starts, &mut sizes);
    let mut sh = [0u32; 32];
    let mut sl = [0u32; 32];
    let mut lh = [0u32; 32];
    let mut ll = [0u32; 32];
    let c = split(
        &starts, &sizes, k, t.geometry, t.sectors, &mut sh, &mut sl, &mut lh, &mut ll,
    )?;
    let small = mark_lanes(work, t.sectors, m.units, &mut sh, &mut sl, c.small)?;
    let large = mark_lanes(work, 0, t.sectors, &mut lh, &mut ll, c.large)?;
    Some(small | large)
}

// Marks the chains of all streams, 32 entries at a time. Says whether a unit had a mark already; nothing where a stream has no chain.
pub fn mark_streams(img: &[u8], work: &mut [u32], t: Tables, m: Minis, d: Directory) -> Option<bool>
    requires { StreamsMarkable t m d img.now work.old }
    ensures { StreamsMarked t m d img.now work.old work.new result }
{
    let n = d.count();
    let mut shared = false;
    for x in (0..n).step_by(32) {
        let end = n.min(x + 32);
        shared |= mark_block(img, work, t, m, d, EntryId(x as u32), end)?;
    }
    Some(shared)
}

// Whether every unit has a mark, or a free cell, or is a sector of the tables' own.
pub fn units_covered(img: &[u8], work: &[u32], t: Tables, m: Minis, d: Directory) -> bool
    requires streams_markable { StreamsMarkable t m d img.now work.now }
    requires cells_right { CellsRight t img.now }
    ensures { result ≡ all_covered t img.now work.now }
{
    let n = t.sectors;
    let k = m.units;
    all_covered(&work[..n]) & all_covered(&work[n..n + k])
}
