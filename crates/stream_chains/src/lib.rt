// The chains that the streams of some entries ask for: their starts and sizes, read of many entries at once, and the lanes that mark them.
#![tactic(auto)]

ghost use Rattle.std.specs.Prelude.{◌≡◌, ◌+◌, ◌-◌, ◌≤◌, ◌<◌};
ghost use Rattle.tables.specs.Views.{volume_of};
ghost use Rattle.directory.specs.Listed.{count_of, DirectoryListed};
ghost use Rattle.stream_chains.specs.Asked.{Gathered};
ghost use Rattle.stream_chains.specs.Split.{SplitReady, SplitAnswer};

use chains::{sectors_for, units_for};
use directory::{Directory, place};
use entries::{entry_type, size, start_sector};
use kinds::{CUTOFF, EntryId, Geometry, MiniSector, Numbered, Sector};

// ---- starts and sizes

// Start and size of each stream among the entries from x up to `end`, and how many these are. They are read of each entry, so that many come from
// memory at once.
pub fn gather(
    img: &[u8],
    work: &[u32],
    d: Directory,
    x: EntryId,
    end: usize,
    starts: &mut [u32; 32],
    sizes: &mut [u64; 32],
) -> usize
    requires directory_listed { DirectoryListed d img.now work.now }
    requires x_le_end { (x.0 ≤ end) × (end ≤ count_of d) × (end ≤ x.0 + 32) }
    ensures { Gathered (volume_of d.geometry img.now) x.0 (end - x.0) result starts.new sizes.new }
{
    let mut k: usize = 0;
    for y in x.until(end) {
        let p = place(work, d, y);
        starts[k] = start_sector(img, p).0;
        sizes[k] = size(img, p, d.geometry);
        k += usize::from(entry_type(img, p).is_stream());
    }
    k
}

// ---- lanes

// How many lanes of mini sectors there are, and of sectors.
#[derive(Clone, Copy)]
pub struct Counts {
    pub small: usize,
    pub large: usize,
}

// The lane of stream j, behind those of the streams before it. One of 0 bytes has none, and a chain of more sectors than there are is no chain.
// How many lanes there are then; nothing where the stream has no chain.
fn add_lane(
    starts: &[u32; 32],
    sizes: &[u64; 32],
    j: usize,
    g: Geometry,
    sectors: usize,
    c: Counts,
    sh: &mut [u32; 32],
    sl: &mut [u32; 32],
    lh: &mut [u32; 32],
    ll: &mut [u32; 32],
) -> Option<Counts>
    requires j_bound { (j < 32) × (1 < g.bytes) × (sectors < 0x1000_0000) }
    requires split_ready { SplitReady g sectors j starts.now sizes.now c sh.old sl.old lh.old ll.old }
    ensures { SplitAnswer g sectors (j + 1) starts.now sizes.now
        sh.new sl.new lh.new ll.new result }
{
    let start = starts[j];
    let size = sizes[j];
    if size == 0 {
        if start == Sector::END.0 {
            return Some(c);
        }
        return None;
    }
    if size < CUTOFF {
        sh[c.small] = start;
        sl[c.small] = units_for(size, MiniSector::BYTES as u64) as u32;
        return Some(Counts {
            small: c.small + 1,
            ..c
        });
    }
    let n = sectors_for(size, g);
    if (sectors as u64) < n {
        return None;
    }
    lh[c.large] = start;
    ll[c.large] = n as u32;
    Some(Counts {
        large: c.large + 1,
        ..c
    })
}

// The lanes of the first k streams: of mini sectors, with starts `sh` and units to go `sl`, and of sectors, with `lh` and `ll`. How many there
// are; nothing where one of the streams has no chain.
pub fn split(
    starts: &[u32; 32],
    sizes: &[u64; 32],
    k: usize,
    g: Geometry,
    sectors: usize,
    sh: &mut [u32; 32],
    sl: &mut [u32; 32],
    lh: &mut [u32; 32],
    ll: &mut [u32; 32],
) -> Option<Counts>
    requires { (k ≤ 32) × (1 < g.bytes) × (sectors < 0x1000_0000) }
    ensures { SplitAnswer g sectors k starts.now sizes.now
        sh.new sl.new lh.new ll.new result }
{
    let mut c = Counts { small: 0, large: 0 };
    for j in 0..k {
        c = add_lane(starts, sizes, j, g, sectors, c, sh, sl, lh, ll)?;
    }
    Some(c)
}
