// Reads from a stream: the bytes of its units, from any place on, of either kind. The out buffer that is lent has just the bytes that are read.
#![tactic(auto)]

ghost use Rattle.std.specs.Prelude.{◌≡◌, true, ◌+◌, ◌≤◌, ◌<◌, length, get_or};
ghost use Rattle.format.specs.Basics.Bytes.{part};
ghost use Rattle.format.specs.Layout.Space.{chain_for};
ghost use Rattle.volume.specs.Opened.{Readied};
ghost use Rattle.spaces.specs.Spaces.{space_at};
ghost use Rattle.spaces.specs.Units.{kind_of, number_in, unit_of, chain_from, units_from};
ghost use Rattle.reading.specs.Streams.{stream_from};

use chains::units_for;
use le::{copy_part, least};
use spaces::{Unit, cell_of, unit_bytes, unit_place};
use volume::Volume;

// The unit of a chain that stands k units behind its start.
fn unit_after(img: &[u8], work: &[u32], v: Volume, start: Unit, n: usize, k: usize) -> Unit
    requires readied { Readied v img.now work.now }
    requires n_value { chain_from v img.now start n ≡ true }
    requires k_lt_n { k < n }
    ensures { result ≡ unit_of (kind_of start) (get_or (units_from v img.now start n) k 0) }
{
    let mut u = start;
    for _i in 0..k {
        u = cell_of(img, work, v, u);
    }
    u
}

// Reads from a stream that starts at a unit.
pub fn read_units(
    img: &[u8],
    work: &[u32],
    v: Volume,
    start: Unit,
    size: usize,
    offset: usize,
    out: &mut [u8],
)
    requires readied { Readied v img.now work.now }
    requires start_value { chain_for (space_at v img.now (kind_of start)) size (number_in start) ≡ true }
    requires out_bound { offset + length out.old ≤ size }
    ensures { out.new ≡ part (stream_from v img.now start size) offset (length out.old) }
{
    let bytes = unit_bytes(v, start.kind());
    let end = out.len();
    if end == 0 {
        return;
    }
    let n = units_for(size as u64, bytes as u64) as usize;
    let mut u = unit_after(img, work, v, start, n, offset / bytes);
    // Each step reads what is left of the unit at hand, as far as there is room.
    let mut o = offset % bytes;
    let mut i = 0;
    while i < end {
        let p = unit_place(work, v, u) + o;
        let run = least(bytes - o, end - i);
        copy_part(out, i, img, p, run);
        i += run;
        u = cell_of(img, work, v, u);
        o = 0;
    }
}
