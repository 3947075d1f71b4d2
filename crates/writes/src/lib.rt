// Writes into the image: cells and bytes of the units that stand listed at the start of the work buffer, and fields of an entry.
// Places come from the lists in the work buffer alone: no cell is read while cells change.
#![tactic(auto)]

ghost use Rattle.std.specs.Prelude.{◌≡◌, ◌+◌, ◌*◌, ◌≤◌, ◌<◌, length, take, drop};
ghost use Rattle.format.specs.Layout.Chain.{start_of};
ghost use Rattle.format.specs.Calls.Overwrite.{put_chain};
ghost use Rattle.format.specs.Calls.SetLength.{put_cell, zeroed};
ghost use Rattle.directory.specs.Listed.{place_of};
ghost use Rattle.spaces.specs.Spaces.{unit_bytes, listed_space, CellListed};
ghost use Rattle.spaces.specs.Units.{kind_of, number_in, unit_of};
ghost use Rattle.writes.specs.Writable.{Writable, EntryRoom};
ghost use Rattle.writes.specs.Puts.{cell_value, cells_put, entry_put};

use directory::{Directory, place};
use kinds::EntryId;
use le::{copy_part, least, put_u32, put_u64};
use spaces::{Kind, Unit, cell_place, unit_bytes, unit_place};
use volume::Volume;

// ---- cells

// Writes the cell of a unit.
fn put_cell(img: &mut [u8], work: &[u32], v: Volume, u: Unit, c: Unit)
    requires cell_listed { CellListed v work.now (kind_of u) (number_in u) }
    requires u_in_bounds { (listed_space v work.now (kind_of u)).cell_place (number_in u) + 4 ≤ length img.old }
    ensures { img.new ≡ put_cell (listed_space v work.now (kind_of u)) img.old (number_in u) (number_in c) }
{
    let p = cell_place(work, v, u);
    put_u32(img, p, c.number());
}

// The start of a chain of the listed units from number j to before number n: the unit there, or the end.
pub fn chain_start(work: &[u32], kind: Kind, j: usize, n: usize) -> Unit
    requires { n ≤ length work.now }
    ensures { result ≡ unit_of kind (start_of (drop j (take n work.now))) }
{
    if j < n {
        Unit::of(kind, work[j])
    } else {
        Unit::end(kind)
    }
}

// What the cells of listed units become: free, or a chain, in which each names the next unit and the last is the end.
#[derive(Clone, Copy)]
pub enum Cells {
    Freed,
    Linked,
}

// What the cell of unit number j of the list becomes, where the list ends before number `to`.
fn cell_value(work: &[u32], kind: Kind, cells: Cells, j: usize, to: usize) -> Unit
    requires to_in_bounds { to ≤ length work.now }
    requires j_lt_to { j < to }
    ensures { result ≡ unit_of kind (cell_value cells (drop (j + 1) (take to work.now))) }
{
    match cells {
        Cells::Freed => Unit::free(kind),
        Cells::Linked => chain_start(work, kind, j + 1, to),
    }
}

// Writes the cells of the units from number `from` to before number `to` of the list.
pub fn put_cells(
    img: &mut [u8],
    work: &[u32],
    v: Volume,
    kind: Kind,
    cells: Cells,
    from: usize,
    to: usize,
)
    requires writable { Writable v work.now kind (length img.old) to }
    requires from_le_to { from ≤ to }
    ensures { img.new ≡ cells_put cells (listed_space v work.now kind) (drop from (take to work.now)) img.old }
{
    for j in from..to {
        let u = Unit::of(kind, work[j]);
        put_cell(img, work, v, u, cell_value(work, kind, cells, j, to));
    }
}

// ---- bytes

// Bytes of a stream whose first n units are listed become zero, from a place on to the end of the last unit.
pub fn zero_from(img: &mut [u8], work: &[u32], v: Volume, kind: Kind, n: usize, from: usize)
    requires writable { Writable v work.now kind (length img.old) n }
    requires from_bound { from ≤ n * unit_bytes v kind }
    ensures { img.new ≡ zeroed (listed_space v work.now kind) (take n work.now) img.old from }
{
    let bytes = unit_bytes(v, kind);
    let mut o = from % bytes;
    for k in from / bytes..n {
        let p = unit_place(work, v, Unit::of(kind, work[k]));
        let start = p + o;
        let end = p + bytes;
        img[start..end].fill(0);
        o = 0;
    }
}

// Puts bytes into a stream whose first n units are listed, from a place on.
pub fn put_bytes(
    img: &mut [u8],
    work: &[u32],
    v: Volume,
    kind: Kind,
    n: usize,
    offset: usize,
    bytes: &[u8],
)
    requires writable { Writable v work.now kind (length img.old) n }
    requires bytes_bound { offset + length bytes.now ≤ n * unit_bytes v kind }
    ensures { img.new
        ≡ put_chain (listed_space v work.now kind) (take n work.now) img.old offset bytes.now }
{
    let unit = unit_bytes(v, kind);
    let end = bytes.len();
    // Each step puts as many bytes as the unit at hand has room for.
    let mut k = offset / unit;
    let mut o = offset % unit;
    let mut i = 0;
    while i < end {
        let p = unit_place(work, v, Unit::of(kind, work[k])) + o;
        let run = least(unit - o, end - i);
        copy_part(img, p, bytes, i, run);
        i += run;
        k += 1;
        o = 0;
    }
}

// ---- entries

// Writes start and size of an entry.
pub fn put_entry(img: &mut [u8], work: &[u32], d: Directory, x: EntryId, start: Unit, size: u64)
    requires entry_room { EntryRoom d work.now x.0 (length img.old) }
    requires img_len_bound { length img.old < 0x1_0000_0000 }
    ensures { img.new ≡ entry_put (place_of d work.now x.0) (number_in start) size img.old }
{
    let p = place(work, d, x);
    put_u32(img, p + 116, start.number());
    put_u64(img, p + 120, size);
}
