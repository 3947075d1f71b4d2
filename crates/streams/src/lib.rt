// Streams of an opened volume: found by a path, their units listed once, and read from any place on. A listed stream is read in pieces with
// no walk along its chain.
#![tactic(auto)]

ghost use Rattle.std.specs.Prelude.{◌≡◌, ◌+◌, ◌≤◌, length};
ghost use Rattle.format.specs.Basics.Bytes.{part};
ghost use Rattle.format.specs.Layout.Stream.{contents};
ghost use Rattle.format.specs.Rules.Length.{work_need};
ghost use Rattle.format.specs.Rules.Version.{own_volume};
ghost use Rattle.tables.specs.Work.{Wrote};
ghost use Rattle.queries.specs.Streams.{StreamAt};
ghost use Rattle.opened.specs.OpenVolume.{OpenVolume};
ghost use Rattle.streams.specs.Found.{StreamFound};
ghost use Rattle.streams.specs.Listed.{OpenStream};

use chains::units_for;
use directory::place;
use kinds::Refusal;
use le::{copy_part, least};
use queries::find::{Object, find_in};
use spaces::{Unit, kind_for, start_unit, unit_bytes, unit_place};
use unitlists::list_units;
use volume::Volume;

// The stream that a path leads to.
pub fn find_stream(image: &[u8], work: &[u32], v: Volume, path: &[u16]) -> Result<Object, Refusal>
    requires { OpenVolume v image.now work.now }
    ensures { StreamFound image.now path.now work.now result }
{
    let e = find_in(path, image, work, v)?;
    if !e.entry_type.is_stream() {
        return Err(Refusal::NotAStream);
    }
    Ok(e)
}

// Lists a stream's units at the start of the work buffer.
pub fn open_stream(image: &[u8], work: &mut [u32], v: Volume, e: Object)
    requires open_volume { OpenVolume v image.now work.old }
    requires stream_at { StreamAt (own_volume image.now) e }
    ensures open_stream { OpenStream v image.now work.new e }
    ensures wrote { Wrote work.old work.new 0 (work_need (length image.now)) }
{
    let kind = kind_for(e.size);
    let n = units_for(e.size, unit_bytes(v, kind) as u64) as usize;
    let first = start_unit(image, place(work, v.directory, e.id), kind);
    list_units(image, work, v, first, n);
}

// Bytes of a stream whose units are listed, from an offset on; the out buffer has just the bytes that are read.
pub fn read_part(image: &[u8], work: &[u32], v: Volume, e: Object, offset: usize, out: &mut [u8])
    requires open_stream { OpenStream v image.now work.now e }
    requires out_bound { offset + length out.old ≤ e.size }
    ensures { out.new
        ≡ part (contents (own_volume image.now) image.now e.id.0) offset (length out.old) }
{
    let kind = kind_for(e.size);
    let bytes = unit_bytes(v, kind);
    let end = out.len();
    // Each step reads what is left of the unit at hand, as far as there is room.
    let mut i = 0;
    while i < end {
        let at = offset + i;
        let o = at % bytes;
        let p = unit_place(work, v, Unit::of(kind, work[at / bytes])) + o;
        let run = least(bytes - o, end - i);
        copy_part(out, i, image, p, run);
        i += run;
    }
}
