// Reads: the bytes of a stream from a place on. A path leads to it, or its entry number is given.
ghost use Rattle.std.specs.Prelude.{◌≡◌, [], ◌+◌, ◌≤◌, length};
ghost use Rattle.format.specs.Basics.Bytes.{part};
ghost use Rattle.format.specs.Layout.Stream.{contents};
ghost use Rattle.format.specs.Calls.Call.{read as read_call, read_at as read_at_call};
ghost use Rattle.kinds.specs.Sizes.{geometry_of};
ghost use Rattle.spaces.specs.Spaces.{volume_in};
ghost use Rattle.queries.specs.Inside.{Open, reply_in, out_in};
ghost use Rattle.queries.specs.Streams.{StreamAt};
ghost use Rattle.queries.specs.Replies.{read_reply};

use super::find::{Object, find_in, object_at};
use directory::place;
use kinds::{EntryId, Numbered, Refusal};
use le::least;
use reading::read_units;
use spaces::{kind_for, start_unit};
use volume::Volume;

// Reads a stream's bytes, as many as the out buffer has room for.
pub fn read_stream(img: &[u8], work: &[u32], v: Volume, e: Object, offset: usize, out: &mut [u8])
    requires fact { Open v img.now work.now }
    requires stream_at { StreamAt (volume_in v img.now) e }
    requires out_bound { offset + length out.old ≤ e.size }
    ensures { out.new ≡ part (contents (volume_in v img.now) img.now e.id.0) offset (length out.old) }
{
    let first = start_unit(img, place(work, v.directory, e.id), kind_for(e.size));
    read_units(img, work, v, first, e.size as usize, offset, out);
}

// Reads from a stream that was looked up, from an offset on: how many bytes.
pub fn read_object(
    img: &[u8],
    work: &[u32],
    v: Volume,
    e: Object,
    offset: u64,
    out: &mut [u8],
) -> Result<usize, Refusal>
    requires fact { Open v img.now work.now }
    requires stream_at { StreamAt (volume_in v img.now) e }
    ensures result_value { read_reply result
        ≡ reply_in (geometry_of v.tables.geometry) (volume_in v img.now) (read_at_call e.id.0 offset out.old []) }
    ensures out_after { out.new
        ≡ out_in (geometry_of v.tables.geometry) (volume_in v img.now) img.now
        (read_at_call e.id.0 offset out.old []) }
{
    if e.size < offset {
        return Err(Refusal::Beyond);
    }
    let n = least((e.size - offset) as usize, out.len());
    read_stream(img, work, v, e, offset as usize, &mut out[..n]);
    Ok(n)
}

// Reads from the stream that a path leads to, from an offset on.
pub fn read_in(
    path: &[u16],
    img: &[u8],
    work: &[u32],
    v: Volume,
    offset: u64,
    out: &mut [u8],
) -> Result<usize, Refusal>
    requires { Open v img.now work.now }
    ensures result_value { read_reply result
        ≡ reply_in (geometry_of v.tables.geometry) (volume_in v img.now) (read_call path.now offset out.old []) }
    ensures out_after { out.new
        ≡ out_in (geometry_of v.tables.geometry) (volume_in v img.now) img.now
        (read_call path.now offset out.old []) }
{
    let e = find_in(path, img, work, v)?;
    if !e.entry_type.is_stream() {
        return Err(Refusal::NotAStream);
    }
    read_object(img, work, v, e, offset, out)
}

// Reads at a cursor: from the stream of an entry number, from a position on.
pub fn read_at_in(
    img: &[u8],
    work: &[u32],
    v: Volume,
    entry: EntryId,
    position: u64,
    out: &mut [u8],
) -> Result<usize, Refusal>
    requires { Open v img.now work.now }
    ensures result_value { read_reply result
        ≡ reply_in (geometry_of v.tables.geometry) (volume_in v img.now) (read_at_call entry.0 position out.old []) }
    ensures out_after { out.new
        ≡ out_in (geometry_of v.tables.geometry) (volume_in v img.now) img.now
        (read_at_call entry.0 position out.old []) }
{
    let d = v.directory;
    if !entry.below(d.count()) {
        return Err(Refusal::BadEntry);
    }
    let object = object_at(img, work, d, entry);
    if !object.entry_type.is_stream() {
        return Err(Refusal::BadEntry);
    }
    read_object(img, work, v, object, position, out)
}
