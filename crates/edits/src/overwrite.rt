// Overwrites: bytes put into the stream that a path leads to.
ghost use Rattle.std.specs.Prelude.{◌≡◌, [], ◌+◌, ◌≤◌, ltb, length};
ghost use Rattle.format.specs.Calls.Call.{overwrite as overwrite_call};
ghost use Rattle.format.specs.Calls.Overwrite.{overwritten};
ghost use Rattle.format.specs.Calls.Answer.{answer_in};
ghost use Rattle.kinds.specs.Sizes.{geometry_of};
ghost use Rattle.kinds.specs.Numbers.{number_of};
ghost use Rattle.tables.specs.Work.{Wrote};
ghost use Rattle.spaces.specs.Spaces.{volume_in};
ghost use Rattle.queries.specs.Inside.{Open, image_in};
ghost use Rattle.queries.specs.Streams.{StreamAt};

use chains::units_for;
use directory::place;
use kinds::Refusal;
use queries::find::{Object, find_in};
use spaces::{kind_for, start_unit, unit_bytes};
use unitlists::list_units;
use volume::Volume;
use writes::put_bytes;

// Whether n bytes from an offset on end behind a stream of so many bytes. The sum is the true one.
fn ends_beyond(size: u64, offset: u64, n: usize) -> bool
    ensures { result ≡ ltb size (offset + n) }
{
    size < offset || size - offset < n as u64
}

// Puts bytes into a stream.
fn put_in_stream(
    img: &mut [u8],
    work: &mut [u32],
    v: Volume,
    e: Object,
    offset: usize,
    bytes: &[u8],
)
    requires fact { Open v img.old work.old }
    requires stream_at { StreamAt (volume_in v img.old) e }
    requires bytes_bound { offset + length bytes.now ≤ e.size }
    ensures img_after { img.new ≡ overwritten (volume_in v img.old) img.old e.id.0 offset bytes.now }
    ensures wrote { Wrote work.old work.new 0 v.stream }
{
    let kind = kind_for(e.size);
    let n = units_for(e.size, unit_bytes(v, kind) as u64) as usize;
    let first = start_unit(img, place(work, v.directory, e.id), kind);
    list_units(img, work, v, first, n);
    put_bytes(img, work, v, kind, n, offset, bytes);
}

// Puts bytes into the stream that a path leads to, from an offset on.
pub fn overwrite_in(
    path: &[u16],
    img: &mut [u8],
    work: &mut [u32],
    v: Volume,
    offset: u64,
    bytes: &[u8],
) -> Result<(), Refusal>
    requires { Open v img.old work.old }
    ensures result_value { number_of result
        ≡ answer_in (geometry_of v.tables.geometry) (volume_in v img.old) (overwrite_call path.now offset bytes.now []) }
    ensures img_after { img.new
        ≡ image_in (geometry_of v.tables.geometry) (volume_in v img.old) img.old
        (overwrite_call path.now offset bytes.now []) }
    ensures wrote { Wrote work.old work.new 0 v.stream }
{
    let e = find_in(path, img, work, v)?;
    if !e.entry_type.is_stream() {
        return Err(Refusal::NotAStream);
    }
    if ends_beyond(e.size, offset, bytes.len()) {
        return Err(Refusal::Beyond);
    }
    put_in_stream(img, work, v, e, offset as usize, bytes);
    Ok(())
}
