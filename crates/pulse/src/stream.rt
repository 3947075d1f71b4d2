// A stream whose units are listed, read as a pulse stream: its trailer, its records piece by piece, and whether they agree.
ghost use Rattle.std.specs.Prelude.{◌≡◌, ◌+◌, ◌*◌, ◌≤◌, ◌<◌, length};
ghost use Rattle.format.specs.Layout.Stream.{contents};
ghost use Rattle.format.specs.Rules.Version.{own_volume};
ghost use Rattle.streams.specs.Listed.{OpenStream};
ghost use Rattle.pulse_records.specs.Records.{pulse_in, sum_from};
ghost use Rattle.pulse.specs.Parsed.{trailer_for, parsed_as};

use pulse_records::sums::{add_records, pulse_at};
use pulse_records::trailers::trailer_at;
use pulse_records::{Pulse, Records, TotalTicks, Trailer};
use queries::find::Object;
use streams::read_part;
use volume::Volume;

// ---- records

// The records that are read at once, as many as `add_all` steps by, and the bytes that they take.
const PIECE: Records = Records(64);

const PIECE_BYTES: usize = 512;

// Adds up the ticks of n records from a place on, which are read into the piece.
fn add_piece(
    image: &[u8],
    work: &[u32],
    v: Volume,
    e: Object,
    at: usize,
    n: Records,
    before: TotalTicks,
    piece: &mut [u8],
) -> Option<TotalTicks>
    requires open_stream { OpenStream v image.now work.now e }
    requires n_bound { (at + 8 * n.0 ≤ e.size) × (8 * n.0 ≤ length piece.old) }
    requires n_bound_2 { before.0 + n.0 * 0x1_0000_0000 < 0x1_0000_0000_0000_0000 }
    ensures { result ≡ sum_from (contents (own_volume image.now) image.now e.id.0) at n.0 before.0 }
{
    let size = n.bytes();
    read_part(image, work, v, e, at, &mut piece[..size]);
    add_records(&piece[..size], n, before)
}

// Adds up the ticks of all records, the first of which stands at a place.
fn add_all(
    image: &[u8],
    work: &[u32],
    v: Volume,
    e: Object,
    first: usize,
    count: Records,
    piece: &mut [u8],
) -> Option<TotalTicks>
    requires open_stream { OpenStream v image.now work.now e }
    requires count_bound { (first + 8 * count.0 ≤ e.size) × (512 ≤ length piece.old) }
    ensures { result ≡ sum_from (contents (own_volume image.now) image.now e.id.0) first count.0 0 }
{
    let mut total = TotalTicks::NONE;
    for start in (0..count.0).step_by(64) {
        let k = Records(start);
        let n = count.from(k, PIECE);
        total = add_piece(image, work, v, e, first + k.bytes(), n, total, piece)?;
    }
    Some(total)
}

// The pulse of the record at a place.
pub fn read_pulse(image: &[u8], work: &[u32], v: Volume, e: Object, at: usize) -> Pulse
    requires open_stream { OpenStream v image.now work.now e }
    requires at_bound { at + 8 ≤ e.size }
    ensures { result ≡ pulse_in (contents (own_volume image.now) image.now e.id.0) at }
{
    let mut bytes = [0u8; 8];
    read_part(image, work, v, e, at, &mut bytes);
    pulse_at(&bytes, 0)
}

// ---- the whole stream

// The trailer of a stream that has room for one.
fn read_trailer(image: &[u8], work: &[u32], v: Volume, e: Object) -> Trailer
    requires open_stream { OpenStream v image.now work.now e }
    requires le_size { 16 ≤ e.size }
    ensures { result ≡ trailer_for (contents (own_volume image.now) image.now e.id.0) }
{
    let mut bytes = [0u8; 16];
    let at = e.size as usize - 16;
    read_part(image, work, v, e, at, &mut bytes);
    trailer_at(&bytes)
}

// The trailer of a pulse stream: there is room for one; it agrees with itself, the length and the records; each record is right. Nothing where the
// stream is another.
pub fn parse(image: &[u8], work: &[u32], v: Volume, e: Object) -> Option<Trailer>
    requires { OpenStream v image.now work.now e }
    ensures { result ≡ parsed_as (contents (own_volume image.now) image.now e.id.0) }
{
    if e.size < 16 {
        return None;
    }
    let t = read_trailer(image, work, v, e);
    if !t.agrees(e.size) {
        return None;
    }
    let first = (e.size - t.distance as u64) as usize;
    let mut piece = [0u8; PIECE_BYTES];
    let total = add_all(image, work, v, e, first, t.count, &mut piece)?;
    if t.total != total {
        return None;
    }
    Some(t)
}
