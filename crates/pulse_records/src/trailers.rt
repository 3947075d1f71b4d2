// Trailers in bytes: one read, and one written behind a new record.
ghost use Rattle.std.specs.Prelude.{◌≡◌, ◌++◌, ◌≤◌, ◌<◌, length};
ghost use Rattle.pulse_laws.specs.Pulse.{record_of, trailer_of, distance_for};
ghost use Rattle.pulse_records.specs.Records.{pulse_of, trailer_in};

use super::{Pulse, Records, TotalTicks, Trailer};
use le::{put_u16, put_u32, put_u64, u32_at, u64_at};

// The trailer that these bytes are.
pub fn trailer_at(bytes: &[u8]) -> Trailer
    requires { 16 ≤ length bytes.now }
    ensures { result ≡ trailer_in bytes.now }
{
    Trailer {
        distance: u32_at(bytes, 0),
        count: Records(u32_at(bytes, 4)),
        total: TotalTicks(u64_at(bytes, 8)),
    }
}

// The last bytes of a stream: its last record, and the trailer of so many records and ticks.
pub fn put_tail(bytes: &mut [u8], p: Pulse, count: Records, total: TotalTicks)
    requires bytes_len { length bytes.old ≡ 24 }
    requires count_bound { distance_for count.0 < 0x1_0000_0000 }
    ensures { bytes.new ≡ record_of (pulse_of p) ++ trailer_of count.0 total.0 }
{
    put_u16(bytes, 0, p.valve.0);
    put_u16(bytes, 2, 0);
    put_u32(bytes, 4, p.ticks.0);
    put_u32(bytes, 8, count.distance() as u32);
    put_u32(bytes, 12, count.0);
    put_u64(bytes, 16, total.0);
}
