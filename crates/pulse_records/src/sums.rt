// Records in bytes: the pulse of one, and the ticks of many.
ghost use Rattle.std.specs.Prelude.{◌≡◌, ◌+◌, ◌*◌, ◌≤◌, ◌<◌, length};
ghost use Rattle.pulse_records.specs.Records.{pulse_in, right_at, sum_from};

use super::{Pulse, Records, Ticks, TotalTicks, Valve};
use le::{u16_at, u32_at};

// The pulse of the record at a place.
pub fn pulse_at(bytes: &[u8], at: usize) -> Pulse
    requires { at + 8 ≤ length bytes.now }
    ensures { result ≡ pulse_in bytes.now at }
{
    Pulse {
        valve: Valve(u16_at(bytes, at)),
        ticks: Ticks(u32_at(bytes, at + 4)),
    }
}

// Whether the record at a place has zeros between valve and ticks, and at least one tick.
fn is_right(bytes: &[u8], at: usize) -> bool
    requires { at + 8 ≤ length bytes.now }
    ensures { result ≡ right_at bytes.now at }
{
    let zero = u16_at(bytes, at + 2);
    let p = pulse_at(bytes, at);
    (zero == 0) & p.ticks.some()
}

// Adds up the ticks of the first n records on top of those before them; nothing where one of the records is not right.
pub fn add_records(bytes: &[u8], n: Records, before: TotalTicks) -> Option<TotalTicks>
    requires n_in_bounds { 8 * n.0 ≤ length bytes.now }
    requires n_bound { before.0 + n.0 * 0x1_0000_0000 < 0x1_0000_0000_0000_0000 }
    ensures { result ≡ sum_from bytes.now 0 n.0 before.0 }
{
    let mut total = before;
    for k in 0..n.0 {
        let at = Records(k).bytes();
        if !is_right(bytes, at) {
            return None;
        }
        let p = pulse_at(bytes, at);
        total = total.plus(p.ticks);
    }
    Some(total)
}
