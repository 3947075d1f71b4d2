// The calls on an opened volume: the summary of a pulse stream, one of its records, and an addition.
ghost use Rattle.std.specs.Prelude.{◌≡◌, ◌≤◌, length};
ghost use Rattle.format.specs.Rules.Length.{work_need};
ghost use Rattle.tables.specs.Work.{Wrote};
ghost use Rattle.opened.specs.OpenVolume.{OpenVolume};
ghost use Rattle.pulse_laws.specs.Calls.{summary_reply, record_reply, add_reply, image_added};
ghost use Rattle.pulse_records.specs.Records.{pulse_of};
ghost use Rattle.pulse.specs.Found.{PulsesAt, PulsesFound};
ghost use Rattle.pulse.specs.Replies.{summary_reply_of, record_reply_of, added_reply_of};

use super::answers::{PulseRefusal, Totals};
use super::stream::{parse, read_pulse};
use opened::{overwrite_opened, set_length_opened};
use pulse_records::trailers::put_tail;
use pulse_records::{Pulse, Records, Trailer};
use queries::find::Object;
use streams::{find_stream, open_stream};
use volume::Volume;

// ---- finding

// A pulse stream, and what its trailer says.
#[derive(Clone, Copy)]
pub struct PulseStream {
    pub object: Object,
    pub trailer: Trailer,
}

// The pulse stream that a path leads to. Its units are listed then.
fn find_pulses(
    image: &[u8],
    work: &mut [u32],
    v: Volume,
    path: &[u16],
) -> Result<PulseStream, PulseRefusal>
    requires { OpenVolume v image.now work.old }
    ensures pulses_found { PulsesFound v image.now path.now work.old work.new result }
    ensures open_volume { OpenVolume v image.now work.new }
    ensures wrote { Wrote work.old work.new 0 (work_need (length image.now)) }
{
    let object = find_stream(image, work, v, path)?;
    open_stream(image, work, v, object);
    let trailer = parse(image, work, v, object).ok_or(PulseRefusal::NotPulses)?;
    Ok(PulseStream { object, trailer })
}

// ---- reading

// How many records the pulse stream at a path has, and how many ticks.
pub fn summary_in(
    image: &[u8],
    work: &mut [u32],
    v: Volume,
    path: &[u16],
) -> Result<Totals, PulseRefusal>
    requires { OpenVolume v image.now work.old }
    ensures result_value { summary_reply_of result ≡ summary_reply image.now path.now work.old }
    ensures open_volume { OpenVolume v image.now work.new }
    ensures wrote { Wrote work.old work.new 0 (work_need (length image.now)) }
{
    let t = find_pulses(image, work, v, path)?.trailer;
    Ok(Totals {
        count: t.count,
        total: t.total,
    })
}

// The pulse of the record of a number.
pub fn record_in(
    image: &[u8],
    work: &mut [u32],
    v: Volume,
    path: &[u16],
    number: Records,
) -> Result<Pulse, PulseRefusal>
    requires { OpenVolume v image.now work.old }
    ensures result_value { record_reply_of result ≡ record_reply image.now path.now number.0 work.old }
    ensures open_volume { OpenVolume v image.now work.new }
    ensures wrote { Wrote work.old work.new 0 (work_need (length image.now)) }
{
    let s = find_pulses(image, work, v, path)?;
    let e = s.object;
    let t = s.trailer;
    if !number.below(t.count) {
        return Err(PulseRefusal::NoRecord);
    }
    let first = (e.size - t.distance as u64) as usize;
    Ok(read_pulse(image, work, v, e, first + number.bytes()))
}

// ---- adding

// Puts a pulse behind the others of a stream: it grows by a record, and record and trailer go where the old trailer stood.
fn append(
    image: &mut [u8],
    work: &mut [u32],
    v: Volume,
    path: &[u16],
    s: PulseStream,
    p: Pulse,
) -> Result<(), PulseRefusal>
    requires pulses_at { PulsesAt v image.old path.now work.old s }
    requires le_ticks { 1 ≤ p.ticks.0 }
    ensures result_value { added_reply_of result ≡ add_reply image.old path.now (pulse_of p) work.old }
    ensures image_after { image.new ≡ image_added image.old path.now (pulse_of p) work.old }
    ensures open_volume { OpenVolume v image.new work.new }
    ensures wrote { Wrote work.old work.new 0 (work_need (length image.old)) }
{
    let e = s.object;
    let t = s.trailer;
    set_length_opened(image, work, v, path, e.size + 8)?;
    let mut tail = [0u8; 24];
    put_tail(
        &mut tail,
        p,
        t.count.plus(Records::ONE),
        t.total.plus(p.ticks),
    );
    // The bytes end where the stream does now, so this is not refused.
    let _ = overwrite_opened(image, work, v, path, e.size - 16, &tail);
    Ok(())
}

// Adds a pulse to the pulse stream at a path.
pub fn add_in(
    image: &mut [u8],
    work: &mut [u32],
    v: Volume,
    path: &[u16],
    p: Pulse,
) -> Result<(), PulseRefusal>
    requires { OpenVolume v image.old work.old }
    ensures result_value { added_reply_of result ≡ add_reply image.old path.now (pulse_of p) work.old }
    ensures image_after { image.new ≡ image_added image.old path.now (pulse_of p) work.old }
    ensures open_volume { OpenVolume v image.new work.new }
    ensures wrote { Wrote work.old work.new 0 (work_need (length image.old)) }
{
    let s = find_pulses(image, work, v, path)?;
    if !p.ticks.some() {
        return Err(PulseRefusal::NoTicks);
    }
    append(image, work, v, path, s, p)
}
