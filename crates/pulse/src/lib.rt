// Pulse streams: how many records and ticks one has, one of its records, and a pulse more. As of `cfb`, no call requires anything, and every call
// ends and answers.
#![tactic(auto)]

ghost use Rattle.std.specs.Prelude.{◌≡◌};
ghost use Rattle.pulse_laws.specs.Calls.{summary_answer, record_answer, add_answer, summary_reply, record_reply, add_reply, image_added, work_after_pulse};
ghost use Rattle.pulse.specs.Replies.{summary_reply_of, record_reply_of, added_reply_of, pulse_for};

pub mod answers;
pub mod calls;
pub mod stream;

use answers::{PulseRefusal, Totals};
use calls::{add_in, record_in, summary_in};
use opened::{close, open_image};
use pulse_records::{Pulse, Records, Ticks, Valve};

// How many records the pulse stream at a path has, and how many ticks.
pub fn summary(image: &[u8], work: &mut [u32], path: &[u16]) -> Result<Totals, PulseRefusal>
    ensures result_value { summary_reply_of result ≡ summary_reply image.now path.now work.old }
    ensures work_after { work.new
        ≡ work_after_pulse image.now (summary_answer image.now path.now work.old) work.old }
{
    let v = open_image(image, work)?;
    let r = summary_in(image, work, v, path);
    close(image, work, v);
    r
}

// The pulse of the record of a number, the first being 0.
pub fn record(
    image: &[u8],
    work: &mut [u32],
    path: &[u16],
    number: Records,
) -> Result<Pulse, PulseRefusal>
    ensures result_value { record_reply_of result ≡ record_reply image.now path.now number.0 work.old }
    ensures work_after { work.new
        ≡ work_after_pulse image.now (record_answer image.now path.now number.0 work.old) work.old }
{
    let v = open_image(image, work)?;
    let r = record_in(image, work, v, path, number);
    close(image, work, v);
    r
}

// Adds a pulse to the pulse stream at a path: a record behind the others, and its ticks to the total.
pub fn add(
    image: &mut [u8],
    work: &mut [u32],
    path: &[u16],
    valve: Valve,
    ticks: Ticks,
) -> Result<(), PulseRefusal>
    ensures result_value { added_reply_of result ≡ add_reply image.old path.now (pulse_for valve ticks) work.old }
    ensures image_after { image.new ≡ image_added image.old path.now (pulse_for valve ticks) work.old }
    ensures work_after { work.new
        ≡ work_after_pulse image.old (add_answer image.old path.now (pulse_for valve ticks) work.old)
        work.old }
{
    let v = open_image(image, work)?;
    let r = add_in(image, work, v, path, Pulse { valve, ticks });
    close(image, work, v);
    r
}
