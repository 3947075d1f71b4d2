// Pulse streams for C: as the other calls, an answer is the papers' number, and values go out through pointers.
ghost use Rattle.std.specs.Prelude.{◌≡◌};
ghost use Rattle.pulse_laws.specs.Calls.{summary_answer, record_answer, add_answer, summary_reply, record_reply, add_reply};
ghost use Rattle.pulse_laws.specs.Calls.{number_alone, image_added, work_after_pulse};
ghost use Rattle.pulse_laws.specs.Pulse.{Pulse};

use pulse::{add, record, summary};
use pulse_records::{Records, Ticks, Valve};

#[unsafe(no_mangle)]
pub extern "C" fn pulse_summary(
    image: &[u8],
    work: &mut [u32],
    path: &[u16],
    count: &mut u32,
    total: &mut u64,
) -> u32
    ensures total_after { record { number = result; valve = 0; ticks = 0; count = count.new; total = total.new }
        ≡ summary_reply image.now path.now work.old }
    ensures work_after { work.new
        ≡ work_after_pulse image.now (summary_answer image.now path.now work.old) work.old }
{
    match summary(image, work, path) {
        Ok(t) => {
            *count = t.count.0;
            *total = t.total.0;
            0
        }
        Err(a) => {
            *count = 0;
            *total = 0;
            u32::from(a)
        }
    }
}

#[unsafe(no_mangle)]
pub extern "C" fn pulse_record(
    image: &[u8],
    work: &mut [u32],
    path: &[u16],
    number: u32,
    valve: &mut u16,
    ticks: &mut u32,
) -> u32
    ensures total_after { record { number = result; valve = valve.new; ticks = ticks.new; count = 0; total = 0 }
        ≡ record_reply image.now path.now number work.old }
    ensures work_after { work.new
        ≡ work_after_pulse image.now (record_answer image.now path.now number work.old) work.old }
{
    match record(image, work, path, Records(number)) {
        Ok(p) => {
            *valve = p.valve.0;
            *ticks = p.ticks.0;
            0
        }
        Err(a) => {
            *valve = 0;
            *ticks = 0;
            u32::from(a)
        }
    }
}

#[unsafe(no_mangle)]
pub extern "C" fn pulse_add(
    image: &mut [u8],
    work: &mut [u32],
    path: &[u16],
    valve: u16,
    ticks: u32,
) -> u32
    ensures result_value { number_alone result
        ≡ add_reply image.old path.now (record { valve = valve; ticks = ticks }) work.old }
    ensures image_after { image.new
        ≡ image_added image.old path.now (record { valve = valve; ticks = ticks }) work.old }
    ensures work_after { work.new
        ≡ work_after_pulse image.old
        (add_answer image.old path.now (record { valve = valve; ticks = ticks }) work.old) work.old }
{
    match add(image, work, path, Valve(valve), Ticks(ticks)) {
        Ok(()) => 0,
        Err(a) => u32::from(a),
    }
}
