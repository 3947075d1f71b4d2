// What the calls on pulse streams answer.
ghost use Rattle.std.specs.Prelude.{◌≡◌};
ghost use Rattle.pulse.specs.Replies.{pulse_number};
ghost use Rattle.pulse.specs.declared.answers.PulseRefusal.TheVariants.{File};

use kinds::Refusal;
use pulse_records::{Records, TotalTicks};

// Why a call is refused: as any call on the file; no pulse stream; no ticks to add; no record of that number.
#[derive(Clone, Copy)]
pub enum PulseRefusal {
    File(Refusal),
    NotPulses,
    NoTicks,
    NoRecord,
}

impl From<Refusal> for PulseRefusal {
    ghost from_gives = { λ a r. r ≡ File a };

    fn from(a: Refusal) -> PulseRefusal {
        PulseRefusal::File(a)
    }
}

impl From<PulseRefusal> for u32 {
    ghost from_gives = { λ a r. r ≡ pulse_number a };

    fn from(a: PulseRefusal) -> u32 {
        match a {
            PulseRefusal::File(b) => u32::from(b),
            PulseRefusal::NotPulses => 40,
            PulseRefusal::NoTicks => 41,
            PulseRefusal::NoRecord => 42,
        }
    }
}

// How many records a pulse stream has, and how many ticks.
#[derive(Clone, Copy)]
pub struct Totals {
    pub count: Records,
    pub total: TotalTicks,
}
