// Pulses, ticks and records: each kind of number is a type of its own.
#![tactic(auto)]

ghost use Rattle.std.specs.Prelude.{◌≡◌, ◌&&◌, ◌+◌, ◌-◌, ◌*◌, ◌≤◌, ◌<◌, min, eqb, leb, ltb};
ghost use Rattle.pulse_laws.specs.Pulse.{distance_for};

pub mod sums;
pub mod trailers;

// ---- pulses

// The number of a valve.
#[derive(Clone, Copy)]
pub struct Valve(pub u16);

// The ticks of one pulse, each of 0.1 ms.
#[derive(Clone, Copy)]
pub struct Ticks(pub u32);

impl Ticks {
    // Whether there is at least one.
    pub fn some(self) -> bool
        ensures { result ≡ leb 1 self.0 }
    {
        1 <= self.0
    }
}

#[derive(Clone, Copy)]
pub struct Pulse {
    pub valve: Valve,
    pub ticks: Ticks,
}

// The ticks of many pulses.
#[derive(Clone, Copy, PartialEq, Eq)]
pub struct TotalTicks(pub u64);

impl TotalTicks {
    pub const NONE: TotalTicks = TotalTicks(0);

    // With those of one pulse more.
    pub fn plus(self, t: Ticks) -> TotalTicks
        requires { self.0 + t.0 < 0x1_0000_0000_0000_0000 }
        ensures { result.0 ≡ self.0 + t.0 }
    {
        TotalTicks(self.0 + t.0 as u64)
    }
}

// ---- records

// How many records, or the number of one, the first being 0.
#[derive(Clone, Copy)]
pub struct Records(pub u32);

impl Records {
    pub const NONE: Records = Records(0);

    pub const ONE: Records = Records(1);

    // Whether it is one of the first n.
    pub fn below(self, n: Records) -> bool
        ensures { result ≡ ltb self.0 n.0 }
    {
        self.0 < n.0
    }

    pub fn plus(self, n: Records) -> Records
        requires { self.0 + n.0 < 0x1_0000_0000 }
        ensures { result.0 ≡ self.0 + n.0 }
    {
        Records(self.0 + n.0)
    }

    // Those from record n on, but so many at most.
    pub fn from(self, n: Records, most: Records) -> Records
        requires { n.0 ≤ self.0 }
        ensures { result.0 ≡ min (self.0 - n.0) most.0 }
    {
        Records(most.0.min(self.0 - n.0))
    }

    // The bytes that they take.
    pub fn bytes(self) -> usize
        ensures { result ≡ 8 * self.0 }
    {
        8 * (self.0 as usize)
    }

    // From the end of a stream that has so many back to the first.
    pub fn distance(self) -> u64
        ensures { result ≡ distance_for self.0 }
    {
        16 + 8 * (self.0 as u64)
    }
}

// What a stream's last bytes say of its records.
#[derive(Clone, Copy)]
pub struct Trailer {
    pub distance: u32,
    pub count: Records,
    pub total: TotalTicks,
}

impl Trailer {
    // Whether it agrees with itself, and with the length of its stream.
    pub fn agrees(self, size: u64) -> bool
        ensures { result ≡ (eqb self.distance (distance_for self.count.0) && leb self.distance size) }
    {
        let distance = self.distance as u64;
        (distance == self.count.distance()) & (distance <= size)
    }
}
