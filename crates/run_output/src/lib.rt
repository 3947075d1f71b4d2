// What the programs of the gate print of what a call leaves.
#![tactic(auto)]

ghost use Rattle.std.specs.Prelude.{◌≡◌, ◌+◌, ◌*◌, ◌%◌, ◌==◌, fold, count_by};

// A number that each byte has a part in. By a loop and no `fold`: that a step fits rests on the number so far.
pub fn digest(b: &[u8]) -> u64
    ensures { result ≡ fold (λ h x. (h * 16777619 + x) % 0x1_0000_0000) 1 b.now }
{
    let mut h: u64 = 1;
    for x in b {
        h = (h * 16777619 + u64::from(*x)) % 0x1_0000_0000;
    }
    h
}

// How many numbers are 0.
pub fn zeros(work: &[u32]) -> usize
    ensures { result ≡ count_by (λ n. n == 0) work.now }
{
    work.iter().filter(|n| **n == 0).count()
}

// A number behind a space.
pub fn print_next(n: u64) {
    io::write_all(1, b" ");
    io::print_decimal(1, n);
}
