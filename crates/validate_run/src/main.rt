// Reads images from standard input, each behind its length of four bytes, and prints for each the number that validation gives.
#![tactic(auto)]

use cfb::validate;
use kinds::number;
use le::u32_at;

// One image; says whether there was one.
fn one() -> bool {
    let mut size = [0u8; 4];
    if io::read_full(0, &mut size) < 4 {
        return false;
    }
    let n = u32_at(&size, 0) as usize;
    let mut image = io::large_buffer();
    if 65536 < n {
        return false;
    }
    if io::read_full(0, &mut image[..n]) < n {
        return false;
    }
    let mut work = [0u32; 1664];
    let answer = number(validate(&image[..n], &mut work));
    io::print_decimal(1, answer as u64);
    io::write_all(1, b"\n")
}

// A proved loop has to end: no run uses up the turns.
fn main() {
    for _ in 0..1000000 {
        if !one() {
            return;
        }
    }
}
