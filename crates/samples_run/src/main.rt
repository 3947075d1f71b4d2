// Reads files from standard input, each behind its length of four bytes, and prints for each what the lister prints.
#![tactic(auto)]

use cfb::list;
use le::u32_at;

// The line of a refusal.
fn print_refused(n: u32) -> bool {
    io::write_all(1, b"refused ");
    io::print_decimal(1, n as u64);
    io::write_all(1, b"\n")
}

// Prints the listing of an image, or the number of the answer.
fn print_list(image: &[u8]) -> bool {
    let mut work = [0u32; 1664];
    let mut out = io::large_buffer();
    match list(image, &mut work, &mut out) {
        Ok(n) => {
            if 65536 < n {
                return false;
            }
            io::write_all(1, &out[..n])
        }
        Err(a) => print_refused(u32::from(a)),
    }
}

// Reads a file into the buffer, which is as long as the file; says whether it was there.
fn show(image: &mut [u8]) -> bool {
    if io::read_full(0, image) < image.len() {
        return false;
    }
    print_list(image)
}

// One file; says whether there was one.
fn one() -> bool {
    let mut size = [0u8; 4];
    if io::read_full(0, &mut size) < 4 {
        return false;
    }
    let n = u32_at(&size, 0) as usize;
    if 65536 < n {
        return false;
    }
    let mut image = io::large_buffer();
    show(&mut image[..n])
}

// A proved loop has to end: no run uses up the turns.
fn main() {
    for _ in 0..1000000 {
        if !one() {
            return;
        }
    }
}
