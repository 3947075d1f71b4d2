// Validates images that are nearly all tables or nearly all zero, and prints the number that each gets. Standard input holds groups: the length of
// an image, the number of its fills, and then those fills; bytes that no fill writes are zero. `tools/tables_images.py` writes them.
#![tactic(auto)]

ghost use Rattle.std.specs.Prelude.{◌≡◌, ◌≤◌, length};

use cfb::validate;
use kinds::number;
use le::{put_u32, u32_at};

// Room for 1,139 sectors behind the header: 1,126 FAT sectors and 9 DIFAT sectors fit.
fn room() -> [u8; 583680]
    ensures { 583680 ≡ length result }
{
    [0; 583680]
}

// A length of the input, cut to that room.
fn within(n: u32) -> usize
    ensures { result ≤ 583680 }
{
    (n as usize).min(583680)
}

// Writes a number where there is room for it.
fn put(image: &mut [u8], at: usize, v: u32) {
    if image.len() < 4 || image.len() - 4 < at {
        return;
    }
    put_u32(image, at, v);
}

// Writes so many numbers from a place on, each more than the one before by the step.
fn fill(image: &mut [u8], place: u32, count: u32, first: u32, step: u32) {
    let mut v = first;
    for i in 0..count {
        put(image, place as usize + 4 * (i as usize), v);
        v = v.wrapping_add(step);
    }
}

// Reads a fill and makes it; says whether it was there.
fn read_fill(image: &mut [u8]) -> bool {
    let mut words = [0u8; 16];
    if io::read_full(0, &mut words) < 16 {
        return false;
    }
    fill(
        image,
        u32_at(&words, 0),
        u32_at(&words, 4),
        u32_at(&words, 8),
        u32_at(&words, 12),
    );
    true
}

// So many fills; says whether they were there.
fn fills(image: &mut [u8], count: u32) -> bool {
    for _ in 0..count {
        if !read_fill(image) {
            return false;
        }
    }
    true
}

// Lends as many numbers as the image needs, and prints the answer; says whether that went well.
fn answer(image: &[u8]) -> bool {
    let mut work = [7u32; 14820];
    let need = 13 * (image.len() / 512);
    if 14820 < need {
        return false;
    }
    let n = number(validate(image, &mut work[..need]));
    io::print_decimal(1, n as u64);
    io::write_all(1, b"\n")
}

// One image; says whether there was one.
fn group() -> bool {
    let mut head = [0u8; 8];
    if io::read_full(0, &mut head) < 8 {
        return false;
    }
    let mut image = room();
    if !fills(&mut image, u32_at(&head, 4)) {
        return false;
    }
    let n = within(u32_at(&head, 0));
    answer(&image[..n])
}

// A proved loop has to end: no run uses up the turns.
fn main() {
    for _ in 0..1000000 {
        if !group() {
            return;
        }
    }
}
