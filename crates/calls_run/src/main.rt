// Runs calls on images, and prints what each call gives and leaves. Standard input holds groups: an image behind its length and the number of
// its calls, and then those calls; the image goes from call to call, with the edits made on it. `tools/calls_cases.py` writes them, and
// `tools/groups.py` says how a call is laid out.
#![tactic(auto)]

ghost use Rattle.std.specs.Prelude.{◌≤◌};

use cfb::{
    create_storage, create_stream, find, format_image, list, overwrite, read, read_at, remove,
    repair, set_length, validate,
};
use kinds::{EntryId, Refusal, number};
use le::{u16_at, u32_at, u64_at};
use pulse::answers::{PulseRefusal, Totals};
use pulse::{add, record, summary};
use pulse_records::{Pulse, Records, Ticks, Valve};
use queries::find::Object;
use run_output::{digest, print_next, zeros};

// ---- what a call gives

#[derive(Clone, Copy)]
struct Values {
    number: u32,
    entry: u32,
    kind: u8,
    size: u64,
    count: u64,
}

fn plain(n: u32) -> Values {
    Values {
        number: n,
        entry: 0,
        kind: 0,
        size: 0,
        count: 0,
    }
}

fn counted(n: u64) -> Values {
    Values {
        count: n,
        ..plain(0)
    }
}

fn found(r: Result<Object, Refusal>) -> Values {
    match r {
        Ok(e) => Values {
            entry: e.id.0,
            kind: e.entry_type.0,
            size: e.size,
            ..plain(0)
        },
        Err(a) => plain(u32::from(a)),
    }
}

fn copied(r: Result<usize, Refusal>) -> Values {
    match r {
        Ok(n) => counted(n as u64),
        Err(a) => plain(u32::from(a)),
    }
}

fn repaired(r: Result<u64, Refusal>) -> Values {
    match r {
        Ok(n) => counted(n),
        Err(a) => plain(u32::from(a)),
    }
}

// The total of a summary stands with the sizes.
fn summed(r: Result<Totals, PulseRefusal>) -> Values {
    match r {
        Ok(t) => Values {
            size: t.total.0,
            count: t.count.0 as u64,
            ..plain(0)
        },
        Err(a) => plain(u32::from(a)),
    }
}

// The valve of a record stands with the entries, its ticks with the sizes.
fn recorded(r: Result<Pulse, PulseRefusal>) -> Values {
    match r {
        Ok(p) => Values {
            entry: p.valve.0 as u32,
            size: p.ticks.0 as u64,
            ..plain(0)
        },
        Err(a) => plain(u32::from(a)),
    }
}

fn added(r: Result<(), PulseRefusal>) -> Values {
    match r {
        Ok(()) => plain(0),
        Err(a) => plain(u32::from(a)),
    }
}

// A fresh image, by the plan that stands in the bytes, if there are as many as a plan has: version, N, the sectors of directory and mini FAT, and K.
fn fresh(image: &mut [u8], bytes: &[u8]) -> Option<Values> {
    if bytes.len() < 36 {
        return None;
    }
    let version = u32_at(bytes, 0);
    let sectors = u64_at(bytes, 4);
    let directory = u64_at(bytes, 12);
    let minifat = u64_at(bytes, 20);
    let minis = u64_at(bytes, 28);
    let a = format_image(image, version, sectors, directory, minifat, minis);
    Some(plain(number(a)))
}

// The call of a kind: 0 validates, 1 finds, 2 reads, 3 lists, 4 overwrites, 5 sets a length, 6 creates a
// stream, 7 a storage, 8 removes, 9 writes a fresh image, 10 repairs, with the bytes as spare buffer, 11 reads at an entry, 12 sums up a
// pulse stream, 13 gives its record of a number, 14 adds ticks of a valve to it, whose number is the place.
fn make(
    kind: u32,
    image: &mut [u8],
    work: &mut [u32],
    path: &[u16],
    place: u64,
    last: u32,
    bytes: &mut [u8],
) -> Option<Values> {
    match kind {
        0 => Some(plain(number(validate(image, work)))),
        1 => Some(found(find(image, work, path))),
        2 => Some(copied(read(image, work, path, place, bytes))),
        3 => Some(copied(list(image, work, bytes))),
        4 => Some(plain(number(overwrite(image, work, path, place, bytes)))),
        5 => Some(plain(number(set_length(image, work, path, place)))),
        6 => Some(plain(number(create_stream(image, work, path)))),
        7 => Some(plain(number(create_storage(image, work, path)))),
        8 => Some(plain(number(remove(image, work, path)))),
        9 => fresh(image, bytes),
        10 => Some(repaired(repair(image, work, bytes))),
        11 => Some(copied(read_at(image, work, EntryId(last), place, bytes))),
        12 => Some(summed(summary(image, work, path))),
        13 => Some(recorded(record(image, work, path, Records(last)))),
        14 => Some(added(add(
            image,
            work,
            path,
            Valve((place % 65536) as u16),
            Ticks(last),
        ))),
        _ => None,
    }
}

// ---- printing

fn print_values(v: Values) {
    io::print_decimal(1, v.number as u64);
    print_next(v.entry as u64);
    print_next(v.kind as u64);
    print_next(v.size);
    print_next(v.count);
}

// ---- reading

// A length of the input, cut to what there is room for.
fn within(n: u32, most: usize) -> usize
    ensures { result ≤ most }
{
    (n as usize).min(most)
}

// Reads the units of a path; says whether they were there.
fn read_path(path: &mut [u16]) -> bool {
    for to in path.iter_mut() {
        let mut unit = [0u8; 2];
        if io::read_full(0, &mut unit) < 2 {
            return false;
        }
        *to = u16_at(&unit, 0);
    }
    true
}

// ---- a call: its head, its path, its bytes, and then the call

// Makes the call on the buffers that are lent, and prints its line. Says whether there was one.
fn run(
    head: &[u8; 32],
    image: &mut [u8],
    work: &mut [u32],
    path: &[u16],
    bytes: &mut [u8],
) -> bool {
    let kind = u32_at(head, 0);
    let place = u64_at(head, 20);
    let last = u32_at(head, 28);
    let Some(v) = make(kind, image, work, path, place, last, bytes) else {
        io::write_all(1, b"unknown\n");
        return false;
    };
    print_values(v);
    print_next(zeros(work) as u64);
    print_next(digest(bytes));
    print_next(digest(image));
    io::write_all(1, b"\n")
}

// Reads the bytes that are given. The work buffer is all 7 before the call.
fn with_bytes(head: &[u8; 32], image: &mut [u8], path: &[u16], bytes: &mut [u8]) -> bool {
    let given = within(u32_at(head, 16), bytes.len());
    if io::read_full(0, &mut bytes[..given]) < given {
        return false;
    }
    let numbers = within(u32_at(head, 8), 2048);
    let mut work = [7u32; 2048];
    run(head, image, &mut work[..numbers], path, bytes)
}

// Reads the path. The bytes that are not given are 90.
fn with_path(head: &[u8; 32], image: &mut [u8], path: &mut [u16]) -> bool {
    if !read_path(path) {
        return false;
    }
    let room = within(u32_at(head, 12), 65536);
    let mut bytes = [90u8; 65536];
    with_bytes(head, image, path, &mut bytes[..room])
}

// One call; says whether there was one.
fn call(image: &mut [u8]) -> bool {
    let mut head = [0u8; 32];
    if io::read_full(0, &mut head) < 32 {
        return false;
    }
    let units = within(u32_at(&head, 4), 256);
    let mut path = [0u16; 256];
    with_path(&head, image, &mut path[..units])
}

// Reads an image, and makes so many calls on it; says whether they were there.
fn calls(image: &mut [u8], count: u32) -> bool {
    if io::read_full(0, image) < image.len() {
        return false;
    }
    for _ in 0..count {
        if !call(image) {
            return false;
        }
    }
    true
}

// One image and its calls; says whether there was one.
fn group() -> bool {
    let mut head = [0u8; 8];
    if io::read_full(0, &mut head) < 8 {
        return false;
    }
    let n = within(u32_at(&head, 0), 65536);
    let mut image = io::large_buffer();
    calls(&mut image[..n], u32_at(&head, 4))
}

// A proved loop has to end: no run uses up the turns.
fn main() {
    for _ in 0..1000000 {
        if !group() {
            return;
        }
    }
}
