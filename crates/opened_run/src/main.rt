// Makes calls in a row on the image on standard input, opened once, and prints what they give and leave. `tools/opened_case.py` says what that is.
#![tactic(auto)]

ghost use Rattle.std.specs.Prelude.{◌≡◌};
ghost use Rattle.opened.specs.OpenVolume.{OpenVolume};
ghost use Rattle.opened.specs.Sequence.{OpenedCalls};
ghost use Rattle.opened_run.specs.Row.{row_calls, row_given, RowRight};

use kinds::{Refusal, number};
use opened::{
    close, find_opened, list_opened, open_image, overwrite_opened, read_opened, set_length_opened,
};
use queries::find::Object;
use run_output::{digest, print_next, zeros};
use volume::Volume;

// ---- the calls

// What each of the calls answered.
#[derive(Clone, Copy)]
struct Steps {
    length: Result<(), Refusal>,
    overwrite: Result<(), Refusal>,
    find: Result<Object, Refusal>,
    read: Result<usize, Refusal>,
    list: Result<usize, Refusal>,
}

// Gives a stream another length, puts bytes into it, finds it, reads it from there on, and lists everything.
fn calls(
    image: &mut [u8],
    work: &mut [u32],
    v: Volume,
    path: &[u16],
    new: u64,
    offset: u64,
    bytes: &[u8],
    out: &mut [u8],
    text: &mut [u8],
) -> Steps
    requires { OpenVolume v image.old work.old }
    ensures { OpenedCalls v image.old work.old
        (row_calls path.now new offset bytes.now out.old text.old)
        (row_given result out.new text.new) image.new work.new }
{
    let length = set_length_opened(image, work, v, path, new);
    let overwrite = overwrite_opened(image, work, v, path, offset, bytes);
    let find = find_opened(image, work, v, path);
    let read = read_opened(image, work, v, path, offset, out);
    let list = list_opened(image, work, v, text);
    Steps {
        length,
        overwrite,
        find,
        read,
        list,
    }
}

// Opens a volume, makes the calls, and closes it.
fn in_a_row(
    image: &mut [u8],
    work: &mut [u32],
    path: &[u16],
    new: u64,
    offset: u64,
    bytes: &[u8],
    out: &mut [u8],
    text: &mut [u8],
) -> Result<Steps, Refusal>
    ensures { RowRight
        (row_calls path.now new offset bytes.now out.old text.old)
        (record { image = image.entry.now; work = work.old; out = out.old; text = text.old })
        (record { image = image.exit.now; work = work.new; out = out.new; text = text.new }) result }
{
    let v = open_image(image, work)?;
    let steps = calls(image, work, v, path, new, offset, bytes, out, text);
    close(image, work, v);
    Ok(steps)
}

// ---- printing

// A line: a word, and a number.
fn print_line(word: &[u8], n: u64) {
    io::write_all(1, word);
    print_next(n);
    io::write_all(1, b"\n");
}

fn print_find(r: Result<Object, Refusal>) {
    match r {
        Ok(e) => {
            io::write_all(1, b"find 0");
            print_next(e.id.0 as u64);
            print_next(e.entry_type.0 as u64);
            print_line(b"", e.size);
        }
        Err(a) => print_line(b"find", u32::from(a) as u64),
    }
}

fn print_read(r: Result<usize, Refusal>) {
    match r {
        Ok(n) => print_line(b"read 0", n as u64),
        Err(a) => print_line(b"read", u32::from(a) as u64),
    }
}

fn print_list(r: Result<usize, Refusal>) {
    match r {
        Ok(n) => print_line(b"list 0", n as u64),
        Err(a) => print_line(b"list", u32::from(a) as u64),
    }
}

fn print_steps(s: Steps) {
    print_line(b"length", number(s.length) as u64);
    print_line(b"overwrite", number(s.overwrite) as u64);
    print_find(s.find);
    print_read(s.read);
    print_list(s.list);
}

fn print_outcome(r: Result<Steps, Refusal>) {
    match r {
        Ok(s) => print_steps(s),
        Err(a) => print_line(b"refused", u32::from(a) as u64),
    }
}

fn print_bytes(b: &[u8]) {
    io::write_all(1, b);
    io::write_all(1, b"\n");
}

// ---- the runs

// Makes the calls, and prints what they answer and leave: both out buffers, which hold dots before, the work buffer and the image.
fn run(image: &mut [u8], work: &mut [u32], path: &[u16]) {
    let mut out = [46u8; 64];
    let mut text = [46u8; 64];
    print_outcome(in_a_row(
        image,
        work,
        path,
        4150,
        4090,
        b"[over the end of a sector]",
        &mut out,
        &mut text,
    ));
    print_bytes(&out);
    print_bytes(&text);
    print_line(b"zeros", zeros(work) as u64);
    print_line(b"image", digest(image));
}

// `Site/log`; `Site/lag`, which is not there; and a work buffer that is a number too short for 7,680 bytes.
fn runs(image: &mut [u8]) {
    let mut work = [7u32; 1664];
    run(
        image,
        &mut work,
        &[0x53, 0x69, 0x74, 0x65, 0x2F, 0x6C, 0x6F, 0x67],
    );
    run(
        image,
        &mut work,
        &[0x53, 0x69, 0x74, 0x65, 0x2F, 0x6C, 0x61, 0x67],
    );
    let mut short = [7u32; 194];
    run(
        image,
        &mut short,
        &[0x53, 0x69, 0x74, 0x65, 0x2F, 0x6C, 0x6F, 0x67],
    );
}

fn main() {
    let mut image = io::large_buffer();
    let n = io::read_full(0, &mut image);
    runs(&mut image[..n]);
}
