// Lines of the listing: how long one is, and writing one into the out buffer behind those that stand there already.
#![tactic(auto)]

ghost use Rattle.std.specs.Prelude.{◌≡◌, ◌+◌, ◌≤◌, ◌<◌, length};
ghost use Rattle.format.specs.Basics.Bytes.{part};
ghost use Rattle.format.specs.Calls.Read.{over};
ghost use Rattle.entries.specs.Entry.{entry_at, NamedAt};
ghost use Rattle.lines.specs.Lines.{width_of, head, before_length, line_length, put_at, before_put, line_put};

use entries::{entry_type, size};
use kinds::Geometry;
use text::{decimal_length, name_length, put_decimal, put_name};

// ---- lengths

// How many bytes a line of the entry at p has before its path: `F SIZE ` or `D 0 `.
#[tactic(auto, unfolding(crate::specs::Lines::head), using(text::proofs::Decimals::decimal_most))]
fn head_length(img: &[u8], p: usize, g: Geometry) -> usize
    requires { p + 128 ≤ length img.now }
    ensures { result ≡ length (head (width_of g) (entry_at img.now p)) }
{
    if entry_type(img, p).is_stream() {
        return decimal_length(size(img, p, g)) + 3;
    }
    4
}

// How many bytes the line of the entry at p has, if its parent's path has so many; 0 is the root's.
#[tactic(auto, unfolding(crate::specs::Lines::line_length, crate::specs::Lines::before_length), using(crate::proofs::LineLengths::parts_few))]
pub fn line_length(img: &[u8], p: usize, g: Geometry, parent: usize) -> usize
    requires named_at { NamedAt img.now p }
    requires parent_bound { parent < 0x1_0000_0000 }
    ensures { result ≡ line_length (width_of g) (entry_at img.now p) parent }
{
    let n = head_length(img, p, g) + name_length(img, p) + 1;
    if parent == 0 {
        return n;
    }
    n + parent + 1
}

// ---- writing

// Writes what stands in a line before the path, and returns how many bytes it takes.
#[tactic(auto, unfolding(crate::specs::Lines::head), using(text::proofs::Decimals::decimal_most))]
fn put_head(out: &mut [u8], img: &[u8], p: usize, g: Geometry) -> usize
    requires p_in_bounds { p + 128 ≤ length img.now }
    requires p_in_bounds_2 { length (head (width_of g) (entry_at img.now p)) ≤ length out.old }
    ensures count { result ≡ length (head (width_of g) (entry_at img.now p)) }
    ensures written { out.new ≡ over (head (width_of g) (entry_at img.now p)) out.old }
{
    if entry_type(img, p).is_stream() {
        out[..2].copy_from_slice(b"F ");
        let n = put_decimal(&mut out[2..], size(img, p, g));
        out[2 + n] = b' ';
        return n + 3;
    }
    out[..4].copy_from_slice(b"D 0 ");
    4
}

// Copies n bytes from a place of a buffer to a later one. By a loop that goes up, which is faster than std's `copy_within`, which goes down here.
fn copy_within(out: &mut [u8], from: usize, to: usize, n: usize)
    requires n_bound { from + n ≤ to }
    requires n_in_bounds { to + n ≤ length out.old }
    ensures { out.new ≡ put_at out.old to n (part out.old from n) }
{
    for i in 0..n {
        out[to + i] = out[from + i];
    }
}

// Copies a parent's path of so many bytes to a later place, and writes a slash behind it; of the root's, 0, nothing. Returns how many bytes that takes.
#[tactic(auto, unfolding(crate::specs::Lines::before_length))]
fn put_before(out: &mut [u8], at: usize, from: usize, parent: usize) -> usize
    requires parent_bound { from + parent ≤ at }
    requires parent_in_bounds { at + before_length parent ≤ length out.old }
    ensures count { result ≡ before_length parent }
    ensures written { out.new ≡ before_put at from parent out.old }
{
    if parent == 0 {
        return 0;
    }
    copy_within(out, from, at, parent);
    out[at + parent] = b'/';
    parent + 1
}

// Writes the line of the entry at p from `at` on. Its parent's path stands in the buffer already, from `from` on: so many bytes; 0 is the root's.
// Returns where the line's own path starts.
#[tactic(auto, unfolding(crate::specs::Lines::line_length))]
pub fn put_line(
    out: &mut [u8],
    at: usize,
    img: &[u8],
    p: usize,
    g: Geometry,
    from: usize,
    parent: usize,
) -> usize
    requires named_at { NamedAt img.now p }
    requires parent_bound { from + parent ≤ at }
    requires parent_in_bounds { at + line_length (width_of g) (entry_at img.now p) parent ≤ length out.old }
    ensures path { result ≡ at + length (head (width_of g) (entry_at img.now p)) }
    ensures written { out.new ≡ line_put (width_of g) (entry_at img.now p) at from parent out.old }
{
    let start = at + put_head(&mut out[at..], img, p, g);
    let end = start + put_before(out, start, from, parent);
    let n = put_name(&mut out[end..], img, p);
    out[end + n] = b'\n';
    start
}
