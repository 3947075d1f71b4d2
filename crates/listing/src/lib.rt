// The whole listing: one walk that adds up its length, one that writes it. The stack, at the start of the work buffer, holds entries whose
// left side is done, each with the length of its parent's path.
#![tactic(auto)]

ghost use Rattle.std.specs.Prelude.{◌≡◌, true, ◌++◌, ◌+◌, ◌*◌, ◌≤◌, ◌<◌, length};
ghost use Rattle.format.specs.Layout.Tree.{forest, entries};
ghost use Rattle.format.specs.Rules.Entries.{entry_rules};
ghost use Rattle.format.specs.Rules.Trees.{tree_rules};
ghost use Rattle.format.specs.Calls.Read.{over};
ghost use Rattle.format.specs.Calls.Text.{print_name};
ghost use Rattle.format.specs.Calls.Listing.{first_line, listing};
ghost use Rattle.theory.specs.TreeViews.{at, sound_at};
ghost use Rattle.tables.specs.Work.{Wrote};
ghost use Rattle.entries.specs.Entry.{name_at, NamedAt};
ghost use Rattle.directory.specs.Listed.{count_of, entries_of, DirectoryListed};
ghost use Rattle.lines.specs.Lines.{before_length};
ghost use Rattle.listing.specs.Walks.{pairs, entry_on, parent_on, spine, turned_at, Turning, measured, measure_of};

use directory::{Directory, child_of, left_of, place, right_of};
use kinds::EntryId;
use lines::{line_length, put_line};
use text::{decimal_length, name_length, put_number_line};

// ---- the stack

// An entry on the stack, and the length of its parent's path.
#[derive(Clone, Copy)]
struct Pair {
    entry: EntryId,
    parent: u32,
}

// Pair k of the stack.
fn pair_at(work: &[u32], k: usize) -> Pair
    requires { 2 * k + 1 < length work.now }
    ensures { (result.entry.0 ≡ entry_on work.now k) × (result.parent ≡ parent_on work.now k) }
{
    Pair {
        entry: EntryId(work[2 * k]),
        parent: work[2 * k + 1],
    }
}

// Puts the left spine of the tree that x names on the stack of n pairs, and returns the stack's new height.
fn push(img: &[u8], work: &mut [u32], d: Directory, n: usize, x: EntryId, parent: u32) -> usize
    requires directory_listed { DirectoryListed d img.now work.old }
    requires d_bound { 2 * count_of d ≤ d.list }
    requires x_value { sound_at (entries_of d img.now) x.0 ≡ true }
    requires x_bound { n + length (entries (at (entries_of d img.now) x.0)) ≤ count_of d }
    ensures stack { pairs work.new result ≡ spine parent (at (entries_of d img.now) x.0) ++ pairs work.old n }
    ensures wrote { Wrote work.old work.new 0 (2 * count_of d) }
{
    let mut k = n;
    let mut y = x;
    while !y.is_none() {
        work[2 * k] = y.0;
        work[2 * k + 1] = parent;
        k += 1;
        y = left_of(img, work, d, y);
    }
    k
}

// How many bytes the path of the entry at p has, if its parent's has so many; 0 is the root's.
fn path_length(img: &[u8], p: usize, parent: u32) -> u32
    requires named_at { NamedAt img.now p }
    requires parent_bound { parent + 157 ≤ 0x1_0000_0000 }
    ensures { result ≡ before_length parent + length (print_name (name_at img.now p)) }
{
    let n = name_length(img, p) as u32;
    if parent == 0 {
        return n;
    }
    parent + 1 + n
}

// Takes the entry of pair k off, puts its right side on the stack and then the tree below it, and returns the stack's new height.
fn turn(img: &[u8], work: &mut [u32], d: Directory, k: usize) -> usize
    requires directory_listed { DirectoryListed d img.now work.old }
    requires d_bound { 2 * count_of d ≤ d.list }
    requires img_value { entry_rules (entries_of d img.now) ≡ true }
    requires turning { Turning (entries_of d img.now) (count_of d) k (entry_on work.old k) (parent_on work.old k) }
    ensures stack { pairs work.new result ≡ turned_at (entries_of d img.now) work.old k }
    ensures wrote { Wrote work.old work.new 0 (2 * count_of d) }
{
    let q = pair_at(work, k);
    let right = right_of(img, work, d, q.entry);
    let child = child_of(img, work, d, q.entry);
    let path = path_length(img, place(work, d, q.entry), q.parent);
    let n = push(img, work, d, k, right, q.parent);
    push(img, work, d, n, child, path)
}

// ---- the measure

// How many objects and how many bytes the listing has.
#[derive(Clone, Copy)]
pub struct Size {
    pub objects: usize,
    pub bytes: usize,
}

// The whole listing's size, where its lines have so many bytes, no more than `most`; nothing where it is longer with the first line.
fn with_first(objects: usize, bytes: usize, most: usize) -> Option<Size>
    requires { bytes ≤ most }
    ensures { result ≡ measured most objects (length (first_line objects) + bytes) }
{
    let n = decimal_length(objects as u64) + 9;
    if most - bytes < n {
        return None;
    }
    Some(Size {
        objects,
        bytes: n + bytes,
    })
}

// Adds up the listing's length, as long as it is no more than `most`; nothing where it is longer.
pub fn measure(img: &[u8], work: &mut [u32], d: Directory, most: usize) -> Option<Size>
    requires directory_listed { DirectoryListed d img.now work.old }
    requires img_value { entry_rules (entries_of d img.now) ≡ true }
    requires img_value_2 { tree_rules (entries_of d img.now) ≡ true }
    requires d_bound { 2 * count_of d ≤ d.list }
    requires d_bound_2 { count_of d ≤ 0x100_0000 }
    ensures answer { result ≡ measure_of most (entries_of d img.now) }
    ensures wrote { Wrote work.old work.new 0 (2 * count_of d) }
{
    let top = child_of(img, work, d, EntryId::ROOT);
    let mut n = push(img, work, d, 0, top, 0);
    let mut objects = 0;
    let mut bytes = 0;
    while n > 0 {
        n -= 1;
        let q = pair_at(work, n);
        let k = line_length(img, place(work, d, q.entry), d.geometry, q.parent as usize);
        if most - bytes < k {
            return None;
        }
        bytes += k;
        objects += 1;
        n = turn(img, work, d, n);
    }
    with_first(objects, bytes, most)
}

// ---- the text

// Writes the first line, and returns how many bytes it takes.
#[tactic(auto, unfolding(format::specs::Calls::Listing::first_line))]
fn put_first(out: &mut [u8], objects: usize) -> usize
    requires { length (first_line objects) ≤ length out.old }
    ensures count { result ≡ length (first_line objects) }
    ensures written { out.new ≡ over (first_line objects) out.old }
{
    put_number_line(out, b"objects ", objects as u64)
}

// Writes the listing, which the out buffer has room for. A line's parent path is copied from the line before, whose path begins with it.
pub fn write(img: &[u8], work: &mut [u32], d: Directory, objects: usize, out: &mut [u8])
    requires directory_listed { DirectoryListed d img.now work.old }
    requires img_value { entry_rules (entries_of d img.now) ≡ true }
    requires img_value_2 { tree_rules (entries_of d img.now) ≡ true }
    requires d_bound { 2 * count_of d ≤ d.list }
    requires d_bound_2 { count_of d ≤ 0x100_0000 }
    requires objects_value { objects ≡ length (entries (forest (entries_of d img.now))) }
    requires img_in_bounds { length (listing (entries_of d img.now)) ≤ length out.old }
    ensures written { out.new ≡ over (listing (entries_of d img.now)) out.old }
    ensures wrote { Wrote work.old work.new 0 (2 * count_of d) }
{
    let mut at = put_first(out, objects);
    let mut from = 0;
    let top = child_of(img, work, d, EntryId::ROOT);
    let mut n = push(img, work, d, 0, top, 0);
    while n > 0 {
        n -= 1;
        let q = pair_at(work, n);
        let p = place(work, d, q.entry);
        let parent = q.parent as usize;
        from = put_line(out, at, img, p, d.geometry, from, parent);
        at += line_length(img, p, d.geometry, parent);
        n = turn(img, work, d, n);
    }
}
