// A tree of siblings without one of its entries: all that is read of it is read before a byte is written. Then the links that change are
// written, every sibling becomes black, and the entry blank.
#![tactic(auto)]

ghost use Rattle.std.specs.Prelude.{◌≡◌, ◌≤◌, ◌<◌, length, take};
ghost use Rattle.format.specs.Layout.Volume.{volume};
ghost use Rattle.format.specs.Calls.Remove.{entry_removed_at};
ghost use Rattle.theory.specs.TreeViews.{child_of, at, Standing};
ghost use Rattle.theory.specs.TreeHeir.{HeirIs};
ghost use Rattle.frame.specs.Unlink.{link_put, heir_put, unlinked_at, blackened_at};
ghost use Rattle.kinds.specs.Sizes.{geometry_of};
ghost use Rattle.tables.specs.Work.{Wrote};
ghost use Rattle.directory.specs.Listed.{count_of, entries_of, place_of, DirectoryListed};
ghost use Rattle.tree_edits.specs.Siblings.{SiblingTree, SiblingsListed, added, added_count};
ghost use Rattle.tree_edits.specs.Places.{slot_at, places_in, place_freed, EntryPlaced, EntriesPlaced};
ghost use Rattle.tree_edits.specs.Removable.{Removable};

use directory::{Directory, child_of, left_of, place, right_of};
use entry_writes::{put_black, put_blank_entry, put_link};
use kinds::{EntryId, Link};

// ---- the siblings

// Puts an entry behind the n that are listed, if it is one, and returns how many there are then.
#[tactic(auto, unfolding(crate::specs::Siblings::added, crate::specs::Siblings::added_count))]
fn add(work: &mut [u32], n: usize, x: EntryId) -> usize
    requires { n < length work.old }
    ensures value { result ≡ added_count n x.0 }
    ensures work_after { work.new ≡ added work.old n x.0 }
{
    if x.is_none() {
        return n;
    }
    work[n] = x.0;
    n + 1
}

// Lists the siblings whose tree `top` names at the start of the work buffer, and returns how many they are.
fn list_siblings(img: &[u8], work: &mut [u32], d: Directory, top: EntryId) -> usize
    requires directory_listed { DirectoryListed d img.now work.old }
    requires d_bound { count_of d ≤ d.list }
    requires sibling_tree { SiblingTree (entries_of d img.now) top.0 }
    ensures listed { SiblingsListed (entries_of d img.now) top.0 work.new result }
    ensures wrote { Wrote work.old work.new 0 (count_of d) }
{
    let mut n = add(work, 0, top);
    let mut i = 0;
    // The list grows while it is read.
    while i < n {
        let y = EntryId(work[i]);
        let left = left_of(img, work, d, y);
        let right = right_of(img, work, d, y);
        n = add(work, n, left);
        n = add(work, n, right);
        i += 1;
    }
    n
}

// The first n entries of the list become black.
fn blacken(img: &mut [u8], work: &[u32], d: Directory, n: usize)
    requires { EntriesPlaced d work.now (length img.old) n }
    ensures { img.new ≡ blackened_at (place_of d work.now) (take n work.now) img.old }
{
    for y in &work[..n] {
        put_black(img, place(work, d, EntryId(*y)));
    }
}

// ---- the links

// The last on the way right from an entry, and the entry above it.
#[derive(Clone, Copy)]
struct Heir {
    entry: EntryId,
    above: EntryId,
}

// The last on the way right from y, which x is above.
fn find_heir(img: &[u8], work: &[u32], d: Directory, x: EntryId, y: EntryId) -> Heir
    requires directory_listed { DirectoryListed d img.now work.now }
    requires x_bound { x.0 < (entries_of d img.now).count }
    requires standing { Standing (entries_of d img.now) y.0 }
    ensures { HeirIs (entries_of d img.now) x.0 y.0 result.above.0 result.entry.0 }
{
    let mut above = x;
    let mut entry = y;
    loop {
        let right = right_of(img, work, d, entry);
        if right.is_none() {
            return Heir { entry, above };
        }
        above = entry;
        entry = right;
    }
}

// Writes a field of an entry.
#[tactic(auto, unfolding(frame::specs::Unlink::link_put))]
fn put_slot(img: &mut [u8], work: &[u32], d: Directory, owner: EntryId, field: Link, y: EntryId)
    requires { EntryPlaced d work.now owner.0 (length img.old) }
    ensures { img.new ≡ link_put (place_of d work.now) (slot_at owner field) y.0 img.old }
{
    put_link(img, place(work, d, owner), field, y);
}

// The left side of an heir, and the sides of the entry whose place it takes.
#[derive(Clone, Copy)]
struct Sides {
    own: EntryId,
    left: EntryId,
    right: EntryId,
}

// The old place of the heir h is given to its own left side, and h gets the left side of x, if h is not the left side's top.
#[tactic(auto, unfolding(crate::specs::Places::place_freed))]
fn free_place(img: &mut [u8], work: &[u32], d: Directory, x: EntryId, h: Heir, s: Sides)
    requires entry_placed { EntryPlaced d work.now h.entry.0 (length img.old) }
    requires entry_placed_2 { EntryPlaced d work.now h.above.0 (length img.old) }
    ensures { img.new
        ≡ place_freed (place_of d work.now) x.0 h.above.0 h.entry.0 s.own.0 s.left.0 img.old }
{
    if h.above == x {
        return;
    }
    put_slot(img, work, d, h.above, Link::Right, s.own);
    put_slot(img, work, d, h.entry, Link::Left, s.left);
}

// The heir h takes the place of x, which a field names.
#[tactic(auto, unfolding(frame::specs::Unlink::heir_put, crate::specs::Places::place_freed))]
fn put_heir(
    img: &mut [u8],
    work: &[u32],
    d: Directory,
    owner: EntryId,
    field: Link,
    x: EntryId,
    h: Heir,
    s: Sides,
)
    requires entry_placed { EntryPlaced d work.now owner.0 (length img.old) }
    requires entry_placed_2 { EntryPlaced d work.now h.entry.0 (length img.old) }
    requires entry_placed_3 { EntryPlaced d work.now h.above.0 (length img.old) }
    ensures { img.new
        ≡ heir_put (place_of d work.now) (slot_at owner field) x.0 h.above.0 h.entry.0 s.own.0 s.left.0 s.right.0
        img.old }
{
    put_slot(img, work, d, owner, field, h.entry);
    free_place(img, work, d, x, h, s);
    put_slot(img, work, d, h.entry, Link::Right, s.right);
}

// The field that names x gets what takes its place: the one side where the other is empty, else the last of the left side.
fn unlink(img: &mut [u8], work: &[u32], d: Directory, owner: EntryId, field: Link, x: EntryId)
    requires directory_listed { DirectoryListed d img.old work.now }
    requires owner_bound { owner.0 < (entries_of d img.old).count }
    requires standing { Standing (entries_of d img.old) x.0 }
    ensures { img.new
        ≡ unlinked_at (places_in d img.old) (entries_of d img.old) (slot_at owner field) x.0 img.old }
{
    let left = left_of(img, work, d, x);
    let right = right_of(img, work, d, x);
    if left.is_none() {
        put_slot(img, work, d, owner, field, right);
        return;
    }
    if right.is_none() {
        put_slot(img, work, d, owner, field, left);
        return;
    }
    let h = find_heir(img, work, d, x, left);
    let s = Sides {
        own: left_of(img, work, d, h.entry),
        left,
        right,
    };
    put_heir(img, work, d, owner, field, x, h, s);
}

// ---- the whole

// Removes entry x, which has nothing below it and is named by a field of its own tree of siblings, from the children of an entry.
pub fn remove_entry(
    img: &mut [u8],
    work: &mut [u32],
    d: Directory,
    parent: EntryId,
    owner: EntryId,
    field: Link,
    x: EntryId,
)
    requires directory_listed { DirectoryListed d img.old work.old }
    requires d_bound { count_of d ≤ d.list }
    requires removable { Removable d img.old parent.0 (slot_at owner field) x.0 }
    ensures image { img.new
        ≡ entry_removed_at (volume (geometry_of d.geometry) img.old) img.old parent.0
        (at (entries_of d img.old) (child_of (entries_of d img.old) parent.0)) x.0 }
    ensures wrote { Wrote work.old work.new 0 (count_of d) }
{
    let top = child_of(img, work, d, parent);
    let n = list_siblings(img, work, d, top);
    unlink(img, work, d, owner, field, x);
    blacken(img, work, d, n);
    put_blank_entry(img, place(work, d, x));
}
