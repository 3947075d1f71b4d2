// One name in the trees of a validated directory: the child of a storage, and the field that names it or would name it.
#![tactic(auto)]

ghost use Rattle.std.specs.Prelude.{◌≡◌, ◌<◌};
ghost use Rattle.theory.specs.TreeFind.{Searchable};
ghost use Rattle.directory.specs.Listed.{entries_of, DirectoryListed, Ruled};
ghost use Rattle.theory.specs.TreeViews.{child_of};
ghost use Rattle.lookup.specs.Children.{child_among, answer_of};
ghost use Rattle.lookup.specs.Slots.{SeatRight};

use directory::{Directory, child_of, left_of, order_to, right_of};
use kinds::{EntryId, Link};
use std::cmp::Ordering;

// The child of a name among the siblings whose tree `top` names: at each entry the name's order says which side may have it.
pub fn find_child(
    want: &[u16],
    img: &[u8],
    work: &[u32],
    d: Directory,
    top: EntryId,
) -> Option<EntryId>
    requires directory_listed { DirectoryListed d img.now work.now }
    requires ruled { Ruled (entries_of d img.now) }
    requires searchable { Searchable (entries_of d img.now) top.0 }
    ensures { answer_of (entries_of d img.now) result ≡ child_among (entries_of d img.now) want.now top.0 }
{
    let mut x = top;
    while !x.is_none() {
        match order_to(want, img, work, d, x) {
            Ordering::Less => {
                x = left_of(img, work, d, x);
            }
            Ordering::Equal => {
                return Some(x);
            }
            Ordering::Greater => {
                x = right_of(img, work, d, x);
            }
        }
    }
    None
}

// A field of an entry.
#[derive(Clone, Copy)]
pub struct Slot {
    pub entry: EntryId,
    pub field: Link,
}

// The field that is to name a new entry, or the entry that has the name already and the field that names it.
#[derive(Clone, Copy)]
pub enum Seat {
    Free(Slot),
    Taken(EntryId, Slot),
}

// Where a name has its place among the children of an entry.
pub fn find_slot(want: &[u16], img: &[u8], work: &[u32], d: Directory, parent: EntryId) -> Seat
    requires directory_listed { DirectoryListed d img.now work.now }
    requires ruled { Ruled (entries_of d img.now) }
    requires parent_bound { parent.0 < (entries_of d img.now).count }
    requires searchable { Searchable (entries_of d img.now) (child_of (entries_of d img.now) parent.0) }
    ensures { SeatRight (entries_of d img.now) want.now parent.0 result }
{
    let mut h = Slot {
        entry: parent,
        field: Link::Child,
    };
    let mut y = child_of(img, work, d, parent);
    while !y.is_none() {
        match order_to(want, img, work, d, y) {
            Ordering::Less => {
                h = Slot {
                    entry: y,
                    field: Link::Left,
                };
                y = left_of(img, work, d, y);
            }
            Ordering::Equal => {
                return Seat::Taken(y, h);
            }
            Ordering::Greater => {
                h = Slot {
                    entry: y,
                    field: Link::Right,
                };
                y = right_of(img, work, d, y);
            }
        }
    }
    Seat::Free(h)
}
