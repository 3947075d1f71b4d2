// The directory: its entries by number. Its sectors stand listed in the work buffer.
#![tactic(auto)]

ghost use Rattle.std.specs.Prelude.{◌≡◌, ◌≤◌, ◌<◌, length};
ghost use Rattle.format.specs.Layout.Entry.{kind as kind_of, colour as colour_of, left as left_of, right as right_of, child as child_of, name};
ghost use Rattle.format.specs.Rules.Trees.{is_object};
ghost use Rattle.kinds.specs.Ordering.{ordering};
ghost use Rattle.directory.specs.Listed.{count_of, entries_of, place_of, DirectoryListed, Placed, NamedIn};
ghost use Rattle.directory.specs.Blanks.{LowestBlank};

use entries::names::compare_name;
use entries::{child, colour, entry_type, left, right};
use kinds::{EntryId, EntryType, Geometry, Numbered, Sector};
use std::cmp::Ordering;

pub mod listed;

// The sizes, how many sectors the directory has, and where in the work buffer they are listed.
#[derive(Clone, Copy)]
pub struct Directory {
    pub geometry: Geometry,
    pub sectors: usize,
    pub list: usize,
}

impl Directory {
    // How many entries there are.
    pub fn count(self) -> usize
        requires { (self.geometry.bytes ≤ 4096) × (self.sectors < 0x1_0000_0000) }
        ensures { result ≡ count_of self }
    {
        self.geometry.entries() * self.sectors
    }
}

// ---- entries by number

// The byte where entry x starts.
pub fn place(work: &[u32], d: Directory, x: EntryId) -> usize
    requires { Placed d work.now x.0 }
    ensures { result ≡ place_of d work.now x.0 }
{
    let g = d.geometry;
    let i = x.index();
    let s = Sector(work[d.list + g.entry_sector(i)]);
    s.place(g) + 128 * g.entry_index(i)
}

pub fn type_of(img: &[u8], work: &[u32], d: Directory, x: EntryId) -> EntryType
    requires directory_listed { DirectoryListed d img.now work.now }
    requires x_bound { x.0 < (entries_of d img.now).count }
    ensures { result.0 ≡ kind_of ((entries_of d img.now).entry x.0) }
{
    entry_type(img, place(work, d, x))
}

pub fn colour_of(img: &[u8], work: &[u32], d: Directory, x: EntryId) -> u8
    requires directory_listed { DirectoryListed d img.now work.now }
    requires x_bound { x.0 < (entries_of d img.now).count }
    ensures { result ≡ colour_of ((entries_of d img.now).entry x.0) }
{
    colour(img, place(work, d, x))
}

pub fn left_of(img: &[u8], work: &[u32], d: Directory, x: EntryId) -> EntryId
    requires directory_listed { DirectoryListed d img.now work.now }
    requires x_bound { x.0 < (entries_of d img.now).count }
    ensures { result.0 ≡ left_of ((entries_of d img.now).entry x.0) }
{
    left(img, place(work, d, x))
}

pub fn right_of(img: &[u8], work: &[u32], d: Directory, x: EntryId) -> EntryId
    requires directory_listed { DirectoryListed d img.now work.now }
    requires x_bound { x.0 < (entries_of d img.now).count }
    ensures { result.0 ≡ right_of ((entries_of d img.now).entry x.0) }
{
    right(img, place(work, d, x))
}

pub fn child_of(img: &[u8], work: &[u32], d: Directory, x: EntryId) -> EntryId
    requires directory_listed { DirectoryListed d img.now work.now }
    requires x_bound { x.0 < (entries_of d img.now).count }
    ensures { result.0 ≡ child_of ((entries_of d img.now).entry x.0) }
{
    child(img, place(work, d, x))
}

// Whether entry x is a storage or a stream.
pub fn object(img: &[u8], work: &[u32], d: Directory, x: EntryId) -> bool
    requires directory_listed { DirectoryListed d img.now work.now }
    requires x_bound { x.0 < (entries_of d img.now).count }
    ensures { result ≡ is_object (entries_of d img.now) x.0 }
{
    let t = type_of(img, work, d, x);
    t.is_storage() | t.is_stream()
}

// ---- blank entries

// The blank entry of the lowest number, if there is one.
pub fn lowest_blank(img: &[u8], work: &[u32], d: Directory) -> Option<EntryId>
    requires { DirectoryListed d img.now work.now }
    ensures { LowestBlank (entries_of d img.now) result }
{
    for x in EntryId::ROOT.until(d.count()) {
        if type_of(img, work, d, x).is_blank() {
            return Some(x);
        }
    }
    None
}

// ---- names

// How a name lies to that of entry x.
pub fn order_to(want: &[u16], img: &[u8], work: &[u32], d: Directory, x: EntryId) -> Ordering
    requires directory_listed { DirectoryListed d img.now work.now }
    requires named_in { NamedIn (entries_of d img.now) x.0 }
    ensures { result ≡ ordering want.now (name ((entries_of d img.now).entry x.0)) }
{
    compare_name(want, img, place(work, d, x))
}
