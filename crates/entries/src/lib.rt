// A directory entry at a byte place p of the image: its fields.
#![tactic(auto)]

ghost use Rattle.std.specs.Prelude.{◌≡◌, ◌+◌, ◌≤◌, length};
ghost use Rattle.format.specs.Basics.Bytes.{byte_at, u16at, u32at, part, all_zero};
ghost use Rattle.format.specs.Layout.Entry.{name_bytes, kind as kind_of, colour as colour_of, start as start_of, size as size_as_read};
ghost use Rattle.format.specs.Layout.Geometry.{size_width};
ghost use Rattle.format.specs.Layout.Entry.{left as left_of, right as right_of, child as child_of};
ghost use Rattle.kinds.specs.Sizes.{geometry_of};
ghost use Rattle.entries.specs.Entry.{entry_at, Field};

use kinds::{EntryId, EntryType, Geometry, MiniSector, Sector};
use le::{all_zero, u16_at, u32_at, u64_at};

pub mod names;

// ---- bytes at offset o

#[tactic(auto, using(crate::proofs::EntryLaws::byte_in))]
fn byte(img: &[u8], p: usize, o: usize) -> u8
    requires { Field img.now p o 1 }
    ensures { result ≡ byte_at (entry_at img.now p) o }
{
    img[p + o]
}

#[tactic(auto, using(crate::proofs::EntryLaws::u16_in))]
pub fn half(img: &[u8], p: usize, o: usize) -> u16
    requires { Field img.now p o 2 }
    ensures { result ≡ u16at (entry_at img.now p) o }
{
    u16_at(img, p + o)
}

#[tactic(auto, using(crate::proofs::EntryLaws::u32_in))]
pub fn word(img: &[u8], p: usize, o: usize) -> u32
    requires { Field img.now p o 4 }
    ensures { result ≡ u32at (entry_at img.now p) o }
{
    u32_at(img, p + o)
}

#[tactic(auto, using(crate::proofs::EntryLaws::zeros_in))]
pub fn zeros(img: &[u8], p: usize, o: usize, n: usize) -> bool
    requires { Field img.now p o n }
    ensures { result ≡ all_zero (part (entry_at img.now p) o n) }
{
    all_zero(img, p + o, n)
}

// ---- fields

#[tactic(auto, unfolding(format::specs::Layout::Entry::kind))]
pub fn entry_type(img: &[u8], p: usize) -> EntryType
    requires { p + 128 ≤ length img.now }
    ensures { result.0 ≡ kind_of (entry_at img.now p) }
{
    EntryType(byte(img, p, 66))
}

#[tactic(auto, unfolding(format::specs::Layout::Entry::colour))]
pub fn colour(img: &[u8], p: usize) -> u8
    requires { p + 128 ≤ length img.now }
    ensures { result ≡ colour_of (entry_at img.now p) }
{
    byte(img, p, 67)
}

#[tactic(auto, unfolding(format::specs::Layout::Entry::left))]
pub fn left(img: &[u8], p: usize) -> EntryId
    requires { p + 128 ≤ length img.now }
    ensures { result.0 ≡ left_of (entry_at img.now p) }
{
    EntryId(word(img, p, 68))
}

#[tactic(auto, unfolding(format::specs::Layout::Entry::right))]
pub fn right(img: &[u8], p: usize) -> EntryId
    requires { p + 128 ≤ length img.now }
    ensures { result.0 ≡ right_of (entry_at img.now p) }
{
    EntryId(word(img, p, 72))
}

#[tactic(auto, unfolding(format::specs::Layout::Entry::child))]
pub fn child(img: &[u8], p: usize) -> EntryId
    requires { p + 128 ≤ length img.now }
    ensures { result.0 ≡ child_of (entry_at img.now p) }
{
    EntryId(word(img, p, 76))
}

// The start of a stream that lies in sectors, and of one that lies in mini sectors: the size says which.
#[tactic(auto, unfolding(format::specs::Layout::Entry::start))]
pub fn start_sector(img: &[u8], p: usize) -> Sector
    requires { p + 128 ≤ length img.now }
    ensures { result.0 ≡ start_of (entry_at img.now p) }
{
    Sector(word(img, p, 116))
}

#[tactic(auto, unfolding(format::specs::Layout::Entry::start))]
pub fn start_mini(img: &[u8], p: usize) -> MiniSector
    requires { p + 128 ≤ length img.now }
    ensures { result.0 ≡ start_of (entry_at img.now p) }
{
    MiniSector(word(img, p, 116))
}

// The size as read: in version 3 only its lower half counts.
#[tactic(auto, using(crate::proofs::EntryLaws::sizes))]
pub fn size(img: &[u8], p: usize, g: Geometry) -> u64
    requires { p + 128 ≤ length img.now }
    ensures { result ≡ size_as_read (size_width (geometry_of g)) (entry_at img.now p) }
{
    if g.major == 3 {
        return u64::from(word(img, p, 120));
    }
    u64_at(img, p + 120)
}

// The bytes of the name, with the zero unit that ends it.
#[tactic(auto, unfolding(format::specs::Layout::Entry::name_bytes))]
pub fn name_bytes(img: &[u8], p: usize) -> usize
    requires { p + 128 ≤ length img.now }
    ensures { result ≡ name_bytes (entry_at img.now p) }
{
    half(img, p, 64) as usize
}
