// Writes into a directory entry at a byte place p of the image: a whole one, a link, the colour.
#![tactic(auto)]

ghost use Rattle.std.specs.Prelude.{◌≡◌, [], ◌∷◌, ◌+◌, ◌*◌, ◌≤◌, length};
ghost use Rattle.format.specs.Basics.Bytes.{put_bytes, put32};
ghost use Rattle.format.specs.Layout.Entry.{colour_byte, black, field_byte};
ghost use Rattle.format.specs.Layout.NewEntry.{no_links, blank_entry, utf16_bytes, new_entry};
ghost use Rattle.kinds.specs.Links.{link_field};

use kinds::{EntryId, EntryType, Link};
use le::{put_u16, put_u32, put_u64};

// ---- fields

// Where a link stands in its entry.
fn link_byte(field: Link) -> usize
    ensures { result ≡ field_byte (link_field field) }
{
    match field {
        Link::Left => 68,
        Link::Right => 72,
        Link::Child => 76,
    }
}

#[tactic(auto, using(crate::proofs::Blocks::link_inside))]
pub fn put_link(img: &mut [u8], p: usize, field: Link, x: EntryId)
    requires { p + 128 ≤ length img.old }
    ensures { img.new ≡ put32 img.old (p + field_byte (link_field field)) x.0 }
{
    put_u32(img, p + link_byte(field), x.0);
}

#[tactic(auto, unfolding(format::specs::Basics::Bytes::put_bytes))]
pub fn put_black(img: &mut [u8], p: usize)
    requires { p + 128 ≤ length img.old }
    ensures { img.new ≡ put_bytes img.old (p + colour_byte) (black ∷ []) }
{
    img[p + 67] = 1;
}

// Left, right and child that name nothing.
fn put_no_links(img: &mut [u8], p: usize)
    requires { p + 128 ≤ length img.old }
    ensures { img.new ≡ put_bytes img.old (p + 68) no_links }
{
    put_link(img, p, Link::Left, EntryId::NOSTREAM);
    put_link(img, p, Link::Right, EntryId::NOSTREAM);
    put_link(img, p, Link::Child, EntryId::NOSTREAM);
}

// The units of a name, two bytes each.
fn put_units(img: &mut [u8], p: usize, name: &[u16])
    requires { p + 2 * length name.now ≤ length img.old }
    ensures { img.new ≡ put_bytes img.old p (utf16_bytes name.now) }
{
    for (i, unit) in name.iter().enumerate() {
        put_u16(img, p + 2 * i, *unit);
    }
}

// ---- whole entries

pub fn put_blank_entry(img: &mut [u8], p: usize)
    requires { p + 128 ≤ length img.old }
    ensures { img.new ≡ put_bytes img.old p blank_entry }
{
    img[p..p + 128].fill(0);
    put_no_links(img, p);
}

// A new object's entry: a blank one with name, type, colour, start and size.
#[tactic(auto, unfolding(format::specs::Basics::Bytes::put_bytes))]
pub fn put_new_entry(img: &mut [u8], p: usize, name: &[u16], t: EntryType, start: u32, size: u64)
    requires p_in_bounds { p + 128 ≤ length img.old }
    requires name_len_bound { length name.now ≤ 31 }
    ensures { img.new ≡ put_bytes img.old p (new_entry name.now t.0 start size) }
{
    put_blank_entry(img, p);
    put_units(img, p, name);
    put_u16(img, p + 64, (2 * name.len() + 2) as u16);
    img[p + 66] = t.0;
    put_black(img, p);
    put_u32(img, p + 116, start);
    put_u64(img, p + 120, size);
}
