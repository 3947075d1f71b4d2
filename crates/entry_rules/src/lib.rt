// Group 14: the fields of each entry of the directory.
#![tactic(auto)]

ghost use Rattle.std.specs.Prelude.{◌≡◌, true, ◌+◌, ◌*◌, ◌≤◌, ◌<◌, length};
ghost use Rattle.format.specs.Basics.Lists.{all_below};
ghost use Rattle.format.specs.Rules.Entries.{blank_fields, name_fields, stream_fields, storage_fields, root_fields, common_fields, entry_fields, entry_rules};
ghost use Rattle.entries.specs.Entry.{entry_at, Field};
ghost use Rattle.directory.specs.Listed.{entries_of, count_of, DirectoryListed};
ghost use Rattle.tables.specs.Work.{Wrote};
ghost use Rattle.nodes.specs.Nodes.{EntryNode, NodesFresh};
ghost use Rattle.entry_rules.specs.Names.{unit_legal, rest_below, ObjectNamed};
ghost use Rattle.entry_rules.specs.Ahead.{Near, in_row, colours_right, ahead_right};

use directory::{Directory, place};
use entries::names::{legal_unit, name_unit, name_units};
use entries::{child, colour, entry_type, half, left, name_bytes, right, word, zeros};
use kinds::{EntryId, Numbered};
use le::least;
use nodes::{Node, Slot, put_node};

// ---- names

// Whether the first n units of the name are legal. Each is looked at, so that many can be at once.
#[tactic(auto, using(theory::proofs::Loops::below_none, theory::proofs::Loops::below_next))]
fn first_legal(img: &[u8], p: usize, n: usize) -> bool
    requires { Field img.now p 0 (2 * n) }
    ensures { result ≡ all_below n (unit_legal (entry_at img.now p)) }
{
    let mut ok = true;
    for i in 0..n {
        ok = ok & legal_unit(name_unit(img, p, i));
    }
    ok
}

// Whether those from unit m on are, one by one.
#[tactic(auto, using(crate::proofs::Units::rest_next, crate::proofs::Units::rest_stop, crate::proofs::Units::rest_end))]
fn rest_legal(img: &[u8], p: usize, m: usize, n: usize) -> bool
    requires m_le_n { m ≤ n }
    requires field { Field img.now p 0 (2 * n) }
    ensures { rest_below m n (unit_legal (entry_at img.now p)) result }
{
    for i in m..n {
        if !legal_unit(name_unit(img, p, i)) {
            return false;
        }
    }
    true
}

// Whether the first n units are legal, eight at once while there are so many.
fn legal_units(img: &[u8], p: usize, n: usize) -> bool
    requires { Field img.now p 0 (2 * n) }
    ensures { result ≡ all_below n (unit_legal (entry_at img.now p)) }
{
    let m = n / 8 * 8;
    first_legal(img, p, m) & rest_legal(img, p, m, n)
}

#[tactic(auto, using(crate::proofs::Fields::name_short, crate::proofs::Fields::name_long, crate::proofs::Fields::name_right))]
fn name_fields(img: &[u8], p: usize) -> bool
    requires { p + 128 ≤ length img.now }
    ensures { result ≡ name_fields (entry_at img.now p) }
{
    let n = name_bytes(img, p);
    if n < 4 {
        return false;
    }
    if 64 < n {
        return false;
    }
    (n % 2 == 0) & (half(img, p, n - 2) == 0) & legal_units(img, p, n / 2 - 1)
}

// ---- each type of entry

#[tactic(auto, unfolding(format::specs::Rules::Entries::blank_fields))]
fn blank_fields(img: &[u8], p: usize) -> bool
    requires { p + 128 ≤ length img.now }
    ensures { result ≡ blank_fields (entry_at img.now p) }
{
    zeros(img, p, 0, 68)
        & left(img, p).is_none()
        & right(img, p).is_none()
        & child(img, p).is_none()
        & zeros(img, p, 80, 48)
}

fn stream_fields(img: &[u8], p: usize) -> bool
    requires { p + 128 ≤ length img.now }
    ensures { result ≡ stream_fields (entry_at img.now p) }
{
    name_fields(img, p)
        & child(img, p).is_none()
        & zeros(img, p, 80, 16)
        & zeros(img, p, 100, 8)
        & zeros(img, p, 108, 8)
}

#[tactic(auto, unfolding(format::specs::Rules::Entries::storage_fields, format::specs::Layout::Entry::start))]
fn storage_fields(img: &[u8], p: usize) -> bool
    requires { p + 128 ≤ length img.now }
    ensures { result ≡ storage_fields (entry_at img.now p) }
{
    name_fields(img, p) & (word(img, p, 116) == 0) & zeros(img, p, 120, 8)
}

#[tactic(auto, unfolding(format::specs::Rules::Entries::root_fields, format::specs::Layout::Entry::created))]
fn root_fields(img: &[u8], p: usize) -> bool
    requires { p + 128 ≤ length img.now }
    ensures { result ≡ root_fields (entry_at img.now p) }
{
    left(img, p).is_none() & right(img, p).is_none() & zeros(img, p, 100, 8)
}

#[tactic(auto, unfolding(format::specs::Rules::Entries::common_fields))]
fn common_fields(img: &[u8], p: usize) -> bool
    requires { p + 128 ≤ length img.now }
    ensures { result ≡ common_fields (entry_at img.now p) }
{
    colour(img, p) <= 1
}

// ---- scattered sectors

// Whether the entries from x to `last` stand in a row.
fn in_a_row(work: &[u32], d: Directory, x: EntryId, last: EntryId) -> bool
    requires { Near d work.now x.0 last.0 }
    ensures { result ≡ in_row d work.now x.0 last.0 }
{
    let k = last.index() - x.index();
    place(work, d, last) == place(work, d, x) + 128 * k
}

// Whether the colours of the entries from x up to `end` are right. Each is read, so that many can be at once.
fn colours(img: &[u8], work: &[u32], d: Directory, x: EntryId, end: usize) -> bool
    requires directory_listed { DirectoryListed d img.now work.now }
    requires x_le_end { (x.0 ≤ end) × (end ≤ count_of d) }
    ensures { result ≡ colours_right (entries_of d img.now) x.0 end }
{
    let mut ok = true;
    for y in x.until(end) {
        ok = ok & common_fields(img, place(work, d, y));
    }
    ok
}

// Asked before entry x is read: at every 64th, whether the next 64 stand in a row or have right colours. Of those that do not stand in
// a row, this brings the bytes near at the same time.
fn ahead_right(img: &[u8], work: &[u32], d: Directory, x: EntryId) -> bool
    requires directory_listed { DirectoryListed d img.now work.now }
    requires x_bound { x.0 < count_of d }
    ensures { result ≡ ahead_right d (entries_of d img.now) work.now x.0 }
{
    let i = x.index();
    if i % 64 != 0 {
        return true;
    }
    let end = least(i + 64, d.count());
    if in_a_row(work, d, x, EntryId(end as u32 - 1)) {
        return true;
    }
    colours(img, work, d, x, end)
}

// ---- all of it

// Group 14 of entry x, which stands at p. Only the fields of its own type are looked at.
fn entry_fields(img: &[u8], p: usize, x: EntryId) -> bool
    requires { p + 128 ≤ length img.now }
    ensures { result ≡ entry_fields x.0 (entry_at img.now p) }
{
    let t = entry_type(img, p);
    if x.is_root() {
        return t.is_root() & root_fields(img, p) & common_fields(img, p);
    }
    if !common_fields(img, p) {
        return false;
    }
    if t.is_stream() {
        return stream_fields(img, p);
    }
    if t.is_storage() {
        return storage_fields(img, p);
    }
    t.is_blank() & blank_fields(img, p)
}

// The node of an entry that keeps group 14, which stands at p.
fn node_of(img: &[u8], p: usize, n: usize) -> Node
    requires p_in_bounds { p + 128 ≤ length img.now }
    requires n_nonzero { (0 < n) × (n < 0x8_0000) }
    requires object_named { ObjectNamed (entry_at img.now p) }
    ensures { EntryNode n (entry_at img.now p) result.a result.b }
{
    let t = entry_type(img, p);
    if t.is_storage() | t.is_stream() {
        let low = Slot::of(left(img, p), n);
        let high = Slot::of(right(img, p), n);
        let below = Slot::of(child(img, p), n);
        let units = name_units(img, p) as u32;
        return Node::pack(low, high, below, units, colour(img, p) == 0);
    }
    Node::OTHER
}

// Group 14, and the node of each entry at the start of the work buffer.
pub fn read_entries(img: &[u8], work: &mut [u32], d: Directory) -> bool
    requires directory_listed { DirectoryListed d img.now work.old }
    requires d_bound { 2 * count_of d + 2 ≤ d.list }
    ensures answer { result ≡ entry_rules (entries_of d img.now) }
    ensures nodes { result ≡ true → NodesFresh (entries_of d img.now) work.new }
    ensures wrote { Wrote work.old work.new 0 (2 * count_of d + 2) }
{
    let n = d.count();
    for x in EntryId::ROOT.until(n) {
        if !ahead_right(img, work, d, x) {
            return false;
        }
        let p = place(work, d, x);
        if !entry_fields(img, p, x) {
            return false;
        }
        put_node(work, Slot::at(x), node_of(img, p, n));
    }
    true
}
