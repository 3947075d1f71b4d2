// The names of entries: their 16-bit units, and their order.
ghost use Rattle.std.specs.Prelude.{◌≡◌, ◌+◌, ◌*◌, ◌≤◌, length};
ghost use Rattle.format.specs.Layout.Name.{small_by20, small_by50, fold as folded, legal_unit};
ghost use Rattle.format.specs.Layout.Entry.{name_unit};
ghost use Rattle.kinds.specs.Ordering.{ordering, unit_ordering};
ghost use Rattle.entries.specs.Entry.{entry_at, name_at, Field, NamedAt, Alike};

use super::{half, name_bytes};
use le::u64_at;
use std::cmp::Ordering;

// ---- units

// How many 16-bit units the name has, without the zero unit that ends it.
#[tactic(auto, using(crate::proofs::NameLaws::name_length))]
pub fn name_units(img: &[u8], p: usize) -> usize
    requires { p + 128 ≤ length img.now }
    ensures { result ≡ length (name_at img.now p) }
{
    let n = name_bytes(img, p);
    if n < 2 {
        return 0;
    }
    n / 2 - 1
}

#[tactic(auto, unfolding(format::specs::Layout::Entry::name_unit))]
pub fn name_unit(img: &[u8], p: usize, i: usize) -> u16
    requires { Field img.now p (2 * i) 2 }
    ensures { result ≡ name_unit (entry_at img.now p) i }
{
    half(img, p, 2 * i)
}

// A small letter whose capital stands 20 hex below it. All its ranges are tested, so that no branch is taken.
#[tactic(auto, unfolding(format::specs::Layout::Name::small_by20))]
fn small_by_20(u: u16) -> bool
    ensures { result ≡ small_by20 u }
{
    ((0x61 <= u) & (u <= 0x7A))
        | ((0xE0 <= u) & (u <= 0xFE) & (u != 0xF7))
        | ((0x3B1 <= u) & (u <= 0x3C9) & (u != 0x3C2))
        | ((0x430 <= u) & (u <= 0x44F))
}

// One whose capital stands 50 hex below it.
#[tactic(auto, unfolding(format::specs::Layout::Name::small_by50))]
fn small_by_50(u: u16) -> bool
    ensures { result ≡ small_by50 u }
{
    (0x450 <= u) & (u <= 0x45F)
}

// The unit that a unit counts as.
#[tactic(auto, unfolding(format::specs::Layout::Name::fold), using(theory::proofs::SmallLetters::by_20, theory::proofs::SmallLetters::by_50))]
pub fn fold(u: u16) -> u16
    ensures { result ≡ folded u }
{
    if small_by_20(u) {
        return u - 0x20;
    }
    if small_by_50(u) {
        return u - 0x50;
    }
    if u == 0xFF {
        return 0x178;
    }
    u
}

#[tactic(auto, unfolding(format::specs::Layout::Name::legal_unit, format::specs::Layout::Name::illegal))]
pub fn legal_unit(u: u16) -> bool
    ensures { result ≡ legal_unit u }
{
    (u != 0) & !((u == 0x2F) | (u == 0x5C) | (u == 0x3A) | (u == 0x21))
}

// ---- order

// Two units in their order. Only units that differ are folded.
#[tactic(auto, unfolding(kinds::specs::Ordering::unit_ordering))]
fn compare_units(u: u16, w: u16) -> Ordering
    ensures { result ≡ unit_ordering u w }
{
    if u == w {
        return Ordering::Equal;
    }
    fold(u).cmp(&fold(w))
}

// How many of the first four units, all or none, two names of n units have alike.
#[tactic(auto, using(crate::proofs::NameLaws::alike_none, crate::proofs::NameLaws::alike_first))]
pub fn first_alike(img: &[u8], p: usize, q: usize, n: usize) -> usize
    requires named_at { NamedAt img.now p }
    requires named_at_2 { NamedAt img.now q }
    requires n_value { (n ≡ length (name_at img.now p)) × (n ≡ length (name_at img.now q)) }
    ensures { Alike (name_at img.now p) (name_at img.now q) result }
{
    if (4 <= n) & (u64_at(img, p) == u64_at(img, q)) {
        return 4;
    }
    0
}

// How many units, four at once, two names of n units have alike at their start, where the first `from` are.
#[tactic(auto, using(crate::proofs::NameLaws::name_length, crate::proofs::NameLaws::alike_more))]
fn alike(img: &[u8], p: usize, q: usize, n: usize, from: usize) -> usize
    requires named_at { NamedAt img.now p }
    requires named_at_2 { NamedAt img.now q }
    requires n_value { (n ≡ length (name_at img.now p)) × (n ≡ length (name_at img.now q)) }
    requires alike { Alike (name_at img.now p) (name_at img.now q) from }
    ensures { Alike (name_at img.now p) (name_at img.now q) result }
{
    // The result is where it stops, so the loop counts by itself.
    let mut i = from;
    while i + 4 <= n {
        if u64_at(img, p + 2 * i) != u64_at(img, q + 2 * i) {
            return i;
        }
        i += 4;
    }
    i
}

// The name of the entry at p to that of the entry at q, where both have n units, the first `from` alike.
#[tactic(auto, using(crate::proofs::Orderings::comparing))]
pub fn compare_alike(img: &[u8], p: usize, q: usize, n: usize, from: usize) -> Ordering
    requires named_at { NamedAt img.now p }
    requires named_at_2 { NamedAt img.now q }
    requires n_value { (n ≡ length (name_at img.now p)) × (n ≡ length (name_at img.now q)) }
    requires alike { Alike (name_at img.now p) (name_at img.now q) from }
    ensures { result ≡ ordering (name_at img.now p) (name_at img.now q) }
{
    for i in alike(img, p, q, n, from)..n {
        match compare_units(name_unit(img, p, i), name_unit(img, q, i)) {
            Ordering::Equal => {}
            order => return order,
        }
    }
    Ordering::Equal
}

// A name by itself to that of the entry at q.
#[tactic(auto, using(crate::proofs::Orderings::comparing))]
pub fn compare_name(want: &[u16], img: &[u8], q: usize) -> Ordering
    requires { NamedAt img.now q }
    ensures { result ≡ ordering want.now (name_at img.now q) }
{
    match want.len().cmp(&name_units(img, q)) {
        Ordering::Equal => {}
        order => return order,
    }
    for (i, unit) in want.iter().enumerate() {
        match compare_units(*unit, name_unit(img, q, i)) {
            Ordering::Equal => {}
            order => return order,
        }
    }
    Ordering::Equal
}
