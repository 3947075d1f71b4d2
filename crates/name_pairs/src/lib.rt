// Pairs of names of as many units, compared many at once: both are read before any is compared, so that they come from memory side by side.
#![tactic(auto)]

ghost use Rattle.std.specs.Prelude.{◌≡◌, length};
ghost use Rattle.format.specs.Basics.Lists.{all_below};
ghost use Rattle.format.specs.Layout.Name.{name_less};
ghost use Rattle.entries.specs.Entry.{name_at, NamedAt, Alike};
ghost use Rattle.name_pairs.specs.Pairs.{pair_rises, PairsNamed, Looked};

use entries::names::{compare_alike, first_alike, name_units};
use std::cmp::Ordering;

// How many units the names of each pair have, and how many of the first four they have alike.
#[tactic(auto, using(crate::proofs::Pairs::units_few))]
fn look(
    img: &[u8],
    low: &[u32; 64],
    high: &[u32; 64],
    units: &mut [u32; 64],
    from: &mut [u32; 64],
    k: usize,
)
    requires pairs_named { PairsNamed img.now low.now high.now k }
    requires units_len { (length units.old ≡ 64) × (length from.old ≡ 64) }
    ensures { Looked img.now low.now high.now units.new from.new k }
{
    for i in 0..k {
        let n = name_units(img, high[i] as usize);
        units[i] = n as u32;
        from[i] = first_alike(img, low[i] as usize, high[i] as usize, n) as u32;
    }
}

// Whether the name of the entry at p comes before that of the entry at q, where both have n units, the first `from` alike.
fn pair_rises(img: &[u8], p: usize, q: usize, n: usize, from: usize) -> bool
    requires named_at { NamedAt img.now p }
    requires named_at_2 { NamedAt img.now q }
    requires n_value { (n ≡ length (name_at img.now p)) × (n ≡ length (name_at img.now q)) }
    requires alike { Alike (name_at img.now p) (name_at img.now q) from }
    ensures { result ≡ name_less (name_at img.now p) (name_at img.now q) }
{
    compare_alike(img, p, q, n, from) == Ordering::Less
}

// Whether in each of the first k pairs the name at the low place comes before that at the high one.
#[tactic(auto, unfolding(format::specs::Basics::Lists::all_below))]
pub fn pairs_rise(img: &[u8], low: &[u32; 64], high: &[u32; 64], k: usize) -> bool
    requires { PairsNamed img.now low.now high.now k }
    ensures { result ≡ all_below k (pair_rises img.now low.now high.now) }
{
    let mut units = [0u32; 64];
    let mut from = [0u32; 64];
    look(img, low, high, &mut units, &mut from, k);
    for i in 0..k {
        let (p, q) = (low[i] as usize, high[i] as usize);
        if !pair_rises(img, p, q, units[i] as usize, from[i] as usize) {
            return false;
        }
    }
    true
}
