// Group 15: the trees of the directory. Names are compared 64 pairs at once.
#![tactic(auto)]

ghost use Rattle.std.specs.Prelude.{◌≡◌, ◌||◌, ◌+◌, ◌*◌, ◌≤◌, ◌<◌, ltb, length};
ghost use Rattle.format.specs.Basics.Lists.{all_below};
ghost use Rattle.format.specs.Rules.Trees.{tree_rules};
ghost use Rattle.tables.specs.Work.{Wrote};
ghost use Rattle.name_pairs.specs.Pairs.{pair_rises, PairsNamed};
ghost use Rattle.directory.specs.Listed.{count_of, entries_of, DirectoryListed};
ghost use Rattle.tree_walk.specs.Walking.{WalkReady, DuePaired};
ghost use Rattle.hierarchy.specs.Walked.{WalkLeft, Noted, reached_in};

use directory::{Directory, child_of, place};
use kinds::EntryId;
use name_pairs::pairs_rise;
use nodes::{Node, Slot};
use tree_walk::{State, Turn, take_turn};

// Notes the places of two names that are still to be compared behind the first k pairs, if there are two, and says how many pairs these are then.
fn note(
    img: &[u8],
    work: &[u32],
    d: Directory,
    low: &mut [u32; 64],
    high: &mut [u32; 64],
    k: usize,
    due: Slot,
    at: Slot,
) -> usize
    requires directory_listed { DirectoryListed d img.now work.now }
    requires due_paired { DuePaired (entries_of d img.now) due.0 at.0 }
    requires k_bound { (k < 64) × (length low.old ≡ 64) × (length high.old ≡ 64) }
    ensures { Noted d work.now due.0 at.0 low.old low.new high.old high.new k result }
{
    if due.is_none() {
        return k;
    }
    low[k] = place(work, d, due.entry()) as u32;
    high[k] = place(work, d, at.entry()) as u32;
    k + 1
}

// Whether there is room for one more pair, or all of them rise.
fn full_rises(img: &[u8], low: &[u32; 64], high: &[u32; 64], k: usize) -> bool
    requires { PairsNamed img.now low.now high.now k }
    ensures { result ≡ (ltb k 64 || all_below k (pair_rises img.now low.now high.now)) }
{
    if k < 64 {
        return true;
    }
    pairs_rise(img, low, high, k)
}

// Walks over all trees. False where a rule is broken on the way.
fn walk(img: &[u8], work: &mut [u32], d: Directory) -> bool
    requires { WalkReady d img.now work.old }
    ensures { WalkLeft d img.now work.old work.new result }
{
    let first = Slot::of(child_of(img, work, d, EntryId::ROOT), d.count());
    let mut low = [0u32; 64];
    let mut high = [0u32; 64];
    let mut k: usize = 0;
    let mut s = State {
        at: first,
        red: true,
        before: Slot::NONE,
        due: Slot::NONE,
        ups: 0,
        tops: 0,
    };
    loop {
        match take_turn(img, work, d, s) {
            Turn::Go(next) => {
                s = next;
                k = note(img, work, d, &mut low, &mut high, k, s.due, s.before);
                if !full_rises(img, &low, &high, k) {
                    return false;
                }
                k = k % 64;
            }
            Turn::Wrong => {
                return false;
            }
            Turn::Done => {
                return pairs_rise(img, &low, &high, k);
            }
        }
    }
}

// Whether each of n nodes is reached. It has no early end, so that the compiler can take many at once.
#[tactic(auto, using(theory::proofs::Loops::below_none, theory::proofs::Loops::below_next))]
fn all_reached(work: &[u32], n: usize) -> bool
    requires { 2 * n + 2 ≤ length work.now }
    ensures { result ≡ all_below n (reached_in work.now) }
{
    let mut all = true;
    for i in 0..n {
        let node = Node {
            a: work[2 * (i + 1)],
            b: 0,
        };
        all = all & node.is_reached();
    }
    all
}

// Whether the trees are sound, reach each object once, are sorted and rightly coloured. The nodes are the entries', and none is reached yet.
pub fn tree_rules(img: &[u8], work: &mut [u32], d: Directory) -> bool
    requires { WalkReady d img.now work.old }
    ensures answer { result ≡ tree_rules (entries_of d img.now) }
    ensures wrote { Wrote work.old work.new 0 (3 * count_of d + 2) }
{
    if !walk(img, work, d) {
        return false;
    }
    all_reached(work, d.count())
}
