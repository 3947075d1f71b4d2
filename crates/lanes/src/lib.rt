// Chains marked side by side, so that the processor waits for many cells at once.
#![tactic(auto)]

ghost use Rattle.std.specs.Prelude.{◌≡◌, cond, ◌+◌, ◌≤◌, ◌<◌, leb, length, get_or, set};
ghost use Rattle.lanes.specs.Answers.{Stepped, LanesShort, LanesMarked};

use chains::is_mark;
use kinds::Sector;

// What a step of a lane found: no chain; the cell of its unit, which it has marked; the chain's end; or a unit that has this very mark.
#[derive(Clone, Copy)]
enum Step {
    Broken,
    On(u32),
    Done,
    Met,
}

// One step of a lane that is at s, with k units to go.
fn take_step(work: &mut [u32], at: usize, limit: usize, s: u32, k: u32) -> Step
    requires { (at + limit ≤ length work.old) × (limit < 0x1000_0000) × (k < 0x1000_0000) }
    ensures { Stepped at limit s k work.old work.new result }
{
    if k == 0 {
        if s == Sector::END.0 {
            return Step::Done;
        }
        return Step::Broken;
    }
    let u = s as usize;
    if limit <= u {
        return Step::Broken;
    }
    let v = work[at + u];
    if is_mark(v) {
        if v == 0x8000_0000 + k {
            return Step::Met;
        }
        return Step::Broken;
    }
    work[at + u] = 0x8000_0000 + k;
    Step::On(v)
}

// The lane whose turn it is: i, or the first behind the last.
fn turn(i: usize, live: usize) -> usize
    ensures { result ≡ cond (leb live i) 0 i }
{
    if live <= i {
        return 0;
    }
    i
}

// The lane `from` stands in the place of another.
fn move_lane(here: &mut [u32], left: &mut [u32], from: usize, to: usize)
    requires { (from < length here.old) × (to < length here.old) × (from < length left.old) × (to < length left.old) }
    ensures here { here.new ≡ set here.old to (get_or here.old from 0) }
    ensures left { left.new ≡ set left.old to (get_or left.old from 0) }
{
    here[to] = here[from];
    left[to] = left[from];
}

// Marks the chains of the first `count` lanes, at most 32: lane i is at unit here[i], with left[i] units to go. The arrays are used up. Says whether
// one met a unit that had its mark already; nothing where one is no chain.
pub fn mark_lanes(
    work: &mut [u32],
    at: usize,
    limit: usize,
    here: &mut [u32; 32],
    left: &mut [u32; 32],
    count: usize,
) -> Option<bool>
    requires limit_in_bounds { (at + limit ≤ length work.old) × (limit < 0x1000_0000) }
    requires lanes_short { LanesShort left.old count }
    ensures { LanesMarked at limit here.old left.old count work.old work.new result }
{
    // Those that are not done stand first in the arrays, `live` of them, and take a step each in turn. The last takes the place of one that is done.
    let mut live = count;
    let mut i = 0;
    let mut shared = false;
    while 0 < live {
        match take_step(work, at, limit, here[i], left[i]) {
            Step::Broken => return None,
            Step::On(v) => {
                here[i] = v;
                left[i] -= 1;
                i = turn(i + 1, live);
            }
            Step::Done => {
                live -= 1;
                move_lane(here, left, live, i);
                i = turn(i, live);
            }
            Step::Met => {
                live -= 1;
                move_lane(here, left, live, i);
                i = turn(i, live);
                shared = true;
            }
        }
    }
    Some(shared)
}
