// The walk over the trees, in order. It reaches each object once, tests colours on its way, and says which names are to be compared.
#![tactic(auto)]

ghost use Rattle.std.specs.Prelude.{◌≡◌, false, ◌+◌, ◌-◌, ◌*◌, ◌≤◌, ◌<◌, length, set};
ghost use Rattle.nodes.specs.Nodes.{node_reached, node_reach};
ghost use Rattle.tree_walk.specs.Walking.{Underway, TurnLeft, shorter, due_slot, units_at, wait_work, wait_tops};

use directory::Directory;
use nodes::{Node, Slot, node_at};

// Where the walk stands: the slot to go down to, and whether it may not be red, since the one above it is or it is the top of a
// tree; the entry visited last, and the sibling whose name is still to be compared with its; how many are above, and how many trees
// wait.
#[derive(Clone, Copy)]
pub struct State {
    pub at: Slot,
    pub red: bool,
    pub before: Slot,
    pub due: Slot,
    pub ups: usize,
    pub tops: usize,
}

#[derive(Clone, Copy)]
pub enum Turn {
    Go(State),
    Wrong,
    Done,
}

// Whether a name of so many units has fewer than that of the sibling before it, so that it cannot come after it.
fn falls(work: &[u32], before: Slot, units: usize) -> bool
    requires { 2 * before.0 + 1 < length work.now }
    ensures { result ≡ shorter before.0 units (units_at work.now before.0) }
{
    !before.is_none() & (units < node_at(work, before).units())
}

// The sibling before, if its name has as many units, so that the names themselves are still to be compared.
fn due_of(work: &[u32], before: Slot, units: usize) -> Slot
    requires { 2 * before.0 + 1 < length work.now }
    ensures { result.0 ≡ due_slot before.0 units (units_at work.now before.0) }
{
    if units == node_at(work, before).units() {
        return before;
    }
    Slot::NONE
}

// Reaches a node, and puts it with those above.
fn enter(work: &mut [u32], n: usize, at: Slot, node: Node, ups: usize)
    requires a_value { node_reached node.a ≡ false }
    requires at_in_bounds { (2 * at.0 < length work.old) × (2 * n + 2 + ups < length work.old) }
    ensures { work.new ≡ set (set work.old (2 * at.0) (node_reach node.a)) (2 * n + 2 + ups) at.0 }
{
    let i = 2 * at.index();
    let up = 2 * n + 2 + ups;
    work[i] = node.reach().a;
    work[up] = at.0;
}

// Puts a tree with those that wait, if there is one, and says how many these are then.
fn wait(work: &mut [u32], n: usize, tops: usize, child: Slot) -> usize
    requires { (tops ≤ n) × (3 * n + 1 < length work.old) }
    ensures { (result ≡ wait_tops tops child.0) × (work.new ≡ wait_work n work.old tops child.0) }
{
    if child.is_none() {
        return tops;
    }
    let top = 3 * n + 1 - tops;
    work[top] = child.0;
    tops + 1
}

// ---- the turns. Each is lent the image for its contract, also where it reads no byte of it.

// Down: a node that is not reached yet, and is not red below a red one. Its left side is next.
fn go_down(img: &[u8], work: &mut [u32], d: Directory, s: State) -> Turn
    requires underway { Underway d img.now work.old s }
    requires at_nonzero { 0 < s.at.0 }
    ensures { TurnLeft d img.now work.old s work.new result }
{
    let node = node_at(work, s.at);
    if node.is_reached() | (s.red & node.is_red()) {
        return Turn::Wrong;
    }
    enter(work, d.count(), s.at, node, s.ups);
    Turn::Go(State {
        at: node.left(),
        red: node.is_red(),
        before: s.before,
        due: Slot::NONE,
        ups: s.ups + 1,
        tops: s.tops,
    })
}

// Up: the nearest above is visited. The tree below it waits, and its right side is next. No name is read.
fn visit(img: &[u8], work: &mut [u32], d: Directory, s: State) -> Turn
    requires underway { Underway d img.now work.old s }
    requires at_value { (s.at.0 ≡ 0) × (0 < s.ups) }
    ensures { TurnLeft d img.now work.old s work.new result }
{
    let n = d.count();
    let ups = s.ups - 1;
    let up = 2 * n + 2 + ups;
    let at = Slot(work[up]);
    let node = node_at(work, at);
    if falls(work, s.before, node.units()) {
        return Turn::Wrong;
    }
    let due = due_of(work, s.before, node.units());
    let tops = wait(work, n, s.tops, node.child());
    Turn::Go(State {
        at: node.right(),
        red: node.is_red(),
        before: at,
        due,
        ups,
        tops,
    })
}

// On: the next of the trees that wait.
fn next_tree(img: &[u8], work: &[u32], d: Directory, s: State) -> State
    requires underway { Underway d img.now work.now s }
    requires at_value { (s.at.0 ≡ 0) × (s.ups ≡ 0) × (0 < s.tops) }
    ensures { TurnLeft d img.now work.now s work.now (Turn.Go result) }
{
    let n = d.count();
    let tops = s.tops - 1;
    let top = 3 * n + 1 - tops;
    State {
        at: Slot(work[top]),
        red: true,
        before: Slot::NONE,
        due: Slot::NONE,
        ups: 0,
        tops,
    }
}

// One turn of the walk.
pub fn take_turn(img: &[u8], work: &mut [u32], d: Directory, s: State) -> Turn
    requires { Underway d img.now work.old s }
    ensures { TurnLeft d img.now work.old s work.new result }
{
    if !s.at.is_none() {
        return go_down(img, work, d, s);
    }
    if 0 < s.ups {
        return visit(img, work, d, s);
    }
    if 0 < s.tops {
        return Turn::Go(next_tree(img, work, d, s));
    }
    Turn::Done
}
