// Nodes: the place of each entry in the trees, packed into two numbers of the work buffer. They name each other by slots.
#![tactic(auto)]

ghost use Rattle.std.specs.Prelude.{◌≡◌, false, ◌+◌, ◌*◌, ◌<◌, eqb, length, get_or, set};
ghost use Rattle.nodes.specs.Slots.{slot_of, entry_of};
ghost use Rattle.nodes.specs.Nodes.{node_left, node_right, node_child, node_units, node_red, node_reached, node_reach, Packable, Packed};

use kinds::{EntryId, Numbered};

// ---- slots

// 0 names none. Slot 1 is the root's, and stands for all that names no entry too.
#[derive(Clone, Copy, PartialEq, Eq)]
pub struct Slot(pub u32);

impl Slot {
    pub const NONE: Slot = Slot(0);

    pub const ROOT: Slot = Slot(1);

    // The slot of an entry.
    pub fn at(x: EntryId) -> Slot
        requires { x.0 < 0x8_0000 }
        ensures { result.0 ≡ x.0 + 1 }
    {
        Slot(x.0 + 1)
    }

    // The slot that a field names where there are n entries.
    #[tactic(auto, unfolding(crate::specs::Slots::slot_of))]
    pub fn of(x: EntryId, n: usize) -> Slot
        requires { n < 0x8_0000 }
        ensures { result.0 ≡ slot_of n x.0 }
    {
        if x.is_none() {
            return Slot::NONE;
        }
        if x.below(n) {
            return Slot::at(x);
        }
        Slot::ROOT
    }

    pub fn is_none(self) -> bool
        ensures { result ≡ eqb self.0 0 }
    {
        self == Slot::NONE
    }

    pub fn index(self) -> usize
        ensures { result ≡ self.0 }
    {
        self.0 as usize
    }

    // The entry that it is the slot of.
    #[tactic(auto, using(crate::proofs::Slots::entry_some))]
    pub fn entry(self) -> EntryId
        requires { 0 < self.0 }
        ensures { result.0 ≡ entry_of self.0 }
    {
        EntryId(self.0 - 1)
    }
}

// ---- nodes

// a: the left slot, the units of the name, whether it is red, whether it is reached, and the high bits of the child slot.
// b: the right slot, and the low bits of the child slot.
#[derive(Clone, Copy)]
pub struct Node {
    pub a: u32,
    pub b: u32,
}

impl Node {
    // The node of an entry that is no object.
    pub const OTHER: Node = Node {
        a: 0x200_0000,
        b: 0,
    };

    pub fn pack(left: Slot, right: Slot, child: Slot, units: u32, red: bool) -> Node
        requires { Packable left.0 right.0 child.0 units }
        ensures { Packed left.0 right.0 child.0 units red result.a result.b }
    {
        let colour = if red { 0x100_0000 } else { 0 };
        Node {
            a: left.0 + units * 0x8_0000 + colour + child.0 / 0x2000 * 0x400_0000,
            b: right.0 + child.0 % 0x2000 * 0x8_0000,
        }
    }

    pub fn left(self) -> Slot
        ensures { result.0 ≡ node_left self.a }
    {
        Slot(self.a % 0x8_0000)
    }

    pub fn right(self) -> Slot
        ensures { result.0 ≡ node_right self.b }
    {
        Slot(self.b % 0x8_0000)
    }

    pub fn child(self) -> Slot
        ensures { result.0 ≡ node_child self.a self.b }
    {
        Slot(self.a / 0x400_0000 * 0x2000 + self.b / 0x8_0000)
    }

    // The units of the name.
    pub fn units(self) -> usize
        ensures { result ≡ node_units self.a }
    {
        (self.a / 0x8_0000 % 32) as usize
    }

    pub fn is_red(self) -> bool
        ensures { result ≡ node_red self.a }
    {
        self.a / 0x100_0000 % 2 == 1
    }

    pub fn is_reached(self) -> bool
        ensures { result ≡ node_reached self.a }
    {
        self.a / 0x200_0000 % 2 == 1
    }

    pub fn reach(self) -> Node
        requires { node_reached self.a ≡ false }
        ensures { (result.a ≡ node_reach self.a) × (result.b ≡ self.b) }
    {
        Node {
            a: self.a + 0x200_0000,
            b: self.b,
        }
    }
}

// ---- nodes in the work buffer

pub fn node_at(work: &[u32], s: Slot) -> Node
    requires { 2 * s.0 + 1 < length work.now }
    ensures { (result.a ≡ get_or work.now (2 * s.0) 0) × (result.b ≡ get_or work.now (2 * s.0 + 1) 0) }
{
    let i = 2 * s.index();
    Node {
        a: work[i],
        b: work[i + 1],
    }
}

pub fn put_node(work: &mut [u32], s: Slot, node: Node)
    requires { 2 * s.0 + 1 < length work.old }
    ensures { work.new ≡ set (set work.old (2 * s.0) node.a) (2 * s.0 + 1) node.b }
{
    let i = 2 * s.index();
    work[i] = node.a;
    work[i + 1] = node.b;
}
