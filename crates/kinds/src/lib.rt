// Kinds of number, each its own type with its special values: sectors, mini sectors, entries, types of entries; the geometry; refusals.
#![tactic(auto)]

ghost use Rattle.std.specs.Prelude.{◌≡◌, ℕ, ◌+◌, ◌≤◌, ◌<◌, ◌*◌, ◌/◌, ◌%◌, ◌-◌, eqb, ltb, MatchOption};
ghost use Rattle.std.specs.Iterator.{at_most};
ghost use Rattle.format.specs.Layout.Chain.{FREE, END, FATSECT, DIFSECT};
ghost use Rattle.format.specs.Layout.Entry.{NOSTREAM};
ghost use Rattle.format.specs.Layout.Geometry.{counts_directory, sector_place, cells_in, difat_in, entries_in};
ghost use Rattle.format.specs.Calls.Create.{kind_for, start_for};
ghost use Rattle.kinds.specs.Sizes.{geometry_of};
ghost use Rattle.kinds.specs.Numbers.{refusal_number, number_of};
ghost use Rattle.kinds.specs.Links.{new_kind_of};

use std::marker::PhantomData;

// ---- geometry

// The sizes that a version fixes: its number, its sector shift, and the bytes of a sector.
#[derive(Clone, Copy)]
pub struct Geometry {
    pub major: u16,
    pub shift: u16,
    pub bytes: usize,
}

impl Geometry {
    pub const V3: Geometry = Geometry {
        major: 3,
        shift: 9,
        bytes: 512,
    };

    pub const V4: Geometry = Geometry {
        major: 4,
        shift: 12,
        bytes: 4096,
    };

    // Whether the header says how many sectors the directory has.
    pub fn counts_directory(self) -> bool
        ensures { result ≡ counts_directory (geometry_of self) }
    {
        self.major != 3
    }

    // The cells of a FAT or mini FAT sector.
    pub fn cells(self) -> usize
        ensures { result ≡ cells_in (geometry_of self) }
    {
        self.bytes / 4
    }

    // Which sector has item i of those of SIZE bytes that fill sectors end to end. Each version's count is a constant, so that nothing is
    // divided by a number that the compiler does not know.
    fn item_sector<const SIZE: usize>(self, i: usize) -> usize
        requires { (0 < SIZE) × (SIZE ≤ 128) × (SIZE ≤ self.bytes) }
        ensures { result ≡ i / (self.bytes / SIZE) }
    {
        if self.bytes == Geometry::V3.bytes {
            return i / (512 / SIZE);
        }
        if self.bytes == Geometry::V4.bytes {
            return i / (4096 / SIZE);
        }
        i / (self.bytes / SIZE)
    }

    // Which of that sector's items it is.
    fn item_index<const SIZE: usize>(self, i: usize) -> usize
        requires { (0 < SIZE) × (SIZE ≤ 128) × (SIZE ≤ self.bytes) }
        ensures { result ≡ i % (self.bytes / SIZE) }
    {
        if self.bytes == Geometry::V3.bytes {
            return i % (512 / SIZE);
        }
        if self.bytes == Geometry::V4.bytes {
            return i % (4096 / SIZE);
        }
        i % (self.bytes / SIZE)
    }

    // Which sector of a table has cell i, and which of its cells that is.
    pub fn cell_sector(self, i: usize) -> usize
        requires { 4 ≤ self.bytes }
        ensures { result ≡ i / cells_in (geometry_of self) }
    {
        self.item_sector::<4>(i)
    }

    pub fn cell_index(self, i: usize) -> usize
        requires { 4 ≤ self.bytes }
        ensures { result ≡ i % cells_in (geometry_of self) }
    {
        self.item_index::<4>(i)
    }

    // The entries of a DIFAT sector, which ends with a link.
    pub fn difat(self) -> usize
        requires { 4 ≤ self.bytes }
        ensures { result ≡ difat_in (geometry_of self) }
    {
        self.bytes / 4 - 1
    }

    // The directory entries of a sector.
    pub fn entries(self) -> usize
        ensures { result ≡ entries_in (geometry_of self) }
    {
        self.bytes / 128
    }

    // Which sector of the directory has entry i, and which of its entries that is.
    pub fn entry_sector(self, i: usize) -> usize
        requires { 128 ≤ self.bytes }
        ensures { result ≡ i / entries_in (geometry_of self) }
    {
        self.item_sector::<128>(i)
    }

    pub fn entry_index(self, i: usize) -> usize
        requires { 128 ≤ self.bytes }
        ensures { result ≡ i % entries_in (geometry_of self) }
    {
        self.item_index::<128>(i)
    }
}

// Streams of fewer bytes lie in mini sectors, others in sectors.
pub const CUTOFF: u64 = 4096;

// ---- numbers

// A number of a kind. Loops and calls keep it as that kind.
pub trait Numbered: Copy {
    ghost number: { Self → ℕ };

    fn of(n: u32) -> Self
        ensures { number result ≡ n };

    fn number(self) -> u32
        ensures { result ≡ number self };

    // The one of an index.
    fn at(i: usize) -> Self
        requires { i < 0x1_0000_0000 }
        ensures { number result ≡ i }
    {
        Self::of(i as u32)
    }

    // The number as an index.
    fn index(self) -> usize
        ensures { result ≡ number self }
    {
        self.number() as usize
    }

    // Whether it is one of the first n.
    fn below(self, n: usize) -> bool
        ensures { result ≡ ltb (number self) n }
    {
        self.index() < n
    }

    // The one after it.
    fn next(self) -> Self
        requires { number self < 0xFFFF_FFFF }
        ensures { number result ≡ number self + 1 }
    {
        Self::of(self.number() + 1)
    }

    // Those from it on, below `end`.
    fn until(self, end: usize) -> Numbers<Self>
        requires { end < 0x1_0000_0000 }
        ensures { (result.next ≡ number self) × (result.end ≡ end) }
    {
        Numbers {
            next: self.number(),
            end: end as u32,
            kind: PhantomData,
        }
    }
}

// Numbers of a kind, one after the other: from `next` on, below `end`.
#[derive(Clone, Copy)]
pub struct Numbers<N> {
    pub next: u32,
    pub end: u32,
    pub kind: PhantomData<N>,
}

impl<N: Numbered> Iterator for Numbers<N> {
    type Item = N;

    ghost next_gives = { λ s r t. MatchOption r (s.end ≤ s.next)
        (λ x. (s.next < s.end) × ((N.number x ≡ s.next) × ((t.next ≡ s.next + 1) × (t.end ≡ s.end)))) };

    ghost remaining = { λ s. at_most (s.end - s.next) };

    fn next(&mut self) -> Option<N> {
        if self.next < self.end {
            let x = N::of(self.next);
            self.next += 1;
            return Some(x);
        }
        None
    }
}

// A unit that chains are made of, by its number, or what its cell holds.
pub trait ChainUnit: Numbered {
    fn is_free(self) -> bool
        ensures { result ≡ eqb (Self.number self) FREE }
    {
        self.number() == 0xFFFF_FFFF
    }

    fn is_end(self) -> bool
        ensures { result ≡ eqb (Self.number self) END }
    {
        self.number() == 0xFFFF_FFFE
    }

    // The byte of its cell in a table whose sectors are laid end to end.
    fn cell(self) -> usize
        ensures { result ≡ 4 * Self.number self }
    {
        4 * (self.number() as usize)
    }
}

// ---- sectors

#[derive(Clone, Copy, PartialEq, Eq)]
pub struct Sector(pub u32);

impl Numbered for Sector {
    ghost number = { λ s. s.0 };

    fn of(n: u32) -> Sector {
        Sector(n)
    }

    fn number(self) -> u32 {
        self.0
    }
}

impl ChainUnit for Sector {}

impl Sector {
    pub const FREE: Sector = Sector(0xFFFF_FFFF);

    pub const END: Sector = Sector(0xFFFF_FFFE);

    pub const FATSECT: Sector = Sector(0xFFFF_FFFD);

    pub const DIFSECT: Sector = Sector(0xFFFF_FFFC);

    pub const FIRST: Sector = Sector(0);

    pub fn is_fat(self) -> bool
        ensures { result ≡ eqb self.0 FATSECT }
    {
        self == Sector::FATSECT
    }

    pub fn is_difat(self) -> bool
        ensures { result ≡ eqb self.0 DIFSECT }
    {
        self == Sector::DIFSECT
    }

    // The byte where it starts.
    pub fn place(self, g: Geometry) -> usize
        requires { g.bytes ≤ 4096 }
        ensures { result ≡ sector_place (geometry_of g) self.0 }
    {
        (self.0 as usize + 1) * g.bytes
    }
}

// ---- mini sectors

#[derive(Clone, Copy, PartialEq, Eq)]
pub struct MiniSector(pub u32);

impl Numbered for MiniSector {
    ghost number = { λ m. m.0 };

    fn of(n: u32) -> MiniSector {
        MiniSector(n)
    }

    fn number(self) -> u32 {
        self.0
    }
}

impl ChainUnit for MiniSector {}

impl MiniSector {
    pub const FREE: MiniSector = MiniSector(0xFFFF_FFFF);

    pub const END: MiniSector = MiniSector(0xFFFF_FFFE);

    // The bytes of a mini sector, in every version.
    pub const BYTES: usize = 64;

    pub const FIRST: MiniSector = MiniSector(0);

    // The byte of the mini stream where it starts.
    pub fn place(self) -> usize
        ensures { result ≡ 64 * self.0 }
    {
        MiniSector::BYTES * self.index()
    }
}

// ---- entries

#[derive(Clone, Copy, PartialEq, Eq)]
pub struct EntryId(pub u32);

impl Numbered for EntryId {
    ghost number = { λ x. x.0 };

    fn of(n: u32) -> EntryId {
        EntryId(n)
    }

    fn number(self) -> u32 {
        self.0
    }
}

impl EntryId {
    pub const NOSTREAM: EntryId = EntryId(0xFFFF_FFFF);

    pub const ROOT: EntryId = EntryId(0);

    // Whether it names no entry.
    pub fn is_none(self) -> bool
        ensures { result ≡ eqb self.0 NOSTREAM }
    {
        self == EntryId::NOSTREAM
    }

    pub fn is_root(self) -> bool
        ensures { result ≡ eqb self.0 0 }
    {
        self == EntryId::ROOT
    }
}

// The type of an entry, as its byte: one that stands for no type is read too.
#[derive(Clone, Copy, PartialEq, Eq)]
pub struct EntryType(pub u8);

impl EntryType {
    pub const BLANK: EntryType = EntryType(0);

    pub const STORAGE: EntryType = EntryType(1);

    pub const STREAM: EntryType = EntryType(2);

    pub const ROOT: EntryType = EntryType(5);

    pub fn is_blank(self) -> bool
        ensures { result ≡ eqb self.0 0 }
    {
        self == EntryType::BLANK
    }

    pub fn is_storage(self) -> bool
        ensures { result ≡ eqb self.0 1 }
    {
        self == EntryType::STORAGE
    }

    pub fn is_stream(self) -> bool
        ensures { result ≡ eqb self.0 2 }
    {
        self == EntryType::STREAM
    }

    pub fn is_root(self) -> bool
        ensures { result ≡ eqb self.0 5 }
    {
        self == EntryType::ROOT
    }
}

// What can be created.
#[derive(Clone, Copy)]
pub enum NewKind {
    Stream,
    Storage,
}

impl NewKind {
    pub fn entry_type(self) -> EntryType
        ensures { result.0 ≡ kind_for (new_kind_of self) }
    {
        match self {
            NewKind::Stream => EntryType::STREAM,
            NewKind::Storage => EntryType::STORAGE,
        }
    }

    // The start field: of a stream of no bytes, or of a storage.
    pub fn start(self) -> u32
        ensures { result ≡ start_for (new_kind_of self) }
    {
        match self {
            NewKind::Stream => Sector::END.0,
            NewKind::Storage => 0,
        }
    }
}

// Which of the three fields that name entries.
#[derive(Clone, Copy)]
pub enum Link {
    Left,
    Right,
    Child,
}

// ---- answers

// Why a call is refused, by its number.
#[derive(Clone, Copy, PartialEq, Eq)]
pub enum Refusal {
    BadLength = 1,
    ShortWork = 2,
    Header = 10,
    Tables = 11,
    Cells = 12,
    Directory = 13,
    Entries = 14,
    Trees = 15,
    Mini = 16,
    Streams = 17,
    Owners = 18,
    BadPath = 20,
    NotFound = 21,
    StreamOnTheWay = 22,
    NotAStream = 23,
    Beyond = 24,
    TooFewFree = 26,
    OutTooShort = 27,
    NotEmpty = 28,
    AlreadyThere = 29,
    NoBlankEntry = 30,
    RootRemoved = 31,
    PlanDoesNotFit = 32,
    BadEntry = 33,
}

impl From<Refusal> for u32 {
    ghost from_gives = { λ a r. r ≡ refusal_number a };

    fn from(a: Refusal) -> u32 {
        a as u32
    }
}

// The number of an answer that gives no values: 0 where the call is done.
pub fn number(answer: Result<(), Refusal>) -> u32
    ensures { result ≡ number_of answer }
{
    match answer {
        Ok(()) => 0,
        Err(a) => u32::from(a),
    }
}
