// Sectors and mini sectors alike: a unit of either kind of an opened volume, its cell, and where cell and unit stand in the image.
#![tactic(auto)]

ghost use Rattle.std.specs.Prelude.{◌≡◌, ◌+◌, ◌/◌, ◌≤◌, ◌<◌, eqb, length};
ghost use Rattle.format.specs.Layout.Chain.{FREE, END};
ghost use Rattle.format.specs.Layout.Entry.{start as start_of};
ghost use Rattle.kinds.specs.Sizes.{geometry_of};
ghost use Rattle.entries.specs.Entry.{entry_at};
ghost use Rattle.volume.specs.Opened.{Readied};
ghost use Rattle.spaces.specs.Units.{kind_of, number_in, unit_of};
ghost use Rattle.spaces.specs.Spaces.{kind_for, space_at, unit_bytes, unit_count, listed_place, listed_space, CellListed, UnitListed};

use entries::{start_mini, start_sector};
use kinds::{CUTOFF, ChainUnit, Geometry, MiniSector, Numbered, Sector};
use minis::mini_cell;
use tables::cell_at;
use volume::Volume;

// The kinds of unit.
#[derive(Clone, Copy)]
pub enum Kind {
    Sectors,
    Minis,
}

// A unit of either kind, by its number.
#[derive(Clone, Copy)]
pub enum Unit {
    Sector(Sector),
    Mini(MiniSector),
}

impl Unit {
    pub fn kind(self) -> Kind
        ensures { result ≡ kind_of self }
    {
        match self {
            Unit::Sector(_) => Kind::Sectors,
            Unit::Mini(_) => Kind::Minis,
        }
    }

    // The unit whose number stands in the work buffer.
    pub fn of(kind: Kind, number: u32) -> Unit
        ensures { result ≡ unit_of kind number }
    {
        match kind {
            Kind::Sectors => Unit::Sector(Sector(number)),
            Kind::Minis => Unit::Mini(MiniSector(number)),
        }
    }

    // The number that stands for it there.
    pub fn number(self) -> u32
        ensures { result ≡ number_in self }
    {
        match self {
            Unit::Sector(s) => s.0,
            Unit::Mini(m) => m.0,
        }
    }

    // The unit of an index.
    pub fn at(kind: Kind, i: usize) -> Unit
        requires { i < 0x1_0000_0000 }
        ensures { result ≡ unit_of kind i }
    {
        match kind {
            Kind::Sectors => Unit::Sector(Sector::at(i)),
            Kind::Minis => Unit::Mini(MiniSector::at(i)),
        }
    }

    pub fn index(self) -> usize
        ensures { result ≡ number_in self }
    {
        match self {
            Unit::Sector(s) => s.index(),
            Unit::Mini(m) => m.index(),
        }
    }

    // What a cell of a kind holds where its unit is free, and where a chain ends.
    pub fn free(kind: Kind) -> Unit
        ensures { result ≡ unit_of kind FREE }
    {
        match kind {
            Kind::Sectors => Unit::Sector(Sector::FREE),
            Kind::Minis => Unit::Mini(MiniSector::FREE),
        }
    }

    pub fn end(kind: Kind) -> Unit
        ensures { result ≡ unit_of kind END }
    {
        match kind {
            Kind::Sectors => Unit::Sector(Sector::END),
            Kind::Minis => Unit::Mini(MiniSector::END),
        }
    }

    pub fn is_free(self) -> bool
        ensures { result ≡ eqb (number_in self) FREE }
    {
        match self {
            Unit::Sector(s) => s.is_free(),
            Unit::Mini(m) => m.is_free(),
        }
    }
}

// The kind of unit that a stream of n bytes lies in.
pub fn kind_for(n: u64) -> Kind
    ensures { result ≡ kind_for n }
{
    if n < CUTOFF {
        Kind::Minis
    } else {
        Kind::Sectors
    }
}

// Where a stream of a kind starts, by its entry at a byte place.
pub fn start_unit(img: &[u8], p: usize, kind: Kind) -> Unit
    requires { p + 128 ≤ length img.now }
    ensures { result ≡ unit_of kind (start_of (entry_at img.now p)) }
{
    match kind {
        Kind::Sectors => Unit::Sector(start_sector(img, p)),
        Kind::Minis => Unit::Mini(start_mini(img, p)),
    }
}

// ---- sizes

// How many bytes a unit has.
pub fn unit_bytes(v: Volume, kind: Kind) -> usize
    ensures { result ≡ unit_bytes v kind }
{
    match kind {
        Kind::Sectors => v.tables.geometry.bytes,
        Kind::Minis => MiniSector::BYTES,
    }
}

// How many units there are.
pub fn unit_count(v: Volume, kind: Kind) -> usize
    ensures { result ≡ unit_count v kind }
{
    match kind {
        Kind::Sectors => v.tables.sectors,
        Kind::Minis => v.minis.units,
    }
}

// ---- places, by the lists in the work buffer alone: they hold while the image changes

// The byte of the image that is byte i of what the listed sectors hold.
pub fn listed_place(work: &[u32], g: Geometry, list: usize, i: usize) -> usize
    requires le_bytes { 512 ≤ g.bytes }
    requires bytes_bound { g.bytes ≤ 4096 }
    requires bytes_in_bounds { list + i / g.bytes < length work.now }
    ensures { result ≡ listed_place (geometry_of g) work.now list i }
{
    Sector(work[list + i / g.bytes]).place(g) + i % g.bytes
}

// The byte where the cell of a unit starts.
pub fn cell_place(work: &[u32], v: Volume, u: Unit) -> usize
    requires { CellListed v work.now (kind_of u) (number_in u) }
    ensures { result ≡ (listed_space v work.now (kind_of u)).cell_place (number_in u) }
{
    let g = v.tables.geometry;
    match u {
        Unit::Sector(s) => listed_place(work, g, v.tables.list, s.cell()),
        Unit::Mini(m) => listed_place(work, g, v.minis.list, m.cell()),
    }
}

// The byte where a unit starts.
pub fn unit_place(work: &[u32], v: Volume, u: Unit) -> usize
    requires { UnitListed v work.now (kind_of u) (number_in u) }
    ensures { result ≡ (listed_space v work.now (kind_of u)).unit_place (number_in u) }
{
    let g = v.tables.geometry;
    match u {
        Unit::Sector(s) => s.place(g),
        Unit::Mini(m) => listed_place(work, g, v.stream, m.place()),
    }
}

// ---- cells

// The cell of a unit.
pub fn cell_of(img: &[u8], work: &[u32], v: Volume, u: Unit) -> Unit
    requires readied { Readied v img.now work.now }
    requires u_bound { number_in u < (space_at v img.now (kind_of u)).limit }
    ensures { result ≡ unit_of (kind_of u) ((space_at v img.now (kind_of u)).cell (number_in u)) }
{
    match u {
        Unit::Sector(s) => Unit::Sector(cell_at(img, work, v.tables, s)),
        Unit::Mini(m) => Unit::Mini(mini_cell(img, work, v.minis, m)),
    }
}
