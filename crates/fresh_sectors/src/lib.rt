// The sectors of a fresh image, each put into a lent buffer of a sector's length.
#![tactic(auto)]

ghost use Rattle.std.specs.Prelude.{◌≡◌, ◌+◌, ◌-◌, ◌≤◌, ◌<◌, length};
ghost use Rattle.format.specs.Basics.Bytes.{put_bytes};
ghost use Rattle.format.specs.Layout.Geometry.{cells_in};
ghost use Rattle.format.specs.Fresh.Plan.{start_from};
ghost use Rattle.format.specs.Fresh.Cells.{link_in, fresh_cell, fresh_difat, difat_number};
ghost use Rattle.format.specs.Fresh.Header.{numbers_below};
ghost use Rattle.format.specs.Fresh.Image.{root_entry, fresh_entry, directory_block, fresh_sector};
ghost use Rattle.fresh_sectors.specs.Parts.{Stands, sizes, plan};
ghost use Rattle.fresh_sectors.specs.Tables.{table_number};

use entry_writes::{put_blank_entry, put_new_entry};
use header::DIFAT_ENTRIES;
use kinds::{EntryId, EntryType, Geometry, MiniSector, Numbered, Sector};
use le::put_u32;

// What a fresh image is asked for: its version, how many sectors it has, the directory and the mini FAT have, and its mini sectors.
#[derive(Clone, Copy)]
pub struct Plan {
    pub version: u32,
    pub sectors: u64,
    pub directory: u64,
    pub minifat: u64,
    pub minis: u64,
}

// A plan with its sizes, and the first sector of each part behind the FAT, which begins with sector 0.
#[derive(Clone, Copy)]
pub struct Parts {
    pub geometry: Geometry,
    pub plan: Plan,
    pub difat: Sector,
    pub directory: Sector,
    pub minifat: Sector,
    pub stream: Sector,
    pub spare: Sector,
}

// The start of a chain over the sectors from one to before another.
#[tactic(auto, unfolding(format::specs::Fresh::Plan::start_from))]
pub fn start_of(from: Sector, to: Sector) -> Sector
    requires { from.0 ≤ to.0 }
    ensures { result.0 ≡ start_from from.0 (to.0 - from.0) }
{
    if from == to {
        return Sector::END;
    }
    from
}

// ---- tables

// The link of sector s in a part that ends right before the sector `end`.
#[tactic(auto, unfolding(format::specs::Fresh::Cells::link_in))]
fn link_in(end: Sector, s: Sector) -> Sector
    requires { s.0 < 0xFFFF_FFFF }
    ensures { result.0 ≡ link_in end.0 s.0 }
{
    let next = s.next();
    if next == end {
        return Sector::END;
    }
    next
}

// The cell of a sector.
#[tactic(auto, using(crate::proofs::Standing::cell_at))]
fn fresh_cell(l: Parts, s: Sector) -> Sector
    requires stands { Stands l }
    requires s_bound { s.0 < 0xFFFF_FFFF }
    ensures { result.0 ≡ fresh_cell (sizes l) (plan l) s.0 }
{
    if s.0 < l.difat.0 {
        return Sector::FATSECT;
    }
    if s.0 < l.directory.0 {
        return Sector::DIFSECT;
    }
    if s.0 < l.minifat.0 {
        return link_in(l.minifat, s);
    }
    if s.0 < l.stream.0 {
        return link_in(l.stream, s);
    }
    if s.0 < l.spare.0 {
        return link_in(l.spare, s);
    }
    Sector::FREE
}

// DIFAT entry i: FAT sector i, and behind the last one free.
#[tactic(auto, using(crate::proofs::Standing::difat_at))]
pub fn difat_entry(l: Parts, i: usize) -> Sector
    requires { Stands l }
    ensures { result.0 ≡ fresh_difat (sizes l) (plan l) i }
{
    if i < l.difat.index() {
        return Sector::at(i);
    }
    Sector::FREE
}

// Number i of the DIFAT sector s: an entry, or the link behind the entries.
#[tactic(auto, using(crate::proofs::Standing::difat_number_at))]
fn difat_number(l: Parts, s: Sector, i: usize) -> Sector
    requires stands { Stands l }
    requires difat_le_s { (l.difat.0 ≤ s.0) × (s.0 < l.directory.0) }
    requires i_bound { i < cells_in (sizes l) }
    ensures { result.0 ≡ difat_number (sizes l) (plan l) (s.0 - l.difat.0) i }
{
    let links = l.geometry.difat();
    if i < links {
        let j = s.index() - l.difat.index();
        return difat_entry(l, DIFAT_ENTRIES + (links * j + i));
    }
    link_in(l.directory, s)
}

// Number i of a table's sector s.
#[tactic(auto, using(crate::proofs::Standing::number_at))]
fn table_number(l: Parts, s: Sector, i: usize) -> u32
    requires stands { Stands l }
    requires i_bound { i < cells_in (sizes l) }
    ensures { result ≡ table_number (sizes l) (plan l) s.0 i }
{
    if s.0 < l.difat.0 {
        let k = l.geometry.cells() * s.index() + i;
        return fresh_cell(l, Sector::at(k)).0;
    }
    if s.0 < l.directory.0 {
        return difat_number(l, s, i).0;
    }
    MiniSector::FREE.0
}

// A sector of FAT, DIFAT or mini FAT.
fn fill_table(part: &mut [u8], l: Parts, s: Sector)
    requires stands { Stands l }
    requires part_len { length part.old ≡ l.geometry.bytes }
    ensures { part.new ≡ numbers_below (cells_in (sizes l)) (table_number (sizes l) (plan l) s.0) }
{
    for i in 0..l.geometry.cells() {
        put_u32(part, i * 4, table_number(l, s, i));
    }
}

// ---- the directory

// A fresh root at byte p.
#[tactic(auto, unfolding(format::specs::Fresh::Image::root_entry, format::specs::Fresh::Image::root_name))]
fn put_root(part: &mut [u8], p: usize, start: Sector, size: u64)
    requires { p + 128 ≤ length part.old }
    ensures { part.new ≡ put_bytes part.old p (root_entry start.0 size) }
{
    let name = [
        0x52u16, 0x6F, 0x6F, 0x74, 0x20, 0x45, 0x6E, 0x74, 0x72, 0x79,
    ];
    put_new_entry(part, p, &name, EntryType::ROOT, start.0, size);
}

// Entry e at byte p: the root, or a blank one.
#[tactic(auto, using(crate::proofs::Standing::entry_at))]
fn put_entry(part: &mut [u8], p: usize, l: Parts, e: EntryId)
    requires stands { Stands l }
    requires p_in_bounds { p + 128 ≤ length part.old }
    ensures { part.new ≡ put_bytes part.old p (fresh_entry (sizes l) (plan l) e.0) }
{
    if e.is_root() {
        put_root(part, p, start_of(l.stream, l.spare), 64 * l.plan.minis);
        return;
    }
    put_blank_entry(part, p);
}

// The directory's sector s.
fn fill_directory(part: &mut [u8], l: Parts, s: Sector)
    requires stands { Stands l }
    requires part_len { length part.old ≡ l.geometry.bytes }
    requires directory_le_s { (l.directory.0 ≤ s.0) × (s.0 < l.minifat.0) }
    ensures { part.new ≡ directory_block (sizes l) (plan l) (s.0 - l.directory.0) }
{
    let n = l.geometry.entries();
    let first = n * (s.index() - l.directory.index());
    for i in 0..n {
        put_entry(part, i * 128, l, EntryId::at(first + i));
    }
}

// ---- every sector

#[tactic(auto, using(crate::proofs::Standing::sector_at))]
pub fn fill_sector(part: &mut [u8], l: Parts, s: Sector)
    requires stands { Stands l }
    requires part_len { length part.old ≡ l.geometry.bytes }
    ensures { part.new ≡ fresh_sector (sizes l) (plan l) s.0 }
{
    if s.0 < l.directory.0 {
        fill_table(part, l, s);
        return;
    }
    if s.0 < l.minifat.0 {
        fill_directory(part, l, s);
        return;
    }
    if s.0 < l.stream.0 {
        fill_table(part, l, s);
        return;
    }
    part.fill(0);
}
