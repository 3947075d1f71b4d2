// Writes a fresh image into a lent buffer.
#![tactic(auto)]

ghost use Rattle.std.specs.Prelude.{◌≡◌, suc, ◌*◌, ◌<◌, length, get_or};
ghost use Rattle.format.specs.Fresh.Plan.{planned};
ghost use Rattle.format.specs.Fresh.Header.{directory_field, numbers_below, header_front, fresh_header};
ghost use Rattle.format.specs.Fresh.Image.{fresh_image};
ghost use Rattle.format.specs.Fresh.Answer.{buffer_fits, format_answer, formatted};
ghost use Rattle.kinds.specs.Sizes.{geometry_of};
ghost use Rattle.kinds.specs.Numbers.{number_of};
ghost use Rattle.fresh_sectors.specs.Parts.{Stands, sizes, plan, plan_of};
ghost use Rattle.formatting.specs.Plans.{plan_for, plan_sound, Small, PartsOf};
ghost use Rattle.formatting.specs.Numbers.{field_list, header_number};

use chains::units_for;
use fresh_sectors::{Parts, Plan, difat_entry, fill_sector, start_of};
use header::{length_allowed, sector_count};
use kinds::{Geometry, Numbered, Refusal, Sector};
use le::{put_u16, put_u32, put_u64};
use tables::sectors::difat_need;

// ---- the header

// Its first 40 bytes, the same for all plans of a version.
fn put_marks(part: &mut [u8], g: Geometry)
    requires { length part.old ≡ 40 }
    ensures { part.new ≡ header_front (geometry_of g) }
{
    part.fill(0);
    put_u64(part, 0, 0xE11A_B1A1_E011_CFD0);
    put_u16(part, 24, 0x3E);
    put_u16(part, 26, g.major);
    put_u16(part, 28, 0xFFFE);
    put_u16(part, 30, g.shift);
    put_u16(part, 32, 6);
}

// How many sectors the directory has, where the version says it.
#[tactic(auto, using(crate::proofs::Headers::directory_count, fresh_sectors::proofs::Standing::parts_risen))]
fn directory_field(l: Parts) -> u32
    requires { Stands l }
    ensures { result ≡ directory_field (sizes l) (plan l) }
{
    if l.geometry.counts_directory() {
        return l.minifat.0 - l.directory.0;
    }
    0
}

// Field i of the nine from byte 40 on.
#[tactic(auto, using(crate::proofs::Headers::field_at, fresh_sectors::proofs::Standing::parts_risen))]
fn field(l: Parts, i: usize) -> u32
    requires stands { Stands l }
    requires i_bound { i < 9 }
    ensures { result ≡ get_or (field_list (sizes l) (plan l)) i 0 }
{
    match i {
        0 => directory_field(l),
        1 => l.difat.0,
        2 => l.directory.0,
        3 => 0,
        4 => 4096,
        5 => start_of(l.minifat, l.stream).0,
        6 => l.stream.0 - l.minifat.0,
        7 => start_of(l.difat, l.directory).0,
        _ => l.directory.0 - l.difat.0,
    }
}

// Number i from byte 40 on: a field, or a DIFAT entry.
#[tactic(auto, using(crate::proofs::Headers::number_at))]
fn header_number(l: Parts, i: usize) -> u32
    requires { Stands l }
    ensures { result ≡ header_number (sizes l) (plan l) i }
{
    if i < 9 {
        return field(l, i);
    }
    difat_entry(l, i - 9).0
}

// All of them, in their 472 bytes.
fn put_numbers(part: &mut [u8], l: Parts)
    requires stands { Stands l }
    requires part_len { length part.old ≡ 472 }
    ensures { part.new ≡ numbers_below 118 (header_number (sizes l) (plan l)) }
{
    for i in 0..118 {
        put_u32(part, i * 4, header_number(l, i));
    }
}

// The header's sector.
fn fill_header(part: &mut [u8], l: Parts)
    requires stands { Stands l }
    requires part_len { length part.old ≡ l.geometry.bytes }
    ensures { part.new ≡ fresh_header (sizes l) (plan l) }
{
    put_marks(&mut part[0..40], l.geometry);
    put_numbers(&mut part[40..512], l);
    part[512..].fill(0);
}

// ---- the image

fn fill_image(img: &mut [u8], l: Parts)
    requires stands { Stands l }
    requires img_len { length img.old ≡ suc l.plan.sectors * l.geometry.bytes }
    ensures { img.new ≡ fresh_image (sizes l) (plan l) }
{
    let g = l.geometry;
    let bytes = g.bytes;
    fill_header(&mut img[0..bytes], l);
    for s in Sector::FIRST.until(l.plan.sectors as usize) {
        let at = s.place(g);
        fill_sector(&mut img[at..at + bytes], l, s);
    }
}

// ---- the plan

// The sizes that a plan goes by: an unknown version counts as 3.
#[tactic(auto, unfolding(format::specs::Fresh::Plan::planned, format::specs::Layout::Geometry::version3, format::specs::Layout::Geometry::version4))]
fn geometry_for(p: Plan) -> Geometry
    ensures { geometry_of result ≡ planned (plan_of p) }
{
    if p.version == 4 {
        return Geometry::V4;
    }
    Geometry::V3
}

// Whether the buffer is one for the plan; where not, the answer is 1.
fn buffer_fits(img: &[u8], g: Geometry, p: Plan) -> bool
    requires { geometry_of g ≡ planned (plan_of p) }
    ensures { result ≡ buffer_fits (length img.now) (plan_of p) }
{
    if !length_allowed(img.len(), g) {
        return false;
    }
    sector_count(img, g) as u64 == p.sectors
}

// Whether the plan's parts can be worked out; where not, they do not fit.
fn plan_sound(g: Geometry, p: Plan) -> bool
    requires { geometry_of g ≡ planned (plan_of p) }
    ensures { result ≡ plan_sound (geometry_of g) (plan_of p) }
{
    let used = units_for(p.minis, g.cells() as u64);
    ((p.version == 3) | (p.version == 4))
        & (1 <= p.directory)
        & (p.directory <= p.sectors)
        & (p.minifat <= p.sectors)
        & (used <= p.minifat)
}

// The parts of a plan, one after the other.
fn parts_of(g: Geometry, p: Plan) -> Parts
    requires { Small (geometry_of g) (plan_of p) }
    ensures { PartsOf g p result }
{
    let fat = units_for(p.sectors, g.cells() as u64) as usize;
    let directory = fat + difat_need(g, fat);
    let minifat = directory + p.directory as usize;
    let stream = minifat + p.minifat as usize;
    let spare = stream + units_for(64 * p.minis, g.bytes as u64) as usize;
    Parts {
        geometry: g,
        plan: p,
        difat: Sector::at(fat),
        directory: Sector::at(directory),
        minifat: Sector::at(minifat),
        stream: Sector::at(stream),
        spare: Sector::at(spare),
    }
}

// ---- the call

// Writes a fresh image over the whole buffer. A refusal writes nothing.
pub fn format_image(
    img: &mut [u8],
    version: u32,
    sectors: u64,
    directory: u64,
    minifat: u64,
    minis: u64,
) -> Result<(), Refusal>
    ensures answer { number_of result ≡ format_answer (length img.old) (plan_for version sectors directory minifat minis) }
    ensures image { img.new ≡ formatted img.old (plan_for version sectors directory minifat minis) }
{
    let p = Plan {
        version,
        sectors,
        directory,
        minifat,
        minis,
    };
    let g = geometry_for(p);
    if !buffer_fits(img, g, p) {
        return Err(Refusal::BadLength);
    }
    if !plan_sound(g, p) {
        return Err(Refusal::PlanDoesNotFit);
    }
    let l = parts_of(g, p);
    if sectors < l.spare.0 as u64 {
        return Err(Refusal::PlanDoesNotFit);
    }
    fill_image(img, l);
    Ok(())
}
