// The lengths of image and work buffer, and the header: its fields, and group 10.
#![tactic(auto)]

ghost use Rattle.std.specs.Prelude.{◌≡◌, ◌≤◌, ◌<◌, not, ◌||◌, eqb, length};
ghost use Rattle.format.specs.Layout.Geometry.{counts_directory, sector_count, header_difat};
ghost use Rattle.format.specs.Layout.Header.{directory_count, directory_start, mini_fat_start, mini_fat_count, difat_start};
ghost use Rattle.format.specs.Layout.Tables.{difat_entry};
ghost use Rattle.format.specs.Rules.Length.{length_allowed, work_need};
ghost use Rattle.format.specs.Rules.Version.{version_of};
ghost use Rattle.format.specs.Rules.Header.{header_rules};
ghost use Rattle.kinds.specs.Sizes.{geometry_of};
ghost use Rattle.header.specs.Sized.{ImageSized, F, D};

use kinds::{Geometry, Sector};
use le::{all_zero, u16_at, u32_at, u64_at};

// ---- lengths

// Whether an image of n bytes may be looked at; where not, the answer is 1.
pub fn length_allowed(n: usize, g: Geometry) -> bool
    requires bytes_nonzero { 0 < g.bytes }
    requires bytes_bound { g.bytes ≤ 4096 }
    ensures { result ≡ length_allowed (geometry_of g) n }
{
    (n % g.bytes == 0) & (3 * g.bytes <= n) & (n <= 67_108_864)
}

// How many numbers the work buffer has at least, for an image of n bytes.
pub fn work_need(n: usize) -> usize
    requires { n < 0x1_0000_0000 }
    ensures { result ≡ work_need n }
{
    13 * (n / 512)
}

// ---- the version

// The sizes that an image goes by. Its version is read only where version 3 allows its length; a number other than 4 counts as 3.
pub fn version_of(img: &[u8]) -> Geometry
    ensures { geometry_of result ≡ version_of img.now }
{
    if length_allowed(img.len(), Geometry::V3) && u16_at(img, 26) == 4 {
        Geometry::V4
    } else {
        Geometry::V3
    }
}

// ---- group 10

pub fn header_rules(img: &[u8], g: Geometry) -> bool
    requires { ImageSized (geometry_of g) img.now }
    ensures { result ≡ header_rules (geometry_of g) img.now }
{
    (u64_at(img, 0) == 0xE11A_B1A1_E011_CFD0)
        & ((u64_at(img, 8) == 0) & (u64_at(img, 16) == 0))
        & (u16_at(img, 26) == g.major)
        & (u16_at(img, 28) == 0xFFFE)
        & (u16_at(img, 30) == g.shift)
        & (u16_at(img, 32) == 6)
        & ((u32_at(img, 34) == 0) & (u16_at(img, 38) == 0))
        & (g.counts_directory() | (directory_count(img) == 0))
        & (u32_at(img, 56) == 4096)
        & all_zero(img, 512, g.bytes - 512)
}

// How many sectors there are.
pub fn sector_count(img: &[u8], g: Geometry) -> usize
    requires { ImageSized (geometry_of g) img.now }
    ensures { result ≡ sector_count (geometry_of g) img.now }
{
    img.len() / g.bytes - 1
}

// ---- fields

// How many entries of the DIFAT stand in the header.
pub const DIFAT_ENTRIES: usize = 109;

// How many sectors the FAT has.
pub fn fat_count(img: &[u8]) -> u32
    requires { 512 ≤ length img.now }
    ensures { result ≡ F img.now }
{
    u32_at(img, 44)
}

// How many sectors the DIFAT has.
pub fn difat_count(img: &[u8]) -> u32
    requires { 512 ≤ length img.now }
    ensures { result ≡ D img.now }
{
    u32_at(img, 72)
}

// How many sectors the mini FAT has.
pub fn mini_fat_count(img: &[u8]) -> u32
    requires { 512 ≤ length img.now }
    ensures { result ≡ mini_fat_count img.now }
{
    u32_at(img, 64)
}

// How many sectors the directory has, where the version says it.
pub fn directory_count(img: &[u8]) -> u32
    requires { 512 ≤ length img.now }
    ensures { result ≡ directory_count img.now }
{
    u32_at(img, 40)
}

// Whether the header's count of directory sectors is n. Where a version has no such count, any n is right.
pub fn count_right(img: &[u8], g: Geometry, n: usize) -> bool
    requires { 512 ≤ length img.now }
    ensures { result ≡ not (counts_directory (geometry_of g)) || eqb (directory_count img.now) n }
{
    !g.counts_directory() | (directory_count(img) as usize == n)
}

// Where the directory's chain starts.
pub fn directory_start(img: &[u8]) -> Sector
    requires { 512 ≤ length img.now }
    ensures { result.0 ≡ directory_start img.now }
{
    Sector(u32_at(img, 48))
}

// Where the mini FAT's chain starts.
pub fn mini_fat_start(img: &[u8]) -> Sector
    requires { 512 ≤ length img.now }
    ensures { result.0 ≡ mini_fat_start img.now }
{
    Sector(u32_at(img, 60))
}

// The first DIFAT sector.
pub fn difat_start(img: &[u8]) -> Sector
    requires { 512 ≤ length img.now }
    ensures { result.0 ≡ difat_start img.now }
{
    Sector(u32_at(img, 68))
}

// Entry i of the DIFAT, where it stands in the header.
pub fn difat_in_header(img: &[u8], g: Geometry, i: usize) -> Sector
    requires in_bounds { 512 ≤ length img.now }
    requires i_lt_header_difat { i < header_difat }
    ensures { result.0 ≡ difat_entry (geometry_of g) img.now i }
{
    Sector(u32_at(img, 76 + 4 * i))
}
