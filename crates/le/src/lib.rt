// Little-endian numbers at a place of a slice of bytes; copying; clearing the front of a work buffer.
#![tactic(auto)]

ghost use Rattle.std.specs.Prelude.{◌≡◌, ◌+◌, ◌≤◌, min, length};
ghost use Rattle.format.specs.Basics.Bytes.{part, u16at, u32at, u64at, all_zero, put_bytes, put16, put32, put64};
ghost use Rattle.format.specs.Calls.Buffers.{work_cleared};

// ---- two numbers

// The lesser of two counts.
pub fn least(a: usize, b: usize) -> usize
    ensures { result ≡ min a b }
{
    a.min(b)
}

// ---- reads

pub fn u16_at(b: &[u8], at: usize) -> u16
    requires { at + 2 ≤ length b.now }
    ensures { result ≡ u16at b.now at }
{
    u16::from_le_bytes([b[at], b[at + 1]])
}

pub fn u32_at(b: &[u8], at: usize) -> u32
    requires { at + 4 ≤ length b.now }
    ensures { result ≡ u32at b.now at }
{
    u32::from_le_bytes([b[at], b[at + 1], b[at + 2], b[at + 3]])
}

pub fn u64_at(b: &[u8], at: usize) -> u64
    requires { at + 8 ≤ length b.now }
    ensures { result ≡ u64at b.now at }
{
    let low = u32_at(b, at);
    let high = u32_at(b, at + 4);
    u64::from(low) + 4294967296 * u64::from(high)
}

// Whether the n bytes from a place on are zero. Each is looked at, so that the compiler takes many at once.
pub fn all_zero(b: &[u8], at: usize, n: usize) -> bool
    requires { at + n ≤ length b.now }
    ensures { result ≡ all_zero (part b.now at n) }
{
    b[at..at + n].iter().fold(true, |ok, x| ok & (*x == 0))
}

// ---- writes

pub fn put_u16(b: &mut [u8], at: usize, v: u16)
    requires { at + 2 ≤ length b.old }
    ensures { b.new ≡ put16 b.old at v }
{
    b[at..at + 2].copy_from_slice(&v.to_le_bytes());
}

pub fn put_u32(b: &mut [u8], at: usize, v: u32)
    requires { at + 4 ≤ length b.old }
    ensures { b.new ≡ put32 b.old at v }
{
    b[at..at + 4].copy_from_slice(&v.to_le_bytes());
}

pub fn put_u64(b: &mut [u8], at: usize, v: u64)
    requires { at + 8 ≤ length b.old }
    ensures { b.new ≡ put64 b.old at v }
{
    b[at..at + 8].copy_from_slice(&v.to_le_bytes());
}

// ---- runs

// The bytes of another part that is as long. By a loop: the compiler knows that the two do not overlap and calls `memcpy`, while std's
// `copy_from_slice` would have the archive for C ask for `memmove` too.
pub fn copy(to: &mut [u8], from: &[u8])
    requires { length to.old ≡ length from.now }
    ensures { to.new ≡ from.now }
{
    for (i, byte) in to.iter_mut().enumerate() {
        *byte = from[i];
    }
}

// The n bytes from byte p of another slice on, put at a place.
pub fn copy_part(to: &mut [u8], at: usize, from: &[u8], p: usize, n: usize)
    requires n_in_bounds { at + n ≤ length to.old }
    requires n_in_bounds_2 { p + n ≤ length from.now }
    ensures { to.new ≡ put_bytes to.old at (part from.now p n) }
{
    copy(&mut to[at..at + n], &from[p..p + n]);
}

// The first w numbers of a work buffer zero.
pub fn zero_first(work: &mut [u32], w: usize)
    requires { w ≤ length work.old }
    ensures { work.new ≡ work_cleared w work.old }
{
    work[..w].fill(0);
}
