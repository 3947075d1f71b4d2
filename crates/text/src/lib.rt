// Numbers and names as text, written to the front of a part of the out buffer. Each length can be asked for before a byte is written.
#![tactic(auto)]

ghost use Rattle.std.specs.Prelude.{◌≡◌, ◌&&◌, ◌+◌, ◌≤◌, leb, length};
ghost use Rattle.format.specs.Calls.Read.{over};
ghost use Rattle.format.specs.Calls.Text.{decimal, hex_digit, print_unit, print_name};
ghost use Rattle.entries.specs.Entry.{name_at, NamedAt};
ghost use Rattle.text.specs.Lines.{number_line};

use entries::names::{name_unit, name_units};

// ---- numbers

// How many digits a number has.
pub fn decimal_length(n: u64) -> usize
    ensures { result ≡ length (decimal n) }
{
    // One digit, and one more for each time that ten goes into what is left.
    let mut k = 1;
    let mut m = n / 10;
    while 0 < m {
        m /= 10;
        k += 1;
    }
    k
}

// Writes a number's digits, and returns how many they are.
pub fn put_decimal(out: &mut [u8], n: u64) -> usize
    requires { length (decimal n) ≤ length out.old }
    ensures count { result ≡ length (decimal n) }
    ensures written { out.new ≡ over (decimal n) out.old }
{
    let k = decimal_length(n);
    let mut m = n;
    for i in (0..k).rev() {
        out[i] = b'0' + (m % 10) as u8;
        m /= 10;
    }
    k
}

// Writes a word, a number's digits behind it and the end of the line, and returns how many bytes they are.
pub fn put_number_line(out: &mut [u8], word: &[u8], n: u64) -> usize
    requires { length (number_line word.now n) ≤ length out.old }
    ensures count { result ≡ length (number_line word.now n) }
    ensures written { out.new ≡ over (number_line word.now n) out.old }
{
    let k = word.len();
    out[..k].copy_from_slice(word);
    let m = put_decimal(&mut out[k..], n);
    out[k + m] = b'\n';
    k + m + 1
}

// ---- names

// Whether a name's unit prints as itself.
fn plain(u: u16) -> bool
    ensures { result ≡ (leb 0x20 u && leb u 0x7E) }
{
    matches!(u, 0x20..=0x7E)
}

// How many bytes a name's unit takes.
#[tactic(auto, unfolding(format::specs::Calls::Text::print_unit))]
fn name_unit_length(u: u16) -> usize
    ensures { result ≡ length (print_unit u) }
{
    if plain(u) {
        return 1;
    }
    5
}

// A digit of base 16.
#[tactic(auto, unfolding(format::specs::Calls::Text::hex_digit))]
fn hex_digit(d: u16) -> u8
    requires { d ≤ 15 }
    ensures { result ≡ hex_digit d }
{
    if d < 10 {
        return b'0' + d as u8;
    }
    b'A' + (d - 10) as u8
}

// Writes a name's unit, and returns how many bytes it takes.
#[tactic(auto, unfolding(format::specs::Calls::Text::print_unit))]
fn put_name_unit(out: &mut [u8], u: u16) -> usize
    requires { length (print_unit u) ≤ length out.old }
    ensures count { result ≡ length (print_unit u) }
    ensures written { out.new ≡ over (print_unit u) out.old }
{
    if plain(u) {
        out[0] = u as u8;
        return 1;
    }
    out[0] = b'\\';
    out[1] = hex_digit(u / 4096 % 16);
    out[2] = hex_digit(u / 256 % 16);
    out[3] = hex_digit(u / 16 % 16);
    out[4] = hex_digit(u % 16);
    5
}

// How many bytes the name of the entry at p takes.
pub fn name_length(img: &[u8], p: usize) -> usize
    requires { NamedAt img.now p }
    ensures { result ≡ length (print_name (name_at img.now p)) }
{
    let mut k = 0;
    for i in 0..name_units(img, p) {
        k += name_unit_length(name_unit(img, p, i));
    }
    k
}

// Writes the name of the entry at p, and returns how many bytes it takes.
pub fn put_name(out: &mut [u8], img: &[u8], p: usize) -> usize
    requires named_at { NamedAt img.now p }
    requires p_in_bounds { length (print_name (name_at img.now p)) ≤ length out.old }
    ensures count { result ≡ length (print_name (name_at img.now p)) }
    ensures written { out.new ≡ over (print_name (name_at img.now p)) out.old }
{
    let mut k = 0;
    for i in 0..name_units(img, p) {
        k += put_name_unit(&mut out[k..], name_unit(img, p, i));
    }
    k
}
