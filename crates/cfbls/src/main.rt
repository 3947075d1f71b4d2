// Lists the compound file on standard input: a line for each object, or `refused` and the number of the answer.
#![tactic(auto)]

ghost use Rattle.std.specs.Prelude.{◌≡◌, ◌≤◌, length, take};
ghost use Rattle.format.specs.Rules.Length.{work_need};
ghost use Rattle.format.specs.Calls.Read.{over};
ghost use Rattle.format.specs.Calls.Program.{program_capacity, refused_line, program_output};
ghost use Rattle.kinds.specs.Numbers.{refusal_number};

use cfb::list;
use kinds::Refusal;
use text::put_number_line;

// Writes the line of a refusal, and returns how many bytes it takes.
fn put_refused(out: &mut [u8], a: Refusal) -> usize
    requires { 29 ≤ length out.old }
    ensures count { result ≡ length (refused_line (refusal_number a)) }
    ensures written { out.new ≡ over (refused_line (refusal_number a)) out.old }
{
    put_number_line(out, b"refused ", u32::from(a) as u64)
}

// Puts what the program writes for an input at the front of the out buffer, and returns how many bytes it is.
fn report(input: &[u8], work: &mut [u32], out: &mut [u8]) -> usize
    requires work_len { length work.old ≡ work_need program_capacity }
    requires out_len { length out.old ≡ program_capacity }
    ensures upper_bound { result ≤ length out.new }
    ensures out_after { take result out.new ≡ program_output input.now }
{
    if 65536 < input.len() {
        return put_refused(out, Refusal::BadLength);
    }
    match list(input, work, out) {
        Ok(n) => n,
        Err(a) => put_refused(out, a),
    }
}

// One byte more than the program takes is read, and no further one: by then it is known that there are too many.
fn main() {
    let mut input = [0u8; 65537];
    let n = io::read_full(0, &mut input);
    let mut work = [0u32; 1664];
    let mut out = io::large_buffer();
    let k = report(&input[..n], &mut work, &mut out);
    io::write_all(1, &out[..k]);
}
