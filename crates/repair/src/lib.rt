// A repair. Everything is tried on a copy in the spare buffer; the image is written only where the outcome keeps every rule.
#![tactic(auto)]

ghost use Rattle.std.specs.Prelude.{◌≡◌, ◌≤◌, length};
ghost use Rattle.format.specs.Rules.Length.{work_need};
ghost use Rattle.format.specs.Calls.Buffers.{work_cleared};
ghost use Rattle.format.specs.Calls.Repair.{repair_reply, image_repaired, work_repaired, spare_repaired};
ghost use Rattle.kinds.specs.Sizes.{geometry_of};
ghost use Rattle.tables.specs.Work.{Wrote};
ghost use Rattle.repair.specs.Replies.{repair_reply_of};
ghost use Rattle.repair.specs.Room.{RepairRoom, Tried};

use differences::count_differences;
use header::{length_allowed, version_of, work_need};
use kinds::{Geometry, Refusal};
use le::{copy, zero_first};
use repair_steps::outcome;
use volume::open_volume;

pub mod differences;

// What is answered, once the outcome stands in a buffer of its own: how many cells and colour bytes differ, or why it does not keep every rule.
fn validate_outcome(image: &[u8], after: &[u8], work: &mut [u32]) -> Result<u64, Refusal>
    requires { Tried image.now after.now work.old }
    ensures reply { repair_reply_of result ≡ repair_reply image.now after.now work.old }
    ensures wrote { Wrote work.old work.new 0 (work_need (length image.now)) }
{
    let v = open_volume(after, work)?;
    Ok(count_differences(image, after, work, v))
}

// Makes the outcome in a buffer of the image's length, has it validated, and copies it back where it is accepted.
fn repair_by(
    image: &mut [u8],
    work: &mut [u32],
    after: &mut [u8],
    g: Geometry,
) -> Result<u64, Refusal>
    requires { RepairRoom (geometry_of g) image.old work.old after.old }
    ensures reply { repair_reply_of result ≡ repair_reply image.old after.old work.old }
    ensures image { image.new ≡ image_repaired image.old after.old work.old }
    ensures wrote { Wrote work.old work.new 0 (work_need (length image.old)) }
{
    copy(after, image);
    outcome(after, work, g);
    let r = validate_outcome(image, after, work);
    if r.is_ok() {
        copy(image, after);
    }
    r
}

// The first n bytes zero.
fn clear(bytes: &mut [u8], n: usize)
    requires { n ≤ length bytes.old }
    ensures { bytes.new ≡ work_cleared n bytes.old }
{
    bytes[..n].fill(0);
}

// Repairs an image by the four steps, or refuses and leaves it as it was: how many cells and colour bytes have changed. What it used of the two
// buffers is zero afterwards.
pub fn repair_image(image: &mut [u8], work: &mut [u32], spare: &mut [u8]) -> Result<u64, Refusal>
    ensures result_value { repair_reply_of result ≡ repair_reply image.old spare.old work.old }
    ensures image_after { image.new ≡ image_repaired image.old spare.old work.old }
    ensures work_after { work.new ≡ work_repaired image.old spare.old work.old }
    ensures spare_after { spare.new ≡ spare_repaired image.old spare.old work.old }
{
    let g = version_of(image);
    let n = image.len();
    if !length_allowed(n, g) {
        return Err(Refusal::BadLength);
    }
    let need = work_need(n);
    let enough = (need <= work.len()) & (n <= spare.len());
    if !enough {
        return Err(Refusal::ShortWork);
    }
    let r = repair_by(image, work, &mut spare[..n], g);
    clear(spare, n);
    zero_first(work, need);
    r
}
