// Changes of length, also across the cutoff: of the stream that a path leads to.
#![tactic(auto)]

ghost use Rattle.std.specs.Prelude.{◌≡◌, []};
ghost use Rattle.format.specs.Calls.Call.{set_length as length_call};
ghost use Rattle.format.specs.Calls.SetLength.{crosses};
ghost use Rattle.format.specs.Calls.Answer.{answer_in};
ghost use Rattle.kinds.specs.Sizes.{geometry_of};
ghost use Rattle.kinds.specs.Numbers.{number_of};
ghost use Rattle.tables.specs.Work.{Wrote};
ghost use Rattle.spaces.specs.Spaces.{volume_in};
ghost use Rattle.queries.specs.Inside.{Open, image_in};

use across::move_stream;
use edits::resize::change_length;
use kinds::{CUTOFF, Refusal};
use queries::find::find_in;
use volume::Volume;

pub mod across;

// Whether a change of length crosses the cutoff.
fn crossing(old: u64, new: u64) -> bool
    ensures { result ≡ crosses old new }
{
    ((1 <= old) & (old < CUTOFF) & (CUTOFF <= new))
        | ((CUTOFF <= old) & ((1 <= new) & (new < CUTOFF)))
}

// Gives the stream that a path leads to another length.
pub fn set_length_in(
    path: &[u16],
    img: &mut [u8],
    work: &mut [u32],
    v: Volume,
    new_len: u64,
) -> Result<(), Refusal>
    requires { Open v img.old work.old }
    ensures result_value { number_of result
        ≡ answer_in (geometry_of v.tables.geometry) (volume_in v img.old) (length_call path.now new_len []) }
    ensures img_after { img.new
        ≡ image_in (geometry_of v.tables.geometry) (volume_in v img.old) img.old (length_call path.now new_len []) }
    ensures wrote { Wrote work.old work.new 0 v.stream }
{
    let e = find_in(path, img, work, v)?;
    if !e.entry_type.is_stream() {
        return Err(Refusal::NotAStream);
    }
    if e.size == new_len {
        return Ok(());
    }
    if crossing(e.size, new_len) {
        return move_stream(img, work, v, e, new_len).answer;
    }
    change_length(img, work, v, e, new_len).answer
}
