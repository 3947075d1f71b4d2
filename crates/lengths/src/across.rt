// Changes of length across the cutoff. Units of both kinds stand listed in the work buffer before a byte is written: the stream's own, and behind
// them the free ones that it gets.
ghost use Rattle.std.specs.Prelude.{◌≡◌, ◌≢◌, true, ◌+◌, ◌≤◌, ◌<◌, min, length, take, drop};
ghost use Rattle.format.specs.Layout.Space.{free_units};
ghost use Rattle.format.specs.Layout.Stream.{space_for, contents};
ghost use Rattle.format.specs.Calls.SetLength.{crosses};
ghost use Rattle.format.specs.Calls.Search.{length_searches, cells_looked};
ghost use Rattle.format.specs.Calls.Move.{moved};
ghost use Rattle.format.specs.Calls.Answer.{length_answer};
ghost use Rattle.format.specs.Calls.Reply.{on_zero};
ghost use Rattle.kinds.specs.Sizes.{geometry_of};
ghost use Rattle.kinds.specs.Numbers.{number_of};
ghost use Rattle.tables.specs.Work.{Wrote};
ghost use Rattle.volume.specs.Opened.{Readied};
ghost use Rattle.spaces.specs.Spaces.{volume_in, space_at};
ghost use Rattle.spaces.specs.Units.{kind_of, chain_from, units_from};
ghost use Rattle.queries.specs.Inside.{Open};
ghost use Rattle.queries.specs.Streams.{StreamAt};
ghost use Rattle.edits.specs.Growths.{growth_in};
ghost use Rattle.lengths.specs.Listed.{BothListed, with_size};

use chains::units_for;
use directory::place;
use edits::resize::{Change, Growth, resize};
use kinds::Refusal;
use queries::find::Object;
use queries::read::read_stream;
use spaces::{Kind, Unit, kind_for, start_unit, unit_bytes, unit_count};
use unitlists::{list_free, list_units};
use volume::Volume;
use writes::put_bytes;

// ---- units

// Lists a chain's units, and behind them free ones of the other kind, as many as needed.
fn gather_across(
    img: &[u8],
    work: &mut [u32],
    v: Volume,
    start: Unit,
    old: usize,
    kind: Kind,
    need: u64,
) -> Growth
    requires readied { Readied v img.now work.old }
    requires value { chain_from v img.now start old ≡ true }
    requires start_nonzero { kind_of start ≢ kind }
    ensures answer { result ≡ growth_in (space_at v img.now kind) 0 need }
    ensures own { take old work.new ≡ units_from v img.now start old }
    ensures free { result.enough ≡ true → take need (drop old work.new) ≡ take need (free_units (space_at v img.now kind)) }
    ensures wrote { Wrote work.old work.new 0 v.stream }
    ensures looked { result.looked ≤ (space_at v img.now kind).limit }
{
    list_units(img, work, v, start, old);
    if (unit_count(v, kind) as u64) < need {
        return Growth {
            enough: false,
            looked: 0,
        };
    }
    let all = old + need as usize;
    let l = list_free(img, work, v, kind, old, all);
    Growth {
        enough: l.count == all,
        looked: l.looked,
    }
}

// The n numbers behind the first `from` become the first n.
fn move_down(work: &mut [u32], from: usize, n: usize)
    requires { from + n ≤ length work.old }
    ensures front { take n work.new ≡ take n (drop from work.old) }
    ensures wrote { Wrote work.old work.new 0 n }
{
    work.copy_within(from..from + n, 0);
}

// ---- the stream

// The entry with another size.
fn with_size(e: Object, size: u64) -> Object
    ensures { result ≡ with_size e size }
{
    Object {
        id: e.id,
        entry_type: e.entry_type,
        size,
    }
}

// How many bytes a stream keeps that crosses the cutoff: fewer than it.
fn kept_bytes(old: u64, new: u64) -> usize
    requires { crosses old new ≡ true }
    ensures count { result ≡ min old new }
    ensures few { result < 4096 }
{
    old.min(new) as usize
}

// Cuts a stream to 0, gives it the new length in the units that stand listed behind its own, and puts in the bytes that it keeps.
fn refill(
    img: &mut [u8],
    work: &mut [u32],
    v: Volume,
    e: Object,
    old: usize,
    need: usize,
    new: u64,
    bytes: &[u8],
)
    requires fact { Open v img.old work.old }
    requires stream_at { StreamAt (volume_in v img.old) e }
    requires value { crosses e.size new ≡ true }
    requires both_listed { BothListed v img.old work.old e new old need }
    requires bytes_value { bytes.now ≡ take new (contents (volume_in v img.old) img.old e.id.0) }
    ensures image { img.new ≡ moved (geometry_of v.tables.geometry) img.old e.id.0 new }
    ensures wrote { Wrote work.old work.new 0 v.stream }
{
    resize(img, work, v, e, old, 0, 0);
    move_down(work, old, need);
    resize(img, work, v, with_size(e, 0), 0, need, new);
    put_bytes(img, work, v, kind_for(new), need, 0, bytes);
}

// Moves a stream to the units that stand listed behind its own. The bytes that it keeps wait in `kept`.
fn relocate(
    img: &mut [u8],
    work: &mut [u32],
    v: Volume,
    e: Object,
    old: usize,
    need: usize,
    new: u64,
    kept: &mut [u8],
)
    requires fact { Open v img.old work.old }
    requires stream_at { StreamAt (volume_in v img.old) e }
    requires value { crosses e.size new ≡ true }
    requires both_listed { BothListed v img.old work.old e new old need }
    requires kept_len { length kept.old ≡ min e.size new }
    ensures image { img.new ≡ moved (geometry_of v.tables.geometry) img.old e.id.0 new }
    ensures bytes { kept.new ≡ take new (contents (volume_in v img.old) img.old e.id.0) }
    ensures wrote { Wrote work.old work.new 0 v.stream }
{
    read_stream(img, work, v, e, 0, kept);
    refill(img, work, v, e, old, need, new, kept);
}

// Moves a stream to the other side of the cutoff, if there is room for it.
pub fn move_stream(img: &mut [u8], work: &mut [u32], v: Volume, e: Object, new: u64) -> Change
    requires fact { Open v img.old work.old }
    requires stream_at { StreamAt (volume_in v img.old) e }
    requires value { crosses e.size new ≡ true }
    ensures answer_value { number_of result.answer ≡ length_answer (geometry_of v.tables.geometry) (volume_in v img.old) e.size new }
    ensures img_after { img.new
        ≡ on_zero (number_of result.answer) (moved (geometry_of v.tables.geometry) img.old e.id.0 new) img.old }
    ensures wrote { Wrote work.old work.new 0 v.stream }
    ensures looked_value { result.looked ≡ cells_looked (length_searches (volume_in v img.old) e.id.0 new) }
    ensures looked_bound { result.looked ≤ (space_for (volume_in v img.old) new).limit }
{
    let from = kind_for(e.size);
    let to = kind_for(new);
    let old = units_for(e.size, unit_bytes(v, from) as u64) as usize;
    let need = units_for(new, unit_bytes(v, to) as u64);
    let first = start_unit(img, place(work, v.directory, e.id), from);
    let g = gather_across(img, work, v, first, old, to, need);
    if !g.enough {
        return Change {
            answer: Err(Refusal::TooFewFree),
            looked: g.looked,
        };
    }
    let mut bytes = [0u8; 4096];
    let n = kept_bytes(e.size, new);
    relocate(img, work, v, e, old, need as usize, new, &mut bytes[..n]);
    Change {
        answer: Ok(()),
        looked: g.looked,
    }
}
