// Changes of length that stay on one side of the cutoff.
ghost use Rattle.std.specs.Prelude.{◌≡◌, ◌≢◌, true, false, ◌++◌, ◌+◌, ◌*◌, ◌-◌, ◌≤◌, ◌<◌, max, length, take};
ghost use Rattle.format.specs.Layout.Space.{free_units};
ghost use Rattle.format.specs.Layout.Stream.{space_for};
ghost use Rattle.format.specs.Calls.SetLength.{crosses, resized};
ghost use Rattle.format.specs.Calls.Search.{length_searches, cells_looked};
ghost use Rattle.format.specs.Calls.Answer.{length_answer};
ghost use Rattle.format.specs.Calls.Reply.{on_zero};
ghost use Rattle.kinds.specs.Sizes.{geometry_of};
ghost use Rattle.kinds.specs.Numbers.{number_of};
ghost use Rattle.tables.specs.Work.{Wrote};
ghost use Rattle.directory.specs.Listed.{place_of};
ghost use Rattle.volume.specs.Opened.{Readied};
ghost use Rattle.spaces.specs.Spaces.{volume_in, space_at, unit_bytes, listed_space};
ghost use Rattle.spaces.specs.Units.{kind_of, chain_from, units_from};
ghost use Rattle.writes.specs.Writable.{Writable, EntryRoom};
ghost use Rattle.queries.specs.Inside.{Open};
ghost use Rattle.queries.specs.Streams.{StreamAt};
ghost use Rattle.edits.specs.Rewritten.{tail_filled, rewritten};
ghost use Rattle.edits.specs.Gathered.{Gathered};
ghost use Rattle.edits.specs.Growths.{growth_in};

use chains::units_for;
use directory::place;
use kinds::Refusal;
use le::least;
use queries::find::Object;
use spaces::{Kind, Unit, kind_for, start_unit, unit_bytes, unit_count};
use unitlists::{list_free, list_units};
use volume::Volume;
use writes::{Cells, chain_start, put_cells, put_entry, zero_from};

// ---- units

// What a growth finds: whether there are as many units as needed, and how many cells the searches for free ones looked at.
#[derive(Clone, Copy)]
pub struct Growth {
    pub enough: bool,
    pub looked: usize,
}

// Lists a chain's units, and behind them free ones where more are needed.
fn gather(img: &[u8], work: &mut [u32], v: Volume, start: Unit, old: usize, need: u64) -> Growth
    requires readied { Readied v img.now work.old }
    requires value { chain_from v img.now start old ≡ true }
    ensures value_2 { result ≡ growth_in (space_at v img.now (kind_of start)) old need }
    ensures work_after { take old work.new ≡ units_from v img.now start old }
    ensures work_after_2 { result.enough ≡ true → take need work.new
        ≡ take need (units_from v img.now start old ++ free_units (space_at v img.now (kind_of start))) }
    ensures wrote { Wrote work.old work.new 0 v.stream }
    ensures looked_bound { result.looked ≤ (space_at v img.now (kind_of start)).limit }
{
    let kind = start.kind();
    list_units(img, work, v, start, old);
    if (unit_count(v, kind) as u64) < need {
        return Growth {
            enough: false,
            looked: 0,
        };
    }
    let n = need as usize;
    if n <= old {
        return Growth {
            enough: true,
            looked: 0,
        };
    }
    let l = list_free(img, work, v, kind, old, n);
    Growth {
        enough: l.count == n,
        looked: l.looked,
    }
}

// ---- writing

// Wipes what stands behind the old length, where the new one is greater.
fn fill_tail(img: &mut [u8], work: &[u32], v: Volume, kind: Kind, n: usize, size: u64, new: u64)
    requires writable { Writable v work.now kind (length img.old) n }
    requires size_bound { size < new → size ≤ n * unit_bytes v kind }
    ensures { img.new ≡ tail_filled (listed_space v work.now kind) (take n work.now) size new img.old }
{
    if size < new {
        zero_from(img, work, v, kind, n, size as usize);
    }
}

// Writes cells, data and entry of a stream that has the first `old` listed units, and gets the first n.
fn rewrite(
    img: &mut [u8],
    work: &[u32],
    v: Volume,
    kind: Kind,
    e: Object,
    old: usize,
    n: usize,
    new: u64,
)
    requires writable { Writable v work.now kind (length img.old) (max old n) }
    requires entry_room { EntryRoom v.directory work.now e.id.0 (length img.old) }
    requires size_bound { e.size < new → e.size ≤ n * unit_bytes v kind }
    ensures { img.new
        ≡ rewritten (listed_space v work.now kind) (place_of v.directory work.now e.id.0)
        (take old work.now) (take n work.now) e.size new img.old }
{
    let kept = least(old, n);
    put_cells(img, work, v, kind, Cells::Freed, kept, old);
    put_cells(img, work, v, kind, Cells::Linked, kept.saturating_sub(1), n);
    fill_tail(img, work, v, kind, n, e.size, new);
    let first = chain_start(work, kind, 0, n);
    put_entry(img, work, v.directory, e.id, first, new);
}

// Gives a stream another length that does not cross the cutoff, where its units stand listed and behind them the free ones that it gets.
pub fn resize(img: &mut [u8], work: &[u32], v: Volume, e: Object, old: usize, need: usize, new: u64)
    requires fact { Open v img.old work.now }
    requires stream_at { StreamAt (volume_in v img.old) e }
    requires value { crosses e.size new ≡ false }
    requires size_nonzero { new ≢ e.size }
    requires gathered { Gathered v img.old work.now e new old need }
    ensures { img.new ≡ resized (volume_in v img.old) img.old e.id.0 new }
{
    let kind = kind_for(e.size.max(new));
    rewrite(img, work, v, kind, e, old, need, new);
}

// ---- the change

// A change of length: its answer, and how many cells the searches for free units looked at.
#[derive(Clone, Copy)]
pub struct Change {
    pub answer: Result<(), Refusal>,
    pub looked: usize,
}

// Gives a stream another length that does not cross the cutoff, if there is room for it.
pub fn change_length(img: &mut [u8], work: &mut [u32], v: Volume, e: Object, new: u64) -> Change
    requires fact { Open v img.old work.old }
    requires stream_at { StreamAt (volume_in v img.old) e }
    requires value { crosses e.size new ≡ false }
    requires size_nonzero { new ≢ e.size }
    ensures answer_value { number_of result.answer ≡ length_answer (geometry_of v.tables.geometry) (volume_in v img.old) e.size new }
    ensures img_after { img.new
        ≡ on_zero (number_of result.answer) (resized (volume_in v img.old) img.old e.id.0 new) img.old }
    ensures wrote { Wrote work.old work.new 0 v.stream }
    ensures looked_value { result.looked ≡ cells_looked (length_searches (volume_in v img.old) e.id.0 new) }
    ensures looked_bound { result.looked ≤ (space_for (volume_in v img.old) new).limit }
{
    let kind = kind_for(e.size.max(new));
    let bytes = unit_bytes(v, kind) as u64;
    let old = units_for(e.size, bytes) as usize;
    let need = units_for(new, bytes);
    let first = start_unit(img, place(work, v.directory, e.id), kind);
    let g = gather(img, work, v, first, old, need);
    if !g.enough {
        return Change {
            answer: Err(Refusal::TooFewFree),
            looked: g.looked,
        };
    }
    resize(img, work, v, e, old, need as usize, new);
    Change {
        answer: Ok(()),
        looked: g.looked,
    }
}
