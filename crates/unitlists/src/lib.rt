// Lists of units at the start of the work buffer: those of a chain, and then free ones, lowest first.
#![tactic(auto)]

ghost use Rattle.std.specs.Prelude.{◌≡◌, true, ◌++◌, ◌-◌, ◌≤◌, take};
ghost use Rattle.format.specs.Calls.Search.{growth_searches, units_found};
ghost use Rattle.tables.specs.Work.{Wrote};
ghost use Rattle.volume.specs.Opened.{Readied};
ghost use Rattle.spaces.specs.Spaces.{space_at};
ghost use Rattle.spaces.specs.Units.{chain_from, units_from};
ghost use Rattle.unitlists.specs.Searches.{search_from, filled_up};

use spaces::{Kind, Unit, cell_of, unit_count};
use volume::Volume;

// ---- free units

// A search: the free unit that it found, if there is one, and how many cells it looked at.
#[derive(Clone, Copy)]
pub struct Search {
    pub found: Option<Unit>,
    pub looked: usize,
}

// Looks for the lowest free unit from a place on.
fn next_free(img: &[u8], work: &[u32], v: Volume, kind: Kind, from: usize) -> Search
    requires readied { Readied v img.now work.now }
    requires from_bound { from ≤ (space_at v img.now kind).limit }
    ensures { result ≡ search_from kind (space_at v img.now kind) from }
{
    let count = unit_count(v, kind);
    let mut looked = 0;
    for place in from..count {
        let u = Unit::at(kind, place);
        let cell = cell_of(img, work, v, u);
        looked += 1;
        if cell.is_free() {
            return Search {
                found: Some(u),
                looked,
            };
        }
    }
    Search {
        found: None,
        looked,
    }
}

// A list of units: how many numbers stand there, and how many cells the searches for free ones looked at.
#[derive(Clone, Copy)]
pub struct Listed {
    pub count: usize,
    pub looked: usize,
}

// Lists free units behind the first k numbers, lowest first, until there are `need`. Each search begins just above the unit found last.
pub fn list_free(
    img: &[u8],
    work: &mut [u32],
    v: Volume,
    kind: Kind,
    k: usize,
    need: usize,
) -> Listed
    requires readied { Readied v img.now work.old }
    requires k_le_need { k ≤ need }
    requires need_le_stream { need ≤ v.stream }
    ensures value { result ≡ filled_up (space_at v img.now kind) k need }
    ensures work_after { take result.count work.new
        ≡ take k work.old ++ units_found (space_at v img.now kind) (growth_searches (space_at v img.now kind) (need - k)) }
    ensures wrote { Wrote work.old work.new 0 need }
{
    let mut from = 0;
    let mut looked = 0;
    for n in k..need {
        let s = next_free(img, work, v, kind, from);
        looked += s.looked;
        let Some(u) = s.found else {
            return Listed { count: n, looked };
        };
        work[n] = u.number();
        from = u.index() + 1;
    }
    Listed {
        count: need,
        looked,
    }
}

// ---- chains

// Lists the n units of a chain.
pub fn list_units(img: &[u8], work: &mut [u32], v: Volume, start: Unit, n: usize)
    requires readied { Readied v img.now work.old }
    requires n_value { chain_from v img.now start n ≡ true }
    ensures work_after { take n work.new ≡ units_from v img.now start n }
    ensures wrote { Wrote work.old work.new 0 n }
{
    let mut u = start;
    for i in 0..n {
        work[i] = u.number();
        u = cell_of(img, work, v, u);
    }
}
