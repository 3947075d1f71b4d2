// Creation of an object in an opened volume: its entry is written, and the field that names it. Both places are known before a byte is written.
#![tactic(auto)]

ghost use Rattle.std.specs.Prelude.{◌≡◌, cond, [], ◌≤◌, ◌<◌, eqb, length};
ghost use Rattle.format.specs.Layout.Directory.{blanks};
ghost use Rattle.format.specs.Calls.Call.{create};
ghost use Rattle.format.specs.Calls.Create.{lowest_blank, entry_created};
ghost use Rattle.format.specs.Calls.Answer.{answer_in};
ghost use Rattle.format.specs.Calls.Reply.{on_zero};
ghost use Rattle.kinds.specs.Sizes.{geometry_of};
ghost use Rattle.kinds.specs.Numbers.{number_of};
ghost use Rattle.kinds.specs.Links.{new_kind_of};
ghost use Rattle.lookup.specs.Slots.{slot_of};
ghost use Rattle.paths.specs.Parents.{ParentAt};
ghost use Rattle.spaces.specs.Spaces.{volume_in};
ghost use Rattle.queries.specs.Inside.{Open, image_in};

use directory::{lowest_blank, place};
use entry_writes::{put_link, put_new_entry};
use kinds::{EntryId, NewKind, Refusal};
use lookup::{Seat, Slot, find_slot};
use paths::find_parent;
use volume::Volume;

// Writes the entry of a new object into the lowest blank one, if there is one, and its number into a field.
fn create_at(
    name: &[u16],
    img: &mut [u8],
    work: &[u32],
    v: Volume,
    kind: NewKind,
    h: Slot,
) -> Result<(), Refusal>
    requires fact { Open v img.old work.now }
    requires name_len_bound { length name.now ≤ 31 }
    requires h_bound { h.entry.0 < (volume_in v img.old).directory.count }
    ensures result_value { number_of result ≡ cond (eqb (length (blanks (volume_in v img.old).directory)) 0) 30 0 }
    ensures img_after { img.new
        ≡ on_zero (number_of result)
        (entry_created (volume_in v img.old) img.old (new_kind_of kind) name.now (slot_of h)
        (lowest_blank (volume_in v img.old).directory))
        img.old }
{
    let d = v.directory;
    let field = h.field;
    let x = lowest_blank(img, work, d).ok_or(Refusal::NoBlankEntry)?;
    let p = place(work, d, x);
    put_new_entry(img, p, name, kind.entry_type(), kind.start(), 0);
    put_link(img, place(work, d, h.entry), field, x);
    Ok(())
}

// Creates an object whose name begins at unit i of a path, below the entry s.
fn create_below(
    path: &[u16],
    img: &mut [u8],
    work: &[u32],
    v: Volume,
    kind: NewKind,
    s: EntryId,
    i: usize,
) -> Result<(), Refusal>
    requires fact { Open v img.old work.now }
    requires parent_at { ParentAt (volume_in v img.old).directory path.now s.0 i }
    ensures result_value { number_of result
        ≡ answer_in (geometry_of v.tables.geometry) (volume_in v img.old) (create (new_kind_of kind) path.now []) }
    ensures img_after { img.new
        ≡ image_in (geometry_of v.tables.geometry) (volume_in v img.old) img.old (create (new_kind_of kind) path.now []) }
{
    if path.len() == 0 {
        return Err(Refusal::AlreadyThere);
    }
    match find_slot(&path[i..], img, work, v.directory, s) {
        Seat::Taken(_, _) => Err(Refusal::AlreadyThere),
        Seat::Free(h) => create_at(&path[i..], img, work, v, kind, h),
    }
}

// Creates an object of no bytes at a path.
pub fn create_in(
    path: &[u16],
    img: &mut [u8],
    work: &[u32],
    v: Volume,
    kind: NewKind,
) -> Result<(), Refusal>
    requires { Open v img.old work.now }
    ensures result_value { number_of result
        ≡ answer_in (geometry_of v.tables.geometry) (volume_in v img.old) (create (new_kind_of kind) path.now []) }
    ensures img_after { img.new
        ≡ image_in (geometry_of v.tables.geometry) (volume_in v img.old) img.old (create (new_kind_of kind) path.now []) }
{
    let p = find_parent(path, img, work, v.directory)?;
    create_below(path, img, work, v, kind, p.storage, p.name)
}
