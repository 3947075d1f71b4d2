// Removal of an object: the entry that a path leads to is taken from the tree of its siblings. All that is read is read before a byte is written.
#![tactic(auto)]

ghost use Rattle.std.specs.Prelude.{◌≡◌, true, [], ◌≤◌, ◌<◌};
ghost use Rattle.format.specs.Layout.Volume.{volume};
ghost use Rattle.format.specs.Rules.Entries.{entry_rules};
ghost use Rattle.format.specs.Rules.Trees.{tree_rules};
ghost use Rattle.format.specs.Rules.Verdict.{Accepted};
ghost use Rattle.format.specs.Calls.Call.{remove};
ghost use Rattle.format.specs.Calls.Remove.{entry_removed, cut_to_zero};
ghost use Rattle.format.specs.Calls.Answer.{answer_in};
ghost use Rattle.kinds.specs.Sizes.{geometry_of};
ghost use Rattle.kinds.specs.Numbers.{number_of};
ghost use Rattle.tables.specs.Work.{Wrote};
ghost use Rattle.directory.specs.Listed.{count_of, entries_of, DirectoryListed};
ghost use Rattle.paths.specs.Parents.{ParentAt};
ghost use Rattle.spaces.specs.Spaces.{volume_in};
ghost use Rattle.queries.specs.Inside.{Open, image_in};
ghost use Rattle.removal.specs.Leads.{LeadsTo, holds_some, RemovalRight};

use directory::{Directory, child_of, type_of};
use edits::resize::change_length;
use kinds::{EntryId, Refusal};
use lookup::{Seat, find_slot};
use paths::{find_entry, find_parent};
use queries::find::object_at;
use tree_edits::remove_entry;
use volume::Volume;

// ---- what can be removed

// Whether an entry is a storage with something in it.
fn filled(img: &[u8], work: &[u32], d: Directory, x: EntryId) -> bool
    requires directory_listed { DirectoryListed d img.now work.now }
    requires x_bound { x.0 < (entries_of d img.now).count }
    ensures { result ≡ holds_some (entries_of d img.now) x.0 }
{
    type_of(img, work, d, x).is_storage() & !child_of(img, work, d, x).is_none()
}

// The entry that a path leads to, if it can be removed, or the refusal.
pub fn find_removable(
    path: &[u16],
    img: &[u8],
    work: &[u32],
    d: Directory,
) -> Result<EntryId, Refusal>
    requires directory_listed { DirectoryListed d img.now work.now }
    requires img_value { entry_rules (entries_of d img.now) ≡ true }
    requires img_value_2 { tree_rules (entries_of d img.now) ≡ true }
    ensures { RemovalRight (entries_of d img.now) path.now result }
{
    let x = find_entry(path, img, work, d)?;
    if filled(img, work, d, x) {
        return Err(Refusal::NotEmpty);
    }
    if x.is_root() {
        return Err(Refusal::RootRemoved);
    }
    Ok(x)
}

// ---- the entry

// Removes the entry that a path leads to, whose last name begins at unit i and stands below the entry s. Nobody comes here with a name that is
// not there.
fn remove_below(path: &[u16], img: &mut [u8], work: &mut [u32], d: Directory, s: EntryId, i: usize)
    requires directory_listed { DirectoryListed d img.old work.old }
    requires d_bound { count_of d ≤ d.list }
    requires accepted { Accepted (geometry_of d.geometry) img.old }
    requires leads_to { LeadsTo (entries_of d img.old) path.now }
    requires parent_at { ParentAt (entries_of d img.old) path.now s.0 i }
    ensures image { img.new ≡ entry_removed (volume (geometry_of d.geometry) img.old) img.old path.now }
    ensures wrote { Wrote work.old work.new 0 (count_of d) }
{
    let Seat::Taken(x, h) = find_slot(&path[i..], img, work, d, s) else {
        return;
    };
    let field = h.field;
    remove_entry(img, work, d, s, h.entry, field, x);
}

// Removes the entry that a path leads to, which has nothing below it and no units, from the directory of an accepted image. Nobody comes here
// with a path that leads to nothing.
pub fn remove_found(path: &[u16], img: &mut [u8], work: &mut [u32], d: Directory)
    requires directory_listed { DirectoryListed d img.old work.old }
    requires d_bound { count_of d ≤ d.list }
    requires accepted { Accepted (geometry_of d.geometry) img.old }
    requires leads_to { LeadsTo (entries_of d img.old) path.now }
    ensures image { img.new ≡ entry_removed (volume (geometry_of d.geometry) img.old) img.old path.now }
    ensures wrote { Wrote work.old work.new 0 (count_of d) }
{
    let Ok(p) = find_parent(path, img, work, d) else {
        return;
    };
    remove_below(path, img, work, d, p.storage, p.name);
}

// ---- the call

// A stream gives back its units, and has length 0.
fn release_units(img: &mut [u8], work: &mut [u32], v: Volume, x: EntryId)
    requires fact { Open v img.old work.old }
    requires x_bound { x.0 < (volume_in v img.old).directory.count }
    ensures image { img.new ≡ cut_to_zero (volume_in v img.old) img.old x.0 }
    ensures wrote { Wrote work.old work.new 0 v.stream }
{
    let e = object_at(img, work, v.directory, x);
    if e.entry_type.is_stream() & (e.size != 0) {
        change_length(img, work, v, e, 0);
    }
}

// Removes the object that a path leads to: a stream, or a storage with nothing in it.
pub fn remove_in(path: &[u16], img: &mut [u8], work: &mut [u32], v: Volume) -> Result<(), Refusal>
    requires { Open v img.old work.old }
    ensures answer { number_of result ≡ answer_in (geometry_of v.tables.geometry) (volume_in v img.old) (remove path.now []) }
    ensures image { img.new
        ≡ image_in (geometry_of v.tables.geometry) (volume_in v img.old) img.old (remove path.now []) }
    ensures wrote { Wrote work.old work.new 0 v.stream }
{
    let x = find_removable(path, img, work, v.directory)?;
    release_units(img, work, v, x);
    remove_found(path, img, work, v.directory);
    Ok(())
}
