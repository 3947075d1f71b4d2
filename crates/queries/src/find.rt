// Finds: the entry that a path leads to, with its type and size.
ghost use Rattle.std.specs.Prelude.{◌≡◌, ◌<◌};
ghost use Rattle.format.specs.Layout.Entry.{kind as kind_of};
ghost use Rattle.format.specs.Layout.Directory.{size_of};
ghost use Rattle.directory.specs.Listed.{entries_of, DirectoryListed};
ghost use Rattle.spaces.specs.Spaces.{volume_in};
ghost use Rattle.queries.specs.Inside.{Open, FindRight};

use directory::{Directory, place};
use entries::{entry_type, size};
use kinds::{EntryId, EntryType, Refusal};
use paths::find_entry;
use volume::Volume;

// An entry: its number, its type and its size.
#[derive(Clone, Copy)]
pub struct Object {
    pub id: EntryId,
    pub entry_type: EntryType,
    pub size: u64,
}

// The entry of a number.
pub fn object_at(img: &[u8], work: &[u32], d: Directory, x: EntryId) -> Object
    requires directory_listed { DirectoryListed d img.now work.now }
    requires x_bound { x.0 < (entries_of d img.now).count }
    ensures id_value { result.id ≡ x }
    ensures entry_type_value { result.entry_type.0 ≡ kind_of ((entries_of d img.now).entry x.0) }
    ensures size_value { result.size ≡ size_of (entries_of d img.now) x.0 }
{
    let p = place(work, d, x);
    Object {
        id: x,
        entry_type: entry_type(img, p),
        size: size(img, p, d.geometry),
    }
}

// The entry that a path leads to, or the refusal.
pub fn find_in(path: &[u16], img: &[u8], work: &[u32], v: Volume) -> Result<Object, Refusal>
    requires { Open v img.now work.now }
    ensures { FindRight (volume_in v img.now) path.now result }
{
    let d = v.directory;
    let x = find_entry(path, img, work, d)?;
    Ok(object_at(img, work, d, x))
}
