// Paths: whether one is well formed, and the entry that it leads to.
#![tactic(auto)]

ghost use Rattle.std.specs.Prelude.{◌≡◌, true, ◌<◌};
ghost use Rattle.format.specs.Layout.Name.{legal_name};
ghost use Rattle.format.specs.Rules.Entries.{entry_rules};
ghost use Rattle.format.specs.Rules.Trees.{tree_rules};
ghost use Rattle.format.specs.Calls.Paths.{well_formed};
ghost use Rattle.format.specs.Calls.Find.{enter, resolve, resolve_parent};
ghost use Rattle.theory.specs.TreeFind.{reached};
ghost use Rattle.directory.specs.Listed.{entries_of, DirectoryListed};
ghost use Rattle.paths.specs.Found.{found_of, Inside};
ghost use Rattle.paths.specs.Parents.{AfterSlash, parent_of, ParentInside};

use directory::{Directory, child_of, type_of};
use entries::names::legal_unit;
use kinds::{EntryId, Refusal};
use lookup::find_child;

// ---- names

// Whether a name is a legal one.
fn legal_name(name: &[u16]) -> bool
    ensures { result ≡ legal_name name.now }
{
    (1..=31).contains(&name.len()) && name.iter().all(|u| legal_unit(*u))
}

// Whether every name of a path is a legal one. The empty path has none.
pub fn well_formed(path: &[u16]) -> bool
    ensures { result ≡ well_formed path.now }
{
    path.is_empty() || path.split(|u| *u == 0x2F).all(|name| legal_name(name))
}

// Where the last name of a path begins: behind the last slash.
fn last_name_start(path: &[u16]) -> usize
    ensures { AfterSlash path.now result }
{
    match path.iter().rposition(|u| *u == 0x2F) {
        Some(i) => i + 1,
        None => 0,
    }
}

// ---- the way down

// One name further from entry x.
fn enter(
    name: &[u16],
    img: &[u8],
    work: &[u32],
    d: Directory,
    x: EntryId,
) -> Result<EntryId, Refusal>
    requires directory_listed { DirectoryListed d img.now work.now }
    requires img_value { entry_rules (entries_of d img.now) ≡ true }
    requires img_value_2 { tree_rules (entries_of d img.now) ≡ true }
    requires x_bound { x.0 < (entries_of d img.now).count }
    ensures { found_of (entries_of d img.now) result
        ≡ enter (entries_of d img.now) (reached (entries_of d img.now) x.0) name.now }
{
    if type_of(img, work, d, x).is_stream() {
        return Err(Refusal::StreamOnTheWay);
    }
    find_child(name, img, work, d, child_of(img, work, d, x)).ok_or(Refusal::NotFound)
}

// The entry that a path leads to, name by name, or the refusal.
pub fn find_entry(path: &[u16], img: &[u8], work: &[u32], d: Directory) -> Result<EntryId, Refusal>
    requires directory_listed { DirectoryListed d img.now work.now }
    requires img_value { entry_rules (entries_of d img.now) ≡ true }
    requires img_value_2 { tree_rules (entries_of d img.now) ≡ true }
    ensures answer { found_of (entries_of d img.now) result ≡ resolve (entries_of d img.now) path.now }
    ensures inside { Inside (entries_of d img.now) result }
{
    if !well_formed(path) {
        return Err(Refusal::BadPath);
    }
    let mut x = EntryId::ROOT;
    if path.is_empty() {
        return Ok(x);
    }
    for name in path.split(|u| *u == 0x2F) {
        x = enter(name, img, work, d, x)?;
    }
    Ok(x)
}

// ---- the last name's storage

// The root or the storage that the last name stands in, and where the last name begins.
#[derive(Clone, Copy)]
pub struct Parent {
    pub storage: EntryId,
    pub name: usize,
}

// The entry that the names before the last lead to; a stream is refused there.
pub fn find_parent(path: &[u16], img: &[u8], work: &[u32], d: Directory) -> Result<Parent, Refusal>
    requires directory_listed { DirectoryListed d img.now work.now }
    requires img_value { entry_rules (entries_of d img.now) ≡ true }
    requires img_value_2 { tree_rules (entries_of d img.now) ≡ true }
    ensures answer { parent_of (entries_of d img.now) result ≡ resolve_parent (entries_of d img.now) path.now }
    ensures inside { ParentInside (entries_of d img.now) path.now result }
{
    if !well_formed(path) {
        return Err(Refusal::BadPath);
    }
    let name = last_name_start(path);
    let storage = find_entry(&path[..name.saturating_sub(1)], img, work, d)?;
    if type_of(img, work, d, storage).is_stream() {
        return Err(Refusal::StreamOnTheWay);
    }
    Ok(Parent { storage, name })
}
