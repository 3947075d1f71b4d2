// A volume opened once, for any number of calls, and closed. Each call gives what the plain call gives, and leaves the volume opened.
#![tactic(auto)]

ghost use Rattle.std.specs.Prelude.{◌≡◌, length};
ghost use Rattle.format.specs.Rules.Length.{work_need};
ghost use Rattle.format.specs.Calls.Call.{find as find_call, read as read_call, overwrite as overwrite_call, set_length as length_call};
ghost use Rattle.format.specs.Calls.Call.{create as create_call, remove as remove_call, list as list_call, read_at as read_at_call};
ghost use Rattle.format.specs.Calls.Reply.{plain, reply};
ghost use Rattle.format.specs.Calls.Buffers.{work_cleared, image_after, out_after};
ghost use Rattle.kinds.specs.Numbers.{number_of};
ghost use Rattle.kinds.specs.Links.{new_kind_of};
ghost use Rattle.tables.specs.Work.{Wrote};
ghost use Rattle.queries.specs.Replies.{find_reply, read_reply, list_reply};
ghost use Rattle.opened.specs.OpenVolume.{OpenVolume};
ghost use Rattle.opened.specs.Opening.{OpeningRight};

use creation::create_in;
use edits::overwrite::overwrite_in;
use header::work_need;
use kinds::{EntryId, NewKind, Refusal};
use le::zero_first;
use lengths::set_length_in;
use queries::find::{Object, find_in};
use queries::list::list_in;
use queries::read::{read_at_in, read_in};
use removal::remove_in;
use volume::{Volume, open_volume};

// Validates an image and opens it.
pub fn open_image(image: &[u8], work: &mut [u32]) -> Result<Volume, Refusal>
    ensures { OpeningRight image.now work.old work.new result }
{
    open_volume(image, work)
}

// Leaves the work buffer as a plain call does.
pub fn close(image: &[u8], work: &mut [u32], v: Volume)
    requires { OpenVolume v image.now work.old }
    ensures { work.new ≡ work_cleared (work_need (length image.now)) work.old }
{
    zero_first(work, work_need(image.len()));
}

// The entry that a path leads to: its number, its type and its size.
pub fn find_opened(image: &[u8], work: &[u32], v: Volume, path: &[u16]) -> Result<Object, Refusal>
    requires { OpenVolume v image.now work.now }
    ensures { find_reply result ≡ reply image.now (find_call path.now work.now) }
{
    find_in(path, image, work, v)
}

// Bytes of the stream that a path leads to, from an offset on: as many as are left of it and as the out buffer holds.
pub fn read_opened(
    image: &[u8],
    work: &[u32],
    v: Volume,
    path: &[u16],
    offset: u64,
    out: &mut [u8],
) -> Result<usize, Refusal>
    requires { OpenVolume v image.now work.now }
    ensures result_value { read_reply result ≡ reply image.now (read_call path.now offset out.old work.now) }
    ensures out_after { out.new ≡ out_after image.now (read_call path.now offset out.old work.now) }
{
    read_in(path, image, work, v, offset, out)
}

// The same at a cursor: bytes of the stream of an entry number, from a position on.
pub fn read_at_opened(
    image: &[u8],
    work: &[u32],
    v: Volume,
    entry: EntryId,
    position: u64,
    out: &mut [u8],
) -> Result<usize, Refusal>
    requires { OpenVolume v image.now work.now }
    ensures result_value { read_reply result ≡ reply image.now (read_at_call entry.0 position out.old work.now) }
    ensures out_after { out.new ≡ out_after image.now (read_at_call entry.0 position out.old work.now) }
{
    read_at_in(image, work, v, entry, position, out)
}

// Puts bytes into the stream that a path leads to, from an offset on. They have to end within the stream.
pub fn overwrite_opened(
    image: &mut [u8],
    work: &mut [u32],
    v: Volume,
    path: &[u16],
    offset: u64,
    bytes: &[u8],
) -> Result<(), Refusal>
    requires { OpenVolume v image.old work.old }
    ensures result_value { plain (number_of result)
        ≡ reply image.old (overwrite_call path.now offset bytes.now work.old) }
    ensures image_after { image.new
        ≡ image_after image.old (overwrite_call path.now offset bytes.now work.old) }
    ensures open_volume { OpenVolume v image.new work.new }
    ensures wrote { Wrote work.old work.new 0 (work_need (length image.old)) }
{
    overwrite_in(path, image, work, v, offset, bytes)
}

// Gives the stream that a path leads to another length: cut there, or with zero bytes up to there.
pub fn set_length_opened(
    image: &mut [u8],
    work: &mut [u32],
    v: Volume,
    path: &[u16],
    new_len: u64,
) -> Result<(), Refusal>
    requires { OpenVolume v image.old work.old }
    ensures result_value { plain (number_of result) ≡ reply image.old (length_call path.now new_len work.old) }
    ensures image_after { image.new ≡ image_after image.old (length_call path.now new_len work.old) }
    ensures open_volume { OpenVolume v image.new work.new }
    ensures wrote { Wrote work.old work.new 0 (work_need (length image.old)) }
{
    set_length_in(path, image, work, v, new_len)
}

// Creates an object at a path, in the lowest blank entry: a stream of no bytes, or a storage with nothing in it.
pub fn create_opened(
    image: &mut [u8],
    work: &[u32],
    v: Volume,
    path: &[u16],
    kind: NewKind,
) -> Result<(), Refusal>
    requires { OpenVolume v image.old work.now }
    ensures result_value { plain (number_of result) ≡ reply image.old (create_call (new_kind_of kind) path.now work.now) }
    ensures image_after { image.new ≡ image_after image.old (create_call (new_kind_of kind) path.now work.now) }
    ensures open_volume { OpenVolume v image.new work.now }
{
    create_in(path, image, work, v, kind)
}

// Removes the object that a path leads to: a stream, or a storage with nothing in it.
pub fn remove_opened(
    image: &mut [u8],
    work: &mut [u32],
    v: Volume,
    path: &[u16],
) -> Result<(), Refusal>
    requires { OpenVolume v image.old work.old }
    ensures result_value { plain (number_of result) ≡ reply image.old (remove_call path.now work.old) }
    ensures image_after { image.new ≡ image_after image.old (remove_call path.now work.old) }
    ensures open_volume { OpenVolume v image.new work.new }
    ensures wrote { Wrote work.old work.new 0 (work_need (length image.old)) }
{
    remove_in(path, image, work, v)
}

// A line for each object, in an out buffer that has room for all of them.
pub fn list_opened(
    image: &[u8],
    work: &mut [u32],
    v: Volume,
    out: &mut [u8],
) -> Result<usize, Refusal>
    requires { OpenVolume v image.now work.old }
    ensures result_value { list_reply result ≡ reply image.now (list_call out.old work.old) }
    ensures out_after { out.new ≡ out_after image.now (list_call out.old work.old) }
    ensures open_volume { OpenVolume v image.now work.new }
    ensures wrote { Wrote work.old work.new 0 (work_need (length image.now)) }
{
    list_in(image, work, v, out)
}
