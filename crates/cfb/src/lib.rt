// The public calls. Nobody has to check first: no call requires anything, and every call ends and answers.
#![tactic(auto)]

ghost use Rattle.std.specs.Prelude.{◌≡◌, length};
ghost use Rattle.format.specs.Calls.Call.{validate as validate_call, find as find_call, read as read_call, overwrite as overwrite_call, set_length as length_call};
ghost use Rattle.format.specs.Calls.Call.{create as create_call, remove as remove_call, list as list_call, read_at as read_at_call};
ghost use Rattle.format.specs.Calls.Create.{stream, storage};
ghost use Rattle.format.specs.Calls.Reply.{plain, reply};
ghost use Rattle.format.specs.Calls.Buffers.{image_after, out_after, work_after};
ghost use Rattle.format.specs.Calls.Repair.{repair_reply, image_repaired, work_repaired, spare_repaired};
ghost use Rattle.format.specs.Fresh.Answer.{format_answer, formatted};
ghost use Rattle.kinds.specs.Numbers.{number_of};
ghost use Rattle.kinds.specs.Links.{new_kind_of};
ghost use Rattle.queries.specs.Replies.{find_reply, read_reply, list_reply};
ghost use Rattle.repair.specs.Replies.{repair_reply_of};
ghost use Rattle.formatting.specs.Plans.{plan_for};

use kinds::{EntryId, NewKind, Refusal};
use opened::{
    close, create_opened, find_opened, list_opened, open_image, overwrite_opened, read_at_opened,
    read_opened, remove_opened, set_length_opened,
};
use queries::find::Object;
use repair::repair_image;

// Whether an image keeps all rules; where not, the first group that it breaks.
pub fn validate(image: &[u8], work: &mut [u32]) -> Result<(), Refusal>
    ensures result_value { plain (number_of result) ≡ reply image.now (validate_call work.old) }
    ensures work_after { work.new ≡ work_after image.now (validate_call work.old) }
{
    let v = open_image(image, work)?; // refused: the first group that is broken
    close(image, work, v);
    Ok(())
}

// The entry that a path leads to: its number, its type and its size.
pub fn find(image: &[u8], work: &mut [u32], path: &[u16]) -> Result<Object, Refusal>
    ensures result_value { find_reply result ≡ reply image.now (find_call path.now work.old) }
    ensures work_after { work.new ≡ work_after image.now (find_call path.now work.old) }
{
    let v = open_image(image, work)?; // a broken image is refused, whatever the path
    let r = find_opened(image, work, v, path);
    close(image, work, v);
    r
}

// Bytes of the stream that a path leads to, from an offset on: as many as are left of it and as the out buffer holds.
pub fn read(
    image: &[u8],
    work: &mut [u32],
    path: &[u16],
    offset: u64,
    out: &mut [u8],
) -> Result<usize, Refusal>
    ensures result_value { read_reply result ≡ reply image.now (read_call path.now offset out.old work.old) }
    ensures out_after { out.new ≡ out_after image.now (read_call path.now offset out.old work.old) }
    ensures work_after { work.new ≡ work_after image.now (read_call path.now offset out.old work.old) }
{
    let v = open_image(image, work)?;
    let r = read_opened(image, work, v, path, offset, out);
    close(image, work, v);
    r
}

// The same at a cursor: bytes of the stream of an entry number, from a position on. A caller who moves the position by the count reads on.
pub fn read_at(
    image: &[u8],
    work: &mut [u32],
    entry: EntryId,
    position: u64,
    out: &mut [u8],
) -> Result<usize, Refusal>
    ensures result_value { read_reply result ≡ reply image.now (read_at_call entry.0 position out.old work.old) }
    ensures out_after { out.new ≡ out_after image.now (read_at_call entry.0 position out.old work.old) }
    ensures work_after { work.new ≡ work_after image.now (read_at_call entry.0 position out.old work.old) }
{
    let v = open_image(image, work)?;
    let r = read_at_opened(image, work, v, entry, position, out);
    close(image, work, v);
    r
}

// Puts bytes into the stream that a path leads to, from an offset on. They have to end within the stream.
pub fn overwrite(
    image: &mut [u8],
    work: &mut [u32],
    path: &[u16],
    offset: u64,
    bytes: &[u8],
) -> Result<(), Refusal>
    ensures result_value { plain (number_of result)
        ≡ reply image.old (overwrite_call path.now offset bytes.now work.old) }
    ensures image_after { image.new
        ≡ image_after image.old (overwrite_call path.now offset bytes.now work.old) }
    ensures work_after { work.new
        ≡ work_after image.old (overwrite_call path.now offset bytes.now work.old) }
{
    let v = open_image(image, work)?;
    let r = overwrite_opened(image, work, v, path, offset, bytes);
    close(image, work, v);
    r
}

// Gives the stream that a path leads to another length: cut there, or with zero bytes up to there.
pub fn set_length(
    image: &mut [u8],
    work: &mut [u32],
    path: &[u16],
    new_len: u64,
) -> Result<(), Refusal>
    ensures result_value { plain (number_of result) ≡ reply image.old (length_call path.now new_len work.old) }
    ensures image_after { image.new ≡ image_after image.old (length_call path.now new_len work.old) }
    ensures work_after { work.new ≡ work_after image.old (length_call path.now new_len work.old) }
{
    let v = open_image(image, work)?;
    let r = set_length_opened(image, work, v, path, new_len);
    close(image, work, v);
    r
}

// An object at a path, where nothing is yet.
fn create(image: &mut [u8], work: &mut [u32], path: &[u16], kind: NewKind) -> Result<(), Refusal>
    ensures result_value { plain (number_of result) ≡ reply image.old (create_call (new_kind_of kind) path.now work.old) }
    ensures image_after { image.new ≡ image_after image.old (create_call (new_kind_of kind) path.now work.old) }
    ensures work_after { work.new ≡ work_after image.old (create_call (new_kind_of kind) path.now work.old) }
{
    let v = open_image(image, work)?;
    let r = create_opened(image, work, v, path, kind);
    close(image, work, v);
    r
}

// A stream of no bytes at a path, where nothing is yet.
pub fn create_stream(image: &mut [u8], work: &mut [u32], path: &[u16]) -> Result<(), Refusal>
    ensures result_value { plain (number_of result) ≡ reply image.old (create_call stream path.now work.old) }
    ensures image_after { image.new ≡ image_after image.old (create_call stream path.now work.old) }
    ensures work_after { work.new ≡ work_after image.old (create_call stream path.now work.old) }
{
    create(image, work, path, NewKind::Stream)
}

// A storage with nothing in it at a path, where nothing is yet.
pub fn create_storage(image: &mut [u8], work: &mut [u32], path: &[u16]) -> Result<(), Refusal>
    ensures result_value { plain (number_of result) ≡ reply image.old (create_call storage path.now work.old) }
    ensures image_after { image.new ≡ image_after image.old (create_call storage path.now work.old) }
    ensures work_after { work.new ≡ work_after image.old (create_call storage path.now work.old) }
{
    create(image, work, path, NewKind::Storage)
}

// Removes the object that a path leads to: a stream, or a storage with nothing in it.
pub fn remove(image: &mut [u8], work: &mut [u32], path: &[u16]) -> Result<(), Refusal>
    ensures result_value { plain (number_of result) ≡ reply image.old (remove_call path.now work.old) }
    ensures image_after { image.new ≡ image_after image.old (remove_call path.now work.old) }
    ensures work_after { work.new ≡ work_after image.old (remove_call path.now work.old) }
{
    let v = open_image(image, work)?;
    let r = remove_opened(image, work, v, path);
    close(image, work, v);
    r
}

// A line for each object, in an out buffer that has room for all of them.
pub fn list(image: &[u8], work: &mut [u32], out: &mut [u8]) -> Result<usize, Refusal>
    ensures result_value { list_reply result ≡ reply image.now (list_call out.old work.old) }
    ensures out_after { out.new ≡ out_after image.now (list_call out.old work.old) }
    ensures work_after { work.new ≡ work_after image.now (list_call out.old work.old) }
{
    let v = open_image(image, work)?; // a broken image is refused, however long the buffer
    let r = list_opened(image, work, v, out);
    close(image, work, v);
    r
}

// A new image with no object in it, over the whole buffer: so many sectors, of which the directory and the mini FAT have as many as are said, with room
// for so many mini sectors. What the buffer held is not looked at.
pub fn format_image(
    image: &mut [u8],
    version: u32,
    sectors: u64,
    directory: u64,
    minifat: u64,
    minis: u64,
) -> Result<(), Refusal>
    ensures result_value { number_of result ≡ format_answer (length image.old) (plan_for version sectors directory minifat minis) }
    ensures image_after { image.new ≡ formatted image.old (plan_for version sectors directory minifat minis) }
{
    formatting::format_image(image, version, sectors, directory, minifat, minis)
}

// Repairs tables and colours that a power cut has bent, where the image then keeps all rules, and says how many cells and colour bytes have
// changed. Else it is as it was. The spare buffer has to be as long as the image.
pub fn repair(image: &mut [u8], work: &mut [u32], spare: &mut [u8]) -> Result<u64, Refusal>
    ensures result_value { repair_reply_of result ≡ repair_reply image.old spare.old work.old }
    ensures image_after { image.new ≡ image_repaired image.old spare.old work.old }
    ensures work_after { work.new ≡ work_repaired image.old spare.old work.old }
    ensures spare_after { spare.new ≡ spare_repaired image.old spare.old work.old }
{
    repair_image(image, work, spare)
}
