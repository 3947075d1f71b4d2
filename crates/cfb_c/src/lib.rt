// The public calls for C. A slice passes as a pointer and a length; an answer is 01's number, and values go out through pointers.
#![tactic(auto)]

ghost use Rattle.std.specs.Prelude.{◌≡◌, length};
ghost use Rattle.format.specs.Calls.Call.{validate as validate_call, find as find_call, read as read_call, overwrite as overwrite_call, set_length as length_call};
ghost use Rattle.format.specs.Calls.Call.{create as create_call, remove as remove_call, list as list_call, read_at as read_at_call};
ghost use Rattle.format.specs.Calls.Create.{stream, storage};
ghost use Rattle.format.specs.Calls.Reply.{plain, reply};
ghost use Rattle.format.specs.Calls.Buffers.{image_after, out_after, work_after};
ghost use Rattle.format.specs.Calls.Repair.{repair_reply, image_repaired, work_repaired, spare_repaired};
ghost use Rattle.format.specs.Fresh.Answer.{format_answer, formatted};
ghost use Rattle.queries.specs.Replies.{find_reply, read_reply};
ghost use Rattle.formatting.specs.Plans.{plan_for};

use cfb::{
    create_storage, create_stream, find, format_image, list, overwrite, read, read_at, remove,
    repair, set_length, validate,
};
use kinds::{EntryId, Refusal, number};
use queries::find::Object;

pub mod opened_calls;
pub mod pulse_calls;

// ---- answers as C gets them

// An object's number, type and size; a refusal gives none of them.
fn found(answer: Result<Object, Refusal>, entry: &mut u32, kind: &mut u32, size: &mut u64) -> u32
    ensures { record { number = result; entry = entry.new; type = kind.new; size = size.new; count = 0 } ≡ find_reply answer }
{
    match answer {
        Ok(e) => {
            *entry = e.id.0;
            *kind = e.entry_type.0 as u32;
            *size = e.size;
            0
        }
        Err(a) => {
            *entry = 0;
            *kind = 0;
            *size = 0;
            u32::from(a)
        }
    }
}

// How many bytes were handed over; a refusal hands over none.
fn counted(answer: Result<usize, Refusal>, count: &mut u64) -> u32
    ensures { record { number = result; entry = 0; type = 0; size = 0; count = count.new } ≡ read_reply answer }
{
    match answer {
        Ok(n) => {
            *count = n as u64;
            0
        }
        Err(a) => {
            *count = 0;
            u32::from(a)
        }
    }
}

// ---- calls

#[unsafe(no_mangle)]
pub extern "C" fn cfb_validate(image: &[u8], work: &mut [u32]) -> u32
    ensures result_value { plain result ≡ reply image.now (validate_call work.old) }
    ensures work_after { work.new ≡ work_after image.now (validate_call work.old) }
{
    number(validate(image, work))
}

#[unsafe(no_mangle)]
pub extern "C" fn cfb_find(
    image: &[u8],
    work: &mut [u32],
    path: &[u16],
    entry: &mut u32,
    kind: &mut u32,
    size: &mut u64,
) -> u32
    ensures count_after { record { number = result; entry = entry.new; type = kind.new; size = size.new; count = 0 }
        ≡ reply image.now (find_call path.now work.old) }
    ensures work_after { work.new ≡ work_after image.now (find_call path.now work.old) }
{
    found(find(image, work, path), entry, kind, size)
}

#[unsafe(no_mangle)]
pub extern "C" fn cfb_read(
    image: &[u8],
    work: &mut [u32],
    path: &[u16],
    offset: u64,
    out: &mut [u8],
    count: &mut u64,
) -> u32
    ensures count_after { record { number = result; entry = 0; type = 0; size = 0; count = count.new }
        ≡ reply image.now (read_call path.now offset out.old work.old) }
    ensures out_after { out.new ≡ out_after image.now (read_call path.now offset out.old work.old) }
    ensures work_after { work.new ≡ work_after image.now (read_call path.now offset out.old work.old) }
{
    counted(read(image, work, path, offset, out), count)
}

#[unsafe(no_mangle)]
pub extern "C" fn cfb_read_at(
    image: &[u8],
    work: &mut [u32],
    entry: u32,
    position: u64,
    out: &mut [u8],
    count: &mut u64,
) -> u32
    ensures count_after { record { number = result; entry = 0; type = 0; size = 0; count = count.new }
        ≡ reply image.now (read_at_call entry position out.old work.old) }
    ensures out_after { out.new ≡ out_after image.now (read_at_call entry position out.old work.old) }
    ensures work_after { work.new ≡ work_after image.now (read_at_call entry position out.old work.old) }
{
    counted(read_at(image, work, EntryId(entry), position, out), count)
}

#[unsafe(no_mangle)]
pub extern "C" fn cfb_overwrite(
    image: &mut [u8],
    work: &mut [u32],
    path: &[u16],
    offset: u64,
    bytes: &[u8],
) -> u32
    ensures result_value { plain result ≡ reply image.old (overwrite_call path.now offset bytes.now work.old) }
    ensures image_after { image.new
        ≡ image_after image.old (overwrite_call path.now offset bytes.now work.old) }
    ensures work_after { work.new
        ≡ work_after image.old (overwrite_call path.now offset bytes.now work.old) }
{
    number(overwrite(image, work, path, offset, bytes))
}

#[unsafe(no_mangle)]
pub extern "C" fn cfb_set_len(image: &mut [u8], work: &mut [u32], path: &[u16], new_len: u64) -> u32
    ensures result_value { plain result ≡ reply image.old (length_call path.now new_len work.old) }
    ensures image_after { image.new ≡ image_after image.old (length_call path.now new_len work.old) }
    ensures work_after { work.new ≡ work_after image.old (length_call path.now new_len work.old) }
{
    number(set_length(image, work, path, new_len))
}

#[unsafe(no_mangle)]
pub extern "C" fn cfb_create_stream(image: &mut [u8], work: &mut [u32], path: &[u16]) -> u32
    ensures result_value { plain result ≡ reply image.old (create_call stream path.now work.old) }
    ensures image_after { image.new ≡ image_after image.old (create_call stream path.now work.old) }
    ensures work_after { work.new ≡ work_after image.old (create_call stream path.now work.old) }
{
    number(create_stream(image, work, path))
}

#[unsafe(no_mangle)]
pub extern "C" fn cfb_create_storage(image: &mut [u8], work: &mut [u32], path: &[u16]) -> u32
    ensures result_value { plain result ≡ reply image.old (create_call storage path.now work.old) }
    ensures image_after { image.new ≡ image_after image.old (create_call storage path.now work.old) }
    ensures work_after { work.new ≡ work_after image.old (create_call storage path.now work.old) }
{
    number(create_storage(image, work, path))
}

#[unsafe(no_mangle)]
pub extern "C" fn cfb_remove(image: &mut [u8], work: &mut [u32], path: &[u16]) -> u32
    ensures result_value { plain result ≡ reply image.old (remove_call path.now work.old) }
    ensures image_after { image.new ≡ image_after image.old (remove_call path.now work.old) }
    ensures work_after { work.new ≡ work_after image.old (remove_call path.now work.old) }
{
    number(remove(image, work, path))
}

#[unsafe(no_mangle)]
pub extern "C" fn cfb_list(image: &[u8], work: &mut [u32], out: &mut [u8], count: &mut u64) -> u32
    ensures count_after { record { number = result; entry = 0; type = 0; size = 0; count = count.new }
        ≡ reply image.now (list_call out.old work.old) }
    ensures out_after { out.new ≡ out_after image.now (list_call out.old work.old) }
    ensures work_after { work.new ≡ work_after image.now (list_call out.old work.old) }
{
    counted(list(image, work, out), count)
}

#[unsafe(no_mangle)]
pub extern "C" fn cfb_format(
    image: &mut [u8],
    version: u32,
    sectors: u64,
    directory_sectors: u64,
    mini_fat_sectors: u64,
    mini_sectors: u64,
) -> u32
    ensures value { result
        ≡ format_answer (length image.old) (plan_for version sectors directory_sectors mini_fat_sectors mini_sectors) }
    ensures image_after { image.new
        ≡ formatted image.old (plan_for version sectors directory_sectors mini_fat_sectors mini_sectors) }
{
    number(format_image(
        image,
        version,
        sectors,
        directory_sectors,
        mini_fat_sectors,
        mini_sectors,
    ))
}

#[unsafe(no_mangle)]
pub extern "C" fn cfb_repair(
    image: &mut [u8],
    work: &mut [u32],
    spare: &mut [u8],
    changed: &mut u64,
) -> u32
    ensures changed_after { record { number = result; entry = 0; type = 0; size = 0; count = changed.new }
        ≡ repair_reply image.old spare.old work.old }
    ensures image_after { image.new ≡ image_repaired image.old spare.old work.old }
    ensures work_after { work.new ≡ work_repaired image.old spare.old work.old }
    ensures spare_after { spare.new ≡ spare_repaired image.old spare.old work.old }
{
    match repair(image, work, spare) {
        Ok(n) => {
            *changed = n;
            0
        }
        Err(a) => {
            *changed = 0;
            u32::from(a)
        }
    }
}
