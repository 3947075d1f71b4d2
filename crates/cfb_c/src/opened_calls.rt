// The calls on an opened volume, for C. What opening found stands in numbers that C keeps and hands back: each call requires that they, the image
// and the work buffer are as `cfb_open` or the last call left them.
ghost use Rattle.std.specs.Prelude.{◌≡◌, ◌≢◌, length};
ghost use Rattle.format.specs.Rules.Length.{work_need};
ghost use Rattle.format.specs.Calls.Call.{validate as validate_call, find as find_call, read as read_call, overwrite as overwrite_call, set_length as length_call};
ghost use Rattle.format.specs.Calls.Call.{create as create_call, remove as remove_call, list as list_call, read_at as read_at_call};
ghost use Rattle.format.specs.Calls.Create.{stream, storage};
ghost use Rattle.format.specs.Calls.Reply.{plain, reply};
ghost use Rattle.format.specs.Calls.Buffers.{work_cleared, image_after, out_after, work_after};
ghost use Rattle.tables.specs.Work.{Wrote};
ghost use Rattle.opened.specs.OpenVolume.{OpenVolume};
ghost use Rattle.cfb_c.specs.Packed.{sizes_for, Known, unpacked};

use super::{counted, found};
use directory::Directory;
use kinds::{EntryId, Geometry, NewKind, number};
use minis::Minis;
use opened::{
    close, create_opened, find_opened, list_opened, open_image, overwrite_opened, read_at_opened,
    read_opened, remove_opened, set_length_opened,
};
use tables::Tables;
use volume::Volume;

// ---- a volume as numbers

// The first is the version, which says the sizes.
fn pack(v: Volume, volume: &mut [u64; 9])
    requires { Known v }
    ensures { unpacked volume.new ≡ v }
{
    *volume = [
        v.tables.geometry.major as u64,
        v.tables.sectors as u64,
        v.tables.list as u64,
        v.directory.sectors as u64,
        v.directory.list as u64,
        v.minis.units as u64,
        v.minis.sectors as u64,
        v.minis.list as u64,
        v.stream as u64,
    ];
}

fn sizes_for(major: u64) -> Geometry
    ensures { result ≡ sizes_for major }
{
    if major == 4 {
        Geometry::V4
    } else {
        Geometry::V3
    }
}

fn unpack(volume: &[u64; 9]) -> Volume
    ensures { result ≡ unpacked volume.now }
{
    let geometry = sizes_for(volume[0]);
    Volume {
        tables: Tables {
            geometry,
            sectors: volume[1] as usize,
            list: volume[2] as usize,
        },
        directory: Directory {
            geometry,
            sectors: volume[3] as usize,
            list: volume[4] as usize,
        },
        minis: Minis {
            geometry,
            units: volume[5] as usize,
            sectors: volume[6] as usize,
            list: volume[7] as usize,
        },
        stream: volume[8] as usize,
    }
}

// ---- opening and closing

#[unsafe(no_mangle)]
pub extern "C" fn cfb_open(image: &[u8], work: &mut [u32], volume: &mut [u64; 9]) -> u32
    ensures result_value { plain result ≡ reply image.now (validate_call work.old) }
    ensures open_volume { result ≡ 0 → OpenVolume (unpacked volume.new) image.now work.new }
    ensures wrote { result ≡ 0 → Wrote work.old work.new 0 (work_need (length image.now)) }
    ensures work_after { result ≢ 0 → work.new ≡ work_after image.now (validate_call work.old) }
    ensures volume_unchanged { result ≢ 0 → volume.new ≡ volume.old }
{
    match open_image(image, work) {
        Err(a) => u32::from(a),
        Ok(v) => {
            pack(v, volume);
            0
        }
    }
}

#[unsafe(no_mangle)]
pub extern "C" fn cfb_close(image: &[u8], work: &mut [u32], volume: &[u64; 9])
    requires { OpenVolume (unpacked volume.now) image.now work.old }
    ensures { work.new ≡ work_cleared (work_need (length image.now)) work.old }
{
    close(image, work, unpack(volume));
}

// ---- calls

#[unsafe(no_mangle)]
pub extern "C" fn cfb_opened_find(
    image: &[u8],
    work: &[u32],
    volume: &[u64; 9],
    path: &[u16],
    entry: &mut u32,
    kind: &mut u32,
    size: &mut u64,
) -> u32
    requires { OpenVolume (unpacked volume.now) image.now work.now }
    ensures { record { number = result; entry = entry.new; type = kind.new; size = size.new; count = 0 }
        ≡ reply image.now (find_call path.now work.now) }
{
    found(
        find_opened(image, work, unpack(volume), path),
        entry,
        kind,
        size,
    )
}

#[unsafe(no_mangle)]
pub extern "C" fn cfb_opened_read(
    image: &[u8],
    work: &[u32],
    volume: &[u64; 9],
    path: &[u16],
    offset: u64,
    out: &mut [u8],
    count: &mut u64,
) -> u32
    requires { OpenVolume (unpacked volume.now) image.now work.now }
    ensures count_after { record { number = result; entry = 0; type = 0; size = 0; count = count.new }
        ≡ reply image.now (read_call path.now offset out.old work.now) }
    ensures out_after { out.new
        ≡ out_after image.now (read_call path.now offset out.old work.now) }
{
    counted(
        read_opened(image, work, unpack(volume), path, offset, out),
        count,
    )
}

#[unsafe(no_mangle)]
pub extern "C" fn cfb_opened_read_at(
    image: &[u8],
    work: &[u32],
    volume: &[u64; 9],
    entry: u32,
    position: u64,
    out: &mut [u8],
    count: &mut u64,
) -> u32
    requires { OpenVolume (unpacked volume.now) image.now work.now }
    ensures count_after { record { number = result; entry = 0; type = 0; size = 0; count = count.new }
        ≡ reply image.now (read_at_call entry position out.old work.now) }
    ensures out_after { out.new ≡ out_after image.now (read_at_call entry position out.old work.now) }
{
    counted(
        read_at_opened(image, work, unpack(volume), EntryId(entry), position, out),
        count,
    )
}

#[unsafe(no_mangle)]
pub extern "C" fn cfb_opened_overwrite(
    image: &mut [u8],
    work: &mut [u32],
    volume: &[u64; 9],
    path: &[u16],
    offset: u64,
    bytes: &[u8],
) -> u32
    requires { OpenVolume (unpacked volume.now) image.old work.old }
    ensures result_value { plain result
        ≡ reply image.old (overwrite_call path.now offset bytes.now work.old) }
    ensures image_after { image.new
        ≡ image_after image.old (overwrite_call path.now offset bytes.now work.old) }
    ensures open_volume { OpenVolume (unpacked volume.now) image.new work.new }
    ensures wrote { Wrote work.old work.new 0 (work_need (length image.old)) }
{
    number(overwrite_opened(image, work, unpack(volume), path, offset, bytes))
}

#[unsafe(no_mangle)]
pub extern "C" fn cfb_opened_set_len(
    image: &mut [u8],
    work: &mut [u32],
    volume: &[u64; 9],
    path: &[u16],
    new_len: u64,
) -> u32
    requires { OpenVolume (unpacked volume.now) image.old work.old }
    ensures result_value { plain result ≡ reply image.old (length_call path.now new_len work.old) }
    ensures image_after { image.new
        ≡ image_after image.old (length_call path.now new_len work.old) }
    ensures open_volume { OpenVolume (unpacked volume.now) image.new work.new }
    ensures wrote { Wrote work.old work.new 0 (work_need (length image.old)) }
{
    number(set_length_opened(image, work, unpack(volume), path, new_len))
}

#[unsafe(no_mangle)]
pub extern "C" fn cfb_opened_create_stream(
    image: &mut [u8],
    work: &[u32],
    volume: &[u64; 9],
    path: &[u16],
) -> u32
    requires { OpenVolume (unpacked volume.now) image.old work.now }
    ensures result_value { plain result ≡ reply image.old (create_call stream path.now work.now) }
    ensures image_after { image.new ≡ image_after image.old (create_call stream path.now work.now) }
    ensures open_volume { OpenVolume (unpacked volume.now) image.new work.now }
{
    number(create_opened(image, work, unpack(volume), path, NewKind::Stream))
}

#[unsafe(no_mangle)]
pub extern "C" fn cfb_opened_create_storage(
    image: &mut [u8],
    work: &[u32],
    volume: &[u64; 9],
    path: &[u16],
) -> u32
    requires { OpenVolume (unpacked volume.now) image.old work.now }
    ensures result_value { plain result ≡ reply image.old (create_call storage path.now work.now) }
    ensures image_after { image.new ≡ image_after image.old (create_call storage path.now work.now) }
    ensures open_volume { OpenVolume (unpacked volume.now) image.new work.now }
{
    number(create_opened(image, work, unpack(volume), path, NewKind::Storage))
}

#[unsafe(no_mangle)]
pub extern "C" fn cfb_opened_remove(
    image: &mut [u8],
    work: &mut [u32],
    volume: &[u64; 9],
    path: &[u16],
) -> u32
    requires { OpenVolume (unpacked volume.now) image.old work.old }
    ensures result_value { plain result ≡ reply image.old (remove_call path.now work.old) }
    ensures image_after { image.new ≡ image_after image.old (remove_call path.now work.old) }
    ensures open_volume { OpenVolume (unpacked volume.now) image.new work.new }
    ensures wrote { Wrote work.old work.new 0 (work_need (length image.old)) }
{
    number(remove_opened(image, work, unpack(volume), path))
}

#[unsafe(no_mangle)]
pub extern "C" fn cfb_opened_list(
    image: &[u8],
    work: &mut [u32],
    volume: &[u64; 9],
    out: &mut [u8],
    count: &mut u64,
) -> u32
    requires { OpenVolume (unpacked volume.now) image.now work.old }
    ensures count_after { record { number = result; entry = 0; type = 0; size = 0; count = count.new }
        ≡ reply image.now (list_call out.old work.old) }
    ensures out_after { out.new ≡ out_after image.now (list_call out.old work.old) }
    ensures open_volume { OpenVolume (unpacked volume.now) image.now work.new }
    ensures wrote { Wrote work.old work.new 0 (work_need (length image.now)) }
{
    counted(list_opened(image, work, unpack(volume), out), count)
}
