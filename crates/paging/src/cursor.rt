// A cursor: an entry number and a position in its stream, which reads move.
ghost use Rattle.std.specs.Prelude.{◌≡◌};
ghost use Rattle.format.specs.Calls.Reply.{reply};
ghost use Rattle.format.specs.Calls.Buffers.{out_after, work_after};
ghost use Rattle.format.specs.Calls.CursorMoves.{cursor_call, cursor_after};
ghost use Rattle.queries.specs.Replies.{read_reply};
ghost use Rattle.paging.specs.Cursors.{cursor_of};

use cfb::read_at;
use kinds::{EntryId, Refusal};

#[derive(Clone, Copy)]
pub struct Cursor {
    pub entry: EntryId,
    pub position: u64,
}

// What a read at a cursor gives, and the cursor after it.
#[derive(Clone, Copy)]
pub struct Step {
    pub read: Result<usize, Refusal>,
    pub cursor: Cursor,
}

// How many bytes a read handed over; a refusal hands over none.
fn count(r: Result<usize, Refusal>) -> u64
    ensures { result ≡ (read_reply r).count }
{
    match r {
        Ok(n) => n as u64,
        Err(_) => 0,
    }
}

// Reads on at a cursor that is passed and handed back. It moves by the count.
pub fn read_from(c: Cursor, image: &[u8], work: &mut [u32], out: &mut [u8]) -> Step
    ensures read_value { read_reply result.read ≡ reply image.now (cursor_call (cursor_of c) out.old work.old) }
    ensures cursor_value { cursor_of result.cursor ≡ cursor_after image.now (cursor_of c) out.old work.old }
    ensures out_after { out.new ≡ out_after image.now (cursor_call (cursor_of c) out.old work.old) }
    ensures work_after { work.new ≡ work_after image.now (cursor_call (cursor_of c) out.old work.old) }
{
    let entry = c.entry;
    let position = c.position;
    let r = read_at(image, work, entry, position, out);
    let next = Cursor {
        entry,
        position: position + count(r),
    };
    Step {
        read: r,
        cursor: next,
    }
}

// The same at a cursor that is lent and moved in place.
pub fn read_next(
    c: &mut Cursor,
    image: &[u8],
    work: &mut [u32],
    out: &mut [u8],
) -> Result<usize, Refusal>
    ensures result_value { read_reply result
        ≡ reply image.now (cursor_call (cursor_of c.old) out.old work.old) }
    ensures c_after { cursor_of c.new
        ≡ cursor_after image.now (cursor_of c.old) out.old work.old }
    ensures out_after { out.new
        ≡ out_after image.now (cursor_call (cursor_of c.old) out.old work.old) }
    ensures work_after { work.new
        ≡ work_after image.now (cursor_call (cursor_of c.old) out.old work.old) }
{
    let s = read_from(*c, image, work, out);
    *c = s.cursor;
    s.read
}
