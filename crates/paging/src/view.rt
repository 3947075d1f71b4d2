// A view: the image that it was opened on. Each call is the plain one on that image, refusals included.
ghost use Rattle.std.specs.Prelude.{◌≡◌};
ghost use Rattle.format.specs.Calls.Call.{find as find_call, read as read_call};
ghost use Rattle.format.specs.Calls.Reply.{reply};
ghost use Rattle.format.specs.Calls.Buffers.{out_after, work_after};
ghost use Rattle.format.specs.Calls.CursorMoves.{cursor_call, cursor_after};
ghost use Rattle.queries.specs.Replies.{find_reply, read_reply};
ghost use Rattle.paging.specs.Cursors.{cursor_of};

use super::cursor::{Cursor, read_next};
use kinds::Refusal;
use queries::find::Object;

#[derive(Clone, Copy)]
pub struct View<'a> {
    pub image: &'a [u8],
}

// Validates nothing, and never refuses.
pub fn open<'a>(image: &'a [u8]) -> View<'a>
    ensures { result.image ≡ image.entry }
{
    View { image }
}

// The entry that a path leads to.
pub fn find<'a>(view: View<'a>, work: &mut [u32], path: &[u16]) -> Result<Object, Refusal>
    ensures result_value { find_reply result ≡ reply view.entry.image.now (find_call path.now work.old) }
    ensures work_after { work.new ≡ work_after view.entry.image.now (find_call path.now work.old) }
{
    cfb::find(view.image, work, path)
}

// Bytes of the stream that a path leads to, from an offset on.
pub fn read<'a>(
    view: View<'a>,
    work: &mut [u32],
    path: &[u16],
    offset: u64,
    out: &mut [u8],
) -> Result<usize, Refusal>
    ensures result_value { read_reply result
        ≡ reply view.entry.image.now (read_call path.now offset out.old work.old) }
    ensures out_after { out.new
        ≡ out_after view.entry.image.now (read_call path.now offset out.old work.old) }
    ensures work_after { work.new
        ≡ work_after view.entry.image.now (read_call path.now offset out.old work.old) }
{
    cfb::read(view.image, work, path, offset, out)
}

// The next bytes at a cursor, which moves on.
pub fn read_on<'a>(
    view: View<'a>,
    c: &mut Cursor,
    work: &mut [u32],
    out: &mut [u8],
) -> Result<usize, Refusal>
    ensures result_value { read_reply result
        ≡ reply view.entry.image.now (cursor_call (cursor_of c.old) out.old work.old) }
    ensures c_after { cursor_of c.new
        ≡ cursor_after view.entry.image.now (cursor_of c.old) out.old work.old }
    ensures out_after { out.new
        ≡ out_after view.entry.image.now (cursor_call (cursor_of c.old) out.old work.old) }
    ensures work_after { work.new
        ≡ work_after view.entry.image.now (cursor_call (cursor_of c.old) out.old work.old) }
{
    read_next(c, view.image, work, out)
}
