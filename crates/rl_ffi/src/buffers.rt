//! Writing a text to a buffer of C.
ghost use Rattle.std.specs.Prelude.{◌≡◌, ◌≤◌, length};
ghost use Rattle.rl_ffi.specs.Buffers.{put};
ghost use Rattle.rl_ffi.specs.Calls.{Fills};

use crate::answers::Answer;

// Writes the whole text to the start of the buffer.
pub(crate) fn put(text: &[u8], out: &mut [u8])
    requires { length text.now ≤ length out.old }
    ensures { out.new ≡ put text.now out.old }
{
    out[..text.len()].copy_from_slice(text);
}

// Writes the text and its length; of one that does not fit only the length.
pub(crate) fn hand_out(text: &[u8], out: &mut [u8], len: &mut usize) -> Answer
    ensures { Fills text.now result (out.old, len.old) (out.new, len.new) }
{
    *len = text.len();
    if text.len() > out.len() {
        return Answer::TooSmall;
    }
    put(text, out);
    Answer::Done
}
