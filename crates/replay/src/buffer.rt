// A lent buffer, every byte of which is held to a recorded answer.
ghost use Rattle.std.specs.Prelude.{◌≡◌, true, take};
ghost use Rattle.replay.specs.Unwritten.{Unwritten};
ghost use Rattle.replay.specs.Recorded.{Holds, Stopped, Recorded};

use crate::answer;
use base::Written;

// A byte that says that a buffer's byte was not written.
const UNWRITTEN: u8 = 165;

// The front of a buffer.
pub fn front(buffer: &[u8], length: usize) -> &[u8]
    ensures { result.now ≡ take length buffer.now }
{
    &buffer[..length.min(buffer.len())]
}

pub fn fill(out: &mut [u8]) {
    out.fill(UNWRITTEN);
}

fn is_unwritten(out: &[u8], from: usize) -> bool
    ensures { result ≡ true → Unwritten out.now from }
{
    out.iter().skip(from).all(|&b| b == UNWRITTEN)
}

// Whether a buffer holds the answer at its front and is unwritten past it.
fn buffer_is(answer: &[u8], out: &[u8], length: usize) -> bool
    ensures { result ≡ true → Holds answer.now out.now length }
{
    let Some((&0, bytes)) = answer.split_first() else {
        return false;
    };
    if out.len() < length || bytes != &out[..length] {
        return false;
    }
    is_unwritten(out, length)
}

// Whether a buffer is unwritten and the answer is a stop.
fn stop_is(answer: &[u8], out: &[u8], n: u8) -> bool
    ensures { result ≡ true → Stopped answer.now out.now n }
{
    answer::is_stop(answer, n) && is_unwritten(out, 0)
}

// Whether a call wrote what was recorded into a buffer that was filled before.
pub fn written_is(answer: &[u8], out: &[u8], w: Written) -> bool
    ensures { result ≡ true → Recorded answer.now out.now w }
{
    match w {
        Written::Wrote(n) => buffer_is(answer, out, n),
        Written::Stop(n) => stop_is(answer, out, n),
    }
}
