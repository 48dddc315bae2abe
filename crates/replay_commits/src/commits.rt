// A commit made with a record's arguments and held to its answer, and the image that a list goes on with.
ghost use Rattle.std.specs.Prelude.{◌≤◌, ◌≡◌, true, length, take};
ghost use Rattle.replay.specs.Recorded.{Recorded};
ghost use Rattle.replay_commits.specs.Lists.{handed_on};

use base::Written;
use replay::buffer;

// What a commit answered, and whether that and the lent buffer are what was recorded.
#[derive(Clone, Copy)]
pub struct Made {
    pub agreed: bool,
    pub written: Written,
}

// The lent buffer is filled first, so that a byte which is not to be written is seen if it is.
pub fn commit<'a>(image: &'a [u8], job: &'a [u8], ids: &[u8], answer: &[u8], out: &mut [u8]) -> Made
    ensures { result.agreed ≡ true → Recorded answer.now out.new result.written }
{
    buffer::fill(out);
    let written = bilqarush::commit(image, job, ids, out);
    let agreed = buffer::written_is(answer, out, written);
    Made { agreed, written }
}

fn put_front(image: &mut [u8], new: &[u8]) -> usize
    requires { length new.now ≤ length image.old }
    ensures { take result image.new ≡ new.now }
{
    image[..new.len()].copy_from_slice(new);
    new.len()
}

// The image of the next commit in a list: the one just written, or after a stop the one held before. It stands at the front
// of the buffer, and its length is answered.
pub fn hand_on(image: &mut [u8], held: usize, out: &[u8], written: Written) -> usize
    requires { length out.now ≤ length image.old }
    ensures { take result image.new ≡ handed_on (take held image.old) out.now written }
{
    match written {
        Written::Stop(_) => held,
        Written::Wrote(n) => put_front(image, buffer::front(out, n)),
    }
}
