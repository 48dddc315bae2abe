// Reads an image from standard input and writes its listing, or `stop N` for an image that is refused. Document 01,
// program `runlist`.
#![tactic(auto)]

ghost use Rattle.std.specs.Prelude.{◌≤◌, ◌≡◌, length};
ghost use Rattle.base.specs.Outcome.{over};
ghost use Rattle.io.specs.Counts.{IsPrefixLen};
ghost use Rattle.runlist.specs.Text.{stop_text, runlist_text};

use base::Written;

// `stop N` and a newline, at the front of a buffer. Answers its length.
fn put_stop(out: &mut [u8], n: u8) -> usize
    requires { 9 ≤ length out.old }
    ensures value { result ≡ length (stop_text «n») }
    ensures out_after { out.new ≡ over (stop_text «n») out.old }
{
    format::put(out, 0, b"stop ");
    let end = text::put_decimal(out, 5, u64::from(n));
    format::put_byte(out, end, b'\n');
    end + 1
}

// What the program writes for an input, at the front of a buffer. Answers its length.
fn answer(input: &[u8], out: &mut [u8]) -> usize
    requires { length out.old ≡ 131104 }
    ensures value { result ≡ length (runlist_text input.now) }
    ensures out_after { out.new ≡ over (runlist_text input.now) out.old }
    ensures prefix_len { IsPrefixLen result out.new }
{
    match bilqarush::list(input, out) {
        Written::Stop(n) => put_stop(out, n),
        Written::Wrote(n) => n,
    }
}

fn main() {
    // One byte more than an image may have: a longer input is seen to be longer, and its first 65,537 bytes are stop 3.
    let mut input = [0u8; 65537];
    // A view of n bytes has a line of at most 2n, so no listing is longer than 25 + 2 * 65,536.
    let mut out = [0u8; 131104];
    // This reads on after a short read, to the end of the input or of the buffer. A read that fails counts as the end of
    // the input: no front of an image but the whole is an image, so no image is listed in part.
    let got = io::read_full(0, &mut input);
    let length = answer(&input[..got], &mut out);
    io::write_all(1, &out[..length]);
}
