// What the library is for: a compaction whose worker stopped half way is committed as far as it came, and no reading is
// lost. Run 7 is the destination and a source, run 9 the other source. The program has no input; each listing is that of
// the image which the commit before it wrote.
#![tactic(auto)]

mod build;

ghost use Rattle.std.specs.Prelude.{◌≡◌, true};
ghost use Rattle.demo.specs.Has.{Has};

use base::Written;
use image_report::{front, stop, text};

// Writes an image's listing, and leaves it at the front of a buffer. Answers its length.
fn show(image: &[u8], listing: &mut [u8]) -> usize {
    match bilqarush::list(image, listing) {
        Written::Stop(n) => {
            stop(n);
            0
        }
        Written::Wrote(n) => {
            text(front(listing, n));
            n
        }
    }
}

// Commits with a supply for six ids, which the first commit draws. Answers the new image's length, 0 after a stop.
fn commit<'a>(heading: &[u8], image: &'a [u8], job: &'a [u8], out: &mut [u8]) -> usize {
    let ids = b"0123456789abcdefghijABCDEFGHIJklmnopqrstKLMNOPQRSTuvwxyzUVWX";
    text(heading);
    match bilqarush::commit(image, job, ids, out) {
        Written::Stop(n) => {
            stop(n);
            0
        }
        Written::Wrote(n) => n,
    }
}

// Whether some bytes stand somewhere in others.
fn has(t: &[u8], piece: &[u8]) -> bool
    ensures { result ≡ true → Has t.now piece.now }
{
    for i in 0..t.len() {
        if t[i..].starts_with(piece) {
            return true;
        }
    }
    false
}

// In the listing a view of the old table starts at h, the last key that the worker wrote before it stopped.
fn last_written(listing: &[u8]) {
    text(b"table 1 still shows key 68, which was written last and may have more versions: ");
    if has(listing, b"00000000000000000000000000000001 [68 ") {
        text(b"yes\n");
    } else {
        text(b"no\n");
    }
}

fn main() {
    let mut listing = [0u8; 1024];
    let mut job = [0u8; 512];

    let mut image = [0u8; 256];
    let length = build::image(&mut image);
    text(b"the image before the compaction:\n");
    show(front(&image, length), &mut listing);

    let job_length = build::half_way(&mut job);
    let mut half = [0u8; 1024];
    let half_length = commit(
        b"the worker stopped half way, and what it wrote is committed:\n",
        front(&image, length),
        front(&job, job_length),
        &mut half,
    );
    let listing_length = show(front(&half, half_length), &mut listing);
    last_written(front(&listing, listing_length));

    let job_length = build::further(&mut job);
    let mut more = [0u8; 1024];
    let more_length = commit(
        b"another worker went on, and the record with more progress is committed:\n",
        front(&half, half_length),
        front(&job, job_length),
        &mut more,
    );
    show(front(&more, more_length), &mut listing);

    let job_length = build::completed(&mut job);
    let mut all = [0u8; 1024];
    let all_length = commit(
        b"the completed job is committed, and run 9 has no views left:\n",
        front(&more, more_length),
        front(&job, job_length),
        &mut all,
    );
    show(front(&all, all_length), &mut listing);
}
