// What the calls answer, as text on standard output. It is written by file number, since a write that fails is to end nothing:
// `println!` would answer an error, to be let go at each line, and would drop the rest of a line whose start failed.
#![tactic(auto)]

ghost use Rattle.std.specs.Prelude.{◌≡◌, take};
ghost use Rattle.image_report.specs.Answers.{stop_or};

use base::Written;
use bilqarush::{Checked, ViewRange};
use comparable_range::Kind;

pub fn text(t: &[u8]) {
    io::write_all(1, t);
}

pub fn decimal(n: usize) {
    io::print_decimal(1, n as u64);
}

pub fn stop(n: u8) {
    text(b"stop ");
    decimal(usize::from(n));
    text(b"\n");
}

// The front of a buffer. replay::buffer has it too: neither crate stands on the other.
pub fn front(buffer: &[u8], length: usize) -> &[u8]
    ensures { result.now ≡ take length buffer.now }
{
    &buffer[..length.min(buffer.len())]
}

// The number of a refused image's stop, or the one given for an accepted image.
pub fn stop_or(c: Checked, other: u8) -> u8
    ensures { result ≡ stop_or c other }
{
    match c {
        Checked::Accepted => other,
        Checked::Stop(n) => n,
    }
}

// An accepted image answers 9 here, since none has 65 runs. A refused one answers its own stop: 1 to 7 come before 9.
fn stop_of_range(image: &[u8]) -> u8 {
    match bilqarush::compacted_effective_range(image, 64, 0) {
        ViewRange::At { .. } => 0,
        ViewRange::Stop(n) => n,
    }
}

// An accepted image answers 16 here, since no listing fits into no bytes. A refused one answers its own stop.
fn stop_of_list(image: &[u8]) -> u8 {
    match bilqarush::list(image, &mut []) {
        Written::Wrote(_) => 0,
        Written::Stop(n) => n,
    }
}

// What `check_image` answers for the front of a buffer. The other calls have to stop with the same number.
pub fn case(name: &[u8], buffer: &[u8], length: usize) {
    text(name);
    text(b", length ");
    decimal(length);
    text(b": ");
    let image = front(buffer, length);
    let c = bilqarush::check_image(image);
    if stop_of_range(image) != stop_or(c, 9) {
        text(b"compacted_effective_range differs, ");
    }
    if stop_of_list(image) != stop_or(c, 16) {
        text(b"list differs, ");
    }
    match c {
        Checked::Accepted => text(b"accepted\n"),
        Checked::Stop(n) => stop(n),
    }
}

// What `list` answers, with a lent buffer.
pub fn listing(buffer: &[u8], length: usize, out: &mut [u8]) {
    text(b"listed in ");
    decimal(out.len());
    text(b" bytes:\n");
    match bilqarush::list(front(buffer, length), out) {
        Written::Wrote(n) => text(front(out, n)),
        Written::Stop(n) => stop(n),
    }
}

// The key at a place of an image.
fn key(image: &[u8], at: usize, len: usize) {
    if let Some(rest) = image.get(at..) {
        text(front(rest, len));
    }
}

fn bracket(kind: Kind, included: &[u8], excluded: &[u8]) {
    match kind {
        Kind::Unbounded => text(b"-"),
        Kind::Included => text(included),
        Kind::Excluded => text(excluded),
    }
}

// What `compacted_effective_range` answers.
pub fn range(image: &[u8], run: usize, view: usize) {
    match bilqarush::compacted_effective_range(image, run, view) {
        ViewRange::Stop(n) => stop(n),
        ViewRange::At { start, end } => {
            bracket(start.kind, b"[", b"(");
            key(image, start.at, start.len);
            text(b" ");
            key(image, end.at, end.len);
            bracket(end.kind, b"]", b")");
            text(b"\n");
        }
    }
}
