// The calls of bilqarush on images, each made with a record's arguments and held to its answer.
use bilqarush::{Checked, ViewRange};
use format::BoundSpan;
use replay::piece::Fields;
use replay::{answer, buffer, kind};

fn checked_is(answer: &[u8], c: Checked) -> bool {
    match c {
        Checked::Stop(n) => answer::is_stop(answer, n),
        Checked::Accepted => answer == [0].as_slice(),
    }
}

// What is left of an answer after a key's place in the image, 24 bits, and its length, 16, if the bound has a key.
fn after_span(answer: &[u8], bound: BoundSpan) -> Option<&[u8]> {
    let BoundSpan { kind, at, len } = bound;
    if !comparable_range::keyed(kind) {
        return Some(answer);
    }
    let high = u8::try_from(at / 65536).ok()?;
    let low = answer::number(answer.strip_prefix(&[high])?, at % 65536)?;
    answer::number(low, len)
}

fn after_range(answer: &[u8], start: BoundSpan, end: BoundSpan) -> Option<&[u8]> {
    let front = [0, kind::number(start.kind), kind::number(end.kind)];
    after_span(after_span(answer.strip_prefix(&front)?, start)?, end)
}

fn view_range_is(answer: &[u8], r: ViewRange) -> bool {
    match r {
        ViewRange::Stop(n) => answer::is_stop(answer, n),
        ViewRange::At { start, end } => answer::is_end(after_range(answer, start, end)),
    }
}

// In a buffer of just the record's room.
fn listing(answer: &[u8], image: &[u8], room: usize, out: &mut [u8]) -> bool {
    let Some(out) = out.get_mut(..room) else {
        return false;
    };
    buffer::fill(out);
    let w = bilqarush::list(image, out);
    buffer::written_is(answer, out, w)
}

// Whether a record's call answers what it recorded. An unknown call never does.
pub fn agrees(f: Fields, image: &[u8], answer: &[u8], out: &mut [u8]) -> bool {
    match f.call {
        1 => checked_is(answer, bilqarush::check_image(image)),
        2 => view_range_is(
            answer,
            bilqarush::compacted_effective_range(image, f.x, f.y),
        ),
        3 => listing(answer, image, f.x, out),
        _ => false,
    }
}
