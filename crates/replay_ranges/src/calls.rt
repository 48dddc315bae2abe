// The calls of bilqarush, each made with a record's arguments and held to its answer.
use bilqarush::{Compared, Joined, Point, Tested};
use format::span::Supplied;
use format::{BoundSpan, span};
use replay::{answer, buffer, kind};

// What a record's head has beside the lengths.
#[derive(Clone, Copy)]
pub struct Fields {
    pub call: u8,
    pub x: u8,
    pub y: u8,
    pub z: u8,
    pub room: usize,
}

// The order plus one. No other number is an order, and 255 is in no record.
fn order_number(order: i8) -> u8 {
    match order {
        -1 => 0,
        0 => 1,
        1 => 2,
        _ => 255,
    }
}

fn compared_is(answer: &[u8], c: Compared) -> bool {
    match c {
        Compared::Stop(n) => answer::is_stop(answer, n),
        Compared::Order(order) => answer::is_value(answer, order_number(order)),
    }
}

fn tested_is(answer: &[u8], t: Tested) -> bool {
    match t {
        Tested::Stop(n) => answer::is_stop(answer, n),
        Tested::Is(is) => answer::is_value(answer, u8::from(is)),
    }
}

// What is left of an answer after a point's place and key.
fn after_point<'a>(answer: &'a [u8], range: &[u8], at: usize, len: usize) -> Option<&'a [u8]> {
    let key = answer::number(answer.strip_prefix(&[0, 1])?, at)?;
    answer::part(key, range, at, len)
}

fn point_is(answer: &[u8], range: &[u8], p: Point) -> bool {
    match p {
        Point::Stop(n) => answer::is_stop(answer, n),
        Point::Nothing => answer::is_value(answer, 0),
        Point::At(at, len) => answer::is_end(after_point(answer, range, at, len)),
    }
}

// The head byte of a range, by document 01 and not by what the library writes.
fn head_number(start: Supplied, end: Supplied) -> u8 {
    kind::number(start.bound.kind) * 64 + kind::number(end.bound.kind) * 16
}

// What is left after a bound's key, if it has one.
fn after_key<'a>(answer: &'a [u8], a: &[u8], b: &[u8], x: Supplied) -> Option<&'a [u8]> {
    let BoundSpan { kind, at, len } = x.bound;
    if comparable_range::keyed(kind) {
        answer::key_image(answer, span::slice_of(x.side, a, b), at, len)
    } else {
        Some(answer)
    }
}

// What is left after the place of a bound's key in the range that supplied it, if it has one.
fn after_place(answer: &[u8], x: Supplied) -> Option<&[u8]> {
    if comparable_range::keyed(x.bound.kind) {
        answer::number(answer, x.bound.at)
    } else {
        Some(answer)
    }
}

// What is left after a range: the sides and the head byte, the keys, and the keys' places.
fn after_range<'a>(
    answer: &'a [u8],
    a: &[u8],
    b: &[u8],
    start: Supplied,
    end: Supplied,
) -> Option<&'a [u8]> {
    let front = [
        0,
        1,
        kind::side_number(start.side),
        kind::side_number(end.side),
        head_number(start, end),
    ];
    let keys = after_key(answer.strip_prefix(&front)?, a, b, start)?;
    let places = after_place(after_key(keys, a, b, end)?, start)?;
    after_place(places, end)
}

fn joined_is(answer: &[u8], a: &[u8], b: &[u8], j: Joined) -> bool {
    match j {
        Joined::Stop(n) => answer::is_stop(answer, n),
        Joined::Nothing => answer::is_value(answer, 0),
        Joined::Range(start, end) => answer::is_end(after_range(answer, a, b, start, end)),
    }
}

// Whether a key is that of a bound, or empty where the bound has none.
fn key_is(key: &[u8], a: &[u8], b: &[u8], x: Supplied) -> bool {
    let BoundSpan { kind, at, len } = x.bound;
    if comparable_range::keyed(kind) {
        answer::is_end(answer::part(key, span::slice_of(x.side, a, b), at, len))
    } else {
        key.is_empty()
    }
}

// Whether a number is the one that is due, with no key.
fn no_key(stop: u8, key: &[u8], due: u8) -> bool {
    stop == due && key.is_empty()
}

// Whether the numbers and the keys of an intersection's bounds are those of what it answered.
fn keys_are(m: u8, start: &[u8], n: u8, end: &[u8], a: &[u8], b: &[u8], j: Joined) -> bool {
    match j {
        Joined::Stop(stop) => no_key(m, start, stop) && no_key(n, end, stop),
        Joined::Nothing => no_key(m, start, 0) && no_key(n, end, 0),
        Joined::Range(s, e) => m == 0 && key_is(start, a, b, s) && n == 0 && key_is(end, a, b, e),
    }
}

fn keys_agree<'a>(a: &'a [u8], b: &'a [u8], j: Joined) -> bool {
    let start = bilqarush::intersect_start_key(a, b);
    let end = bilqarush::intersect_end_key(a, b);
    keys_are(start.stop, start.key, end.stop, end.key, a, b, j)
}

fn intersect<'a>(answer: &[u8], a: &'a [u8], b: &'a [u8]) -> bool {
    let j = bilqarush::intersect(a, b);
    keys_agree(a, b, j) && joined_is(answer, a, b, j)
}

// The calls that write, in a buffer of just the record's room.
fn writing(answer: &[u8], f: Fields, a: &[u8], b: &[u8], out: &mut [u8]) -> bool {
    let Some(out) = out.get_mut(..f.room) else {
        return false;
    };
    buffer::fill(out);
    let w = if f.call == 6 {
        bilqarush::from_prefix(a, out)
    } else {
        bilqarush::from_prefix_and_subrange(a, b, out)
    };
    buffer::written_is(answer, out, w)
}

// Whether a record's call answers what it recorded. An unknown call never does.
pub fn agrees<'a>(f: Fields, a: &'a [u8], b: &'a [u8], answer: &[u8], out: &mut [u8]) -> bool {
    match f.call {
        1 => compared_is(answer, bilqarush::compare(a, b)),
        2 => compared_is(answer, bilqarush::cmp_bound(f.x, a, f.y, b, f.z == 1)),
        3 => tested_is(answer, bilqarush::non_empty(a)),
        4 => intersect(answer, a, b),
        5 => joined_is(answer, a, b, bilqarush::union(a, b)),
        6 | 7 => writing(answer, f, a, b, out),
        8 => point_is(answer, a, bilqarush::as_point(a)),
        9 => tested_is(answer, bilqarush::contains(a, b)),
        _ => false,
    }
}
