// The lookups of bilqarush, each made with a record's arguments and held to its answer.
use crate::sizes;
use bilqarush::{Counted, Covered, Found, Joined, Test, Tested};
use format::BoundSpan;
use format::span::Supplied;
use replay::piece::Fields;
use replay::{answer, kind};

// What is left of an answer after its front and a number of 64 bits.
pub fn after_word<'a>(answer: &'a [u8], front: &[u8], n: u64) -> Option<&'a [u8]> {
    answer::word(answer.strip_prefix(front)?, n)
}

fn counted_is(answer: &[u8], c: Counted) -> bool {
    match c {
        Counted::Stop(n) => answer::is_stop(answer, n),
        Counted::Is(n) => answer::is_end(after_word(answer, &[0], n as u64)),
    }
}

fn found_is(answer: &[u8], f: Found) -> bool {
    match f {
        Found::Stop(n) => answer::is_stop(answer, n),
        Found::Nothing => answer::is_value(answer, 0),
        Found::At(partition) => answer::is_end(after_word(answer, &[0, 1], partition as u64)),
    }
}

fn after_places(answer: &[u8], start: usize, end: usize) -> Option<&[u8]> {
    answer::word(after_word(answer, &[0], start as u64)?, end as u64)
}

fn covered_is(answer: &[u8], c: Covered) -> bool {
    match c {
        Covered::Stop(n) => answer::is_stop(answer, n),
        Covered::Places(start, end) => answer::is_end(after_places(answer, start, end)),
    }
}

fn tested_is(answer: &[u8], t: Tested) -> bool {
    match t {
        Tested::Stop(n) => answer::is_stop(answer, n),
        Tested::Is(is) => answer::is_value(answer, u8::from(is)),
    }
}

// What is left after a bound. The image is the first side, the asked range the second. An unbounded bound is recorded with zeros
// for its key's place and length.
fn after_supplied(answer: &[u8], x: Supplied) -> Option<&[u8]> {
    let BoundSpan { kind, at, len } = x.bound;
    let front = [kind::number(kind), kind::side_number(x.side)];
    let (at, len) = if comparable_range::keyed(kind) {
        (at, len)
    } else {
        (0, 0)
    };
    answer::word(after_word(answer, &front, at as u64)?, len as u64)
}

fn after_range(answer: &[u8], start: Supplied, end: Supplied) -> Option<&[u8]> {
    after_supplied(after_supplied(answer.strip_prefix(&[0, 1])?, start)?, end)
}

fn joined_is(answer: &[u8], j: Joined) -> bool {
    match j {
        Joined::Stop(n) => answer::is_stop(answer, n),
        Joined::Nothing => answer::is_value(answer, 0),
        Joined::Range(start, end) => answer::is_end(after_range(answer, start, end)),
    }
}

// 0 is "below"; the records have 1 for the other test.
fn test_of(mark: u8) -> Test {
    if mark == 0 {
        Test::Below
    } else {
        Test::AtOrBelow
    }
}

// The calls with a key, on the index.
fn key_agrees<'a>(call: u8, index: &'a [u8], mark: u8, key: &'a [u8], answer: &[u8]) -> bool {
    match call {
        1 => counted_is(
            answer,
            bilqarush::partition_point(index, test_of(mark), key),
        ),
        2 => found_is(answer, bilqarush::first_partition_including_key(index, key)),
        3 => counted_is(
            answer,
            bilqarush::first_partition_including_or_after_key(index, key),
        ),
        4 => found_is(answer, bilqarush::last_partition_including_key(index, key)),
        _ => false,
    }
}

// The calls with a range: 5 on the index, the others on the image.
fn range_agrees<'a>(f: Fields, held: &'a [u8], range: &'a [u8], answer: &[u8]) -> bool {
    match f.call {
        5 => covered_is(answer, bilqarush::partitions_covering_range(held, range)),
        6 => covered_is(
            answer,
            bilqarush::table_idx_covering_range(held, f.x, range),
        ),
        7 => tested_is(answer, bilqarush::overlaps_range(held, f.x, range)),
        8 => joined_is(
            answer,
            bilqarush::compacted_intersection(held, f.x, f.y, range),
        ),
        9 => joined_is(
            answer,
            bilqarush::calculate_view_range(held, f.x, f.y, range),
        ),
        _ => false,
    }
}

// Whether a record's call answers what it recorded. An unknown call never does.
pub fn agrees<'a>(
    f: Fields,
    held: &'a [u8],
    mark: u8,
    key: &'a [u8],
    range: &'a [u8],
    answer: &[u8],
) -> bool {
    match f.call {
        1..=4 => key_agrees(f.call, held, mark, key, answer),
        5..=9 => range_agrees(f, held, range, answer),
        10 => tested_is(
            answer,
            bilqarush::intersects_range(held, f.x, f.y, mark, key, range),
        ),
        12..=14 => sizes::agrees(f, held, answer),
        _ => false,
    }
}
