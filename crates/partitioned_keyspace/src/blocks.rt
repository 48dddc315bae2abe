// An index read in one pass: whether its first keys do not descend, and what they say of two keys.
ghost use Rattle.std.specs.Prelude.{◌≡◌, ◌≤◌, ◌<◌, ◌+◌, ◌^◌, ◌&&◌, length, drop};
ghost use Rattle.key.specs.Order.{key_at_most, is_less};
ghost use Rattle.format.specs.Whole.{ended, whole};
ghost use Rattle.records.specs.Form.{read_many};
ghost use Rattle.records.specs.Layouts.{block, index};
ghost use Rattle.partitioned_keyspace.specs.KeyPoints.{nothing_seen, key_span, with_block, reading_of, points_in};

use crate::point::{KeyPoint, grown, led};
use comparable_range::Kind;
use format::BoundSpan;
use records::BlockRead;
use std::cmp::Ordering;

#[derive(Clone, Copy)]
pub struct IndexPoints {
    pub partitions: usize,
    pub start: KeyPoint,
    pub end: KeyPoint,
    pub ascends: bool,
}

#[derive(Clone, Copy)]
pub enum Reading {
    At(IndexPoints),
    Stop(u8),
}

// Whether first keys still do not descend with one more.
fn still_ascends(so_far: bool, before: &[u8], first: &[u8]) -> bool
    ensures { result ≡ (so_far && key_at_most before.now first.now) }
{
    so_far && key::cmp(before, first).is_le()
}

// Whether a first key of this order to the start is below the end, as far as the start tells.
fn below_start(ordered: bool, o: Ordering) -> bool
    ensures { result ≡ (ordered && is_less o) }
{
    ordered && o.is_lt()
}

// With one more block, whose first key comes after another. A first key below the start is below an end that is not below
// the start, which ordered says.
fn with_block<'a>(
    x: IndexPoints,
    before: &'a [u8],
    first: &'a [u8],
    start: &'a [u8],
    end: &'a [u8],
    ordered: bool,
) -> IndexPoints
    requires fact_1 { x.partitions + 1 < 2 ^ 64 }
    requires fact_2 { ordered ≡ key_at_most start.now end.now }
    ensures { result ≡ with_block x before.now first.now start.now end.now }
{
    let n = x.partitions;
    let o = led(x.start, n, first, start, false);
    let u = led(x.end, n, first, end, below_start(ordered, o));
    IndexPoints {
        partitions: n + 1,
        start: grown(x.start, n, o),
        end: grown(x.end, n, u),
        ascends: still_ascends(x.ascends, before, first),
    }
}

// Before the first block.
fn nothing_seen() -> IndexPoints
    ensures { result ≡ nothing_seen }
{
    let none = KeyPoint {
        below: 0,
        at_most: 0,
    };
    IndexPoints {
        partitions: 0,
        start: none,
        end: none,
        ascends: true,
    }
}

// A key, by where it stands.
fn key_span(at: usize, len: usize) -> BoundSpan
    ensures { result ≡ key_span at len }
{
    BoundSpan {
        kind: Kind::Included,
        at,
        len,
    }
}

// As many blocks as n, which nothing follows. The empty key is least, so it may stand before the first.
fn blocks_read<'a>(s: &'a [u8], from: usize, n: usize, start: &'a [u8], end: &'a [u8]) -> Reading
    requires { from ≤ length s.now }
    ensures { reading_of result ≡ points_in start.now end.now (ended (read_many block.read n (drop from s.now))) }
{
    let ordered = key::cmp(start, end).is_le();
    let mut x = nothing_seen();
    let mut before = key_span(from, 0);
    let mut at = from;
    for _ in 0..n {
        match records::block_at(s, at) {
            BlockRead::Stop(k) => {
                return Reading::Stop(k);
            }
            BlockRead::At {
                offset: _,
                start: place,
                len,
                next,
            } => {
                let first = key_span(place, len);
                x = with_block(
                    x,
                    format::key_of(s, before),
                    format::key_of(s, first),
                    start,
                    end,
                    ordered,
                );
                before = first;
                at = next;
            }
        }
    }
    if at < s.len() {
        return Reading::Stop(1);
    }
    Reading::At(x)
}

// The index that is the whole of a buffer. Its count has no ceiling: the bytes that are there limit it.
pub fn index_read<'a>(s: &'a [u8], start: &'a [u8], end: &'a [u8]) -> Reading
    ensures { reading_of result ≡ points_in start.now end.now (whole index.read s.now) }
{
    if 65536 < s.len() {
        return Reading::Stop(3);
    }
    if s.len() < 2 {
        return Reading::Stop(1);
    }
    let n = format::number_there(s, 0, 2);
    blocks_read(s, 2, n as usize, start, end)
}
