// Lookups of keys and ranges among partitions, each of which says its first key: the blocks of an index image.
#![tactic(auto)]

mod blocks;
mod point;
mod ranges;

ghost use Rattle.std.specs.Prelude.{◌≡◌};
ghost use Rattle.base.specs.Outcome.{answer, and_then};
ghost use Rattle.partitioned_keyspace.specs.Asked.{index_and_key};
ghost use Rattle.partitioned_keyspace.specs.Calls.{partition_point_outcome, first_partition_including_key_outcome};
ghost use Rattle.partitioned_keyspace.specs.Calls.{first_partition_including_or_after_key_outcome};
ghost use Rattle.partitioned_keyspace.specs.Calls.{last_partition_including_key_outcome, partitions_covering_range_outcome};
ghost use Rattle.partitioned_keyspace.specs.Calls.{count_of, found_of, covered_of};
ghost use Rattle.partitioned_keyspace.specs.KeyPoints.{point_of, pointed_of};

use crate::blocks::{Reading, index_read};
use crate::point::{Pointed, count_for, first_of, last_of, or_after};
use crate::ranges::covered_by;
use format::RangeRead;

// The tests of `partition_point`.
#[derive(Clone, Copy)]
pub enum Test {
    Below,
    AtOrBelow,
}

// A number of partitions, or the number of a stop.
#[derive(Clone, Copy)]
pub enum Counted {
    Is(usize),
    Stop(u8),
}

// The place of a partition, if there is one.
#[derive(Clone, Copy)]
pub enum Found {
    At(usize),
    Nothing,
    Stop(u8),
}

// The partitions from one place up to, without, another.
#[derive(Clone, Copy)]
pub enum Covered {
    Places(usize, usize),
    Stop(u8),
}

// What an index says of a key: its own stops 1 and 3 come before the key's, and 6 after it.
fn key_pointed<'a>(index: &'a [u8], key: &'a [u8]) -> Pointed
    ensures { pointed_of result ≡ and_then (index_and_key index.now key.now) (λ a. answer (point_of a.partitions a.key)) }
{
    match index_read(index, key, &key[..0]) {
        Reading::Stop(k) => Pointed::Stop(k),
        Reading::At(x) => {
            if 1024 < key.len() {
                return Pointed::Stop(3);
            }
            if x.ascends {
                let p = x.start;
                return Pointed::At(p);
            }
            Pointed::Stop(6)
        }
    }
}

// How many first keys, from the first on, satisfy a test.
pub fn partition_point<'a>(index: &'a [u8], test: Test, key: &'a [u8]) -> Counted
    ensures { count_of result ≡ partition_point_outcome index.now test key.now }
{
    match key_pointed(index, key) {
        Pointed::Stop(k) => Counted::Stop(k),
        Pointed::At(p) => Counted::Is(count_for(test, p)),
    }
}

// The first partition that may include a key.
pub fn first_partition_including_key<'a>(index: &'a [u8], key: &'a [u8]) -> Found
    ensures { found_of result ≡ first_partition_including_key_outcome index.now key.now }
{
    match key_pointed(index, key) {
        Pointed::Stop(k) => Found::Stop(k),
        Pointed::At(p) => first_of(p),
    }
}

// The first partition that may include a key at or after one.
pub fn first_partition_including_or_after_key<'a>(index: &'a [u8], key: &'a [u8]) -> Counted
    ensures { count_of result ≡ first_partition_including_or_after_key_outcome index.now key.now }
{
    match key_pointed(index, key) {
        Pointed::Stop(k) => Counted::Stop(k),
        Pointed::At(p) => Counted::Is(or_after(p)),
    }
}

// The last partition that may include a key.
pub fn last_partition_including_key<'a>(index: &'a [u8], key: &'a [u8]) -> Found
    ensures { found_of result ≡ last_partition_including_key_outcome index.now key.now }
{
    match key_pointed(index, key) {
        Pointed::Stop(k) => Found::Stop(k),
        Pointed::At(p) => last_of(p),
    }
}

// The partitions that may hold a key of a range. The range is read first, but the index's stops 1 and 3 come before its own.
pub fn partitions_covering_range<'a>(index: &'a [u8], range: &'a [u8]) -> Covered
    ensures { covered_of result ≡ partitions_covering_range_outcome index.now range.now }
{
    match format::range_whole(range) {
        RangeRead::At {
            start,
            end,
            next: _,
        } => covered_by(index, range, start, end),
        RangeRead::Stop(k) => match index_read(index, &range[..0], &range[..0]) {
            Reading::Stop(j) => Covered::Stop(j),
            Reading::At(_) => Covered::Stop(k),
        },
    }
}
