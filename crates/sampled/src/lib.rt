// The anchors of a table: its blocks in groups, each with its first key and its bytes; those whose key a range holds.
#![tactic(auto)]

ghost use Rattle.std.specs.Prelude.{◌≡◌, ◌≤◌, ◌<◌, ◌+◌, ◌^◌, T, length, drop, set};
ghost use Rattle.format.specs.Got.{is_got};
ghost use Rattle.format.specs.Key.{read_key};
ghost use Rattle.format.specs.Range.{BoundInside};
ghost use Rattle.records.specs.Form.{read_many};
ghost use Rattle.records.specs.Found.{values_of};
ghost use Rattle.records.specs.Layouts.{block, index};
ghost use Rattle.manifest.specs.Checks.{total};
ghost use Rattle.manifest.specs.Faults.{least};
ghost use Rattle.subcompaction.specs.Anchors as spec;
ghost use Rattle.subcompaction.specs.Tables.{HeldThen};
ghost use Rattle.sampled.specs.Groups.{GroupThere, row_added, RowIf, held_there, sampled_there};

use format::span;
use format::span::RangeSpan;
use key_rows::key_part;

// What is sampled: the index at a place, at most so many anchors, and where the table's data end.
#[derive(Clone, Copy)]
pub struct Sampling {
    pub at: usize,
    pub most: usize,
    pub data_end: u64,
}

// How many anchors were found, and the total of their bytes, or 2^63 once that is reached.
#[derive(Clone, Copy)]
pub struct Kept {
    pub rows: usize,
    pub total: u64,
}

// A group of blocks: the place of its first key's field, its bytes, the place past it, and how many blocks are left after it.
#[derive(Clone, Copy)]
pub struct GroupSpan {
    pub key: usize,
    pub bytes: u64,
    pub past: usize,
    pub left: usize,
}

// How many blocks a group has, rounded up, so that there are at most so many groups. 0 acts as 1.
#[tactic(auto, using(crate::proofs::GroupExits::stride_is))]
fn stride(most: usize, blocks: usize) -> usize
    ensures { result ≡ spec.stride most blocks }
{
    blocks.div_ceil(most.max(1))
}

// Where the blocks that are left begin: with the first of them, or where the data end.
#[tactic(auto, using(crate::proofs::GroupExits::beginning_exits))]
fn beginning(s: &[u8], at: usize, left: usize, data_end: u64) -> u64
    requires fact_1 { at ≤ length s.now }
    requires fact_2 { T (is_got (read_many block.read left (drop at s.now))) }
    ensures { result ≡ spec.beginning data_end (values_of (read_many block.read left (drop at s.now))) }
{
    if left == 0 {
        data_end
    } else {
        format::number_there(s, at, 8)
    }
}

// The group at a place, of as many blocks as the stride or as are left.
#[tactic(auto, using(crate::proofs::GroupExits::group_exits))]
fn group_there(s: &[u8], at: usize, left: usize, stride: usize, data_end: u64) -> GroupSpan
    requires fact_1 { at ≤ length s.now }
    requires fact_2 { T (is_got (read_many block.read left (drop at s.now))) }
    requires fact_3 { 0 < left }
    requires fact_4 { 0 < stride }
    ensures { GroupThere s.now at left stride data_end result }
{
    let n = left.min(stride);
    let first = records::block_there(s, at);
    let past = records::blocks_past(s, first.past, n - 1);
    let end = beginning(s, past, left - n, data_end);
    GroupSpan {
        key: first.key,
        bytes: end.saturating_sub(first.offset),
        past,
        left: left - n,
    }
}

// One row more: stored if the tables have a row left, counted always.
fn with_row(keys: &mut [usize], bytes: &mut [u64], key: usize, size: u64, kept: Kept) -> Kept
    requires fact_1 { length bytes.old ≡ length keys.old }
    requires fact_2 { kept.total ≤ 2 ^ 63 }
    requires fact_3 { kept.rows + 1 < 2 ^ 64 }
    ensures value { result ≡ row_added size kept }
    ensures keys_after { keys.new ≡ set keys.old kept.rows key }
    ensures bytes_after { bytes.new ≡ set bytes.old kept.rows size }
{
    if kept.rows < keys.len() {
        keys[kept.rows] = key;
        bytes[kept.rows] = size;
    }
    Kept {
        rows: kept.rows + 1,
        total: manifest::added(kept.total, size),
    }
}

// Whether a range holds the key that stands at a place.
#[tactic(auto, using(crate::proofs::SampleExits::key_asked))]
fn key_held(s: &[u8], at: usize, within: &[u8], range: RangeSpan) -> bool
    requires fact_1 { T (is_got (read_key (drop at s.now))) }
    requires fact_2 { BoundInside within.now range.start }
    requires fact_3 { BoundInside within.now range.end }
    ensures { result ≡ held_there s.now at within.now range }
{
    span::holds(within, range, key_part(s, at))
}

// The row of a group, if the range holds its key.
#[tactic(auto, using(crate::proofs::SampleExits::with_group_exits))]
fn with_group(
    s: &[u8],
    g: GroupSpan,
    within: &[u8],
    range: RangeSpan,
    keys: &mut [usize],
    bytes: &mut [u64],
    kept: Kept,
) -> Kept
    requires t_1 { T (is_got (read_key (drop g.key s.now))) }
    requires t_2 { BoundInside within.now range.start }
    requires t_3 { BoundInside within.now range.end }
    requires bytes_len_1 { length bytes.old ≡ length keys.old }
    requires bytes_len_2 { kept.total ≤ 2 ^ 63 }
    requires bytes_len_3 { kept.rows + 1 < 2 ^ 64 }
    ensures { RowIf (held_there s.now g.key within.now range) g kept keys.old bytes.old result keys.new bytes.new }
{
    if key_held(s, g.key, within, range) {
        with_row(keys, bytes, g.key, g.bytes, kept)
    } else {
        kept
    }
}

// The anchors of the index at a place, after those that the tables hold. Rows past the tables' end are counted, not stored.
#[tactic(auto, using(crate::proofs::SampleExits::sample_exits))]
pub fn sample(
    s: &[u8],
    ask: Sampling,
    within: &[u8],
    range: RangeSpan,
    keys: &mut [usize],
    bytes: &mut [u64],
    kept: Kept,
) -> Kept
    requires t_1 { T (is_got (index.read (drop ask.at s.now))) }
    requires t_2 { BoundInside within.now range.start }
    requires t_3 { BoundInside within.now range.end }
    requires bytes_len_1 { length bytes.old ≡ length keys.old }
    requires bytes_len_2 { kept.rows ≤ ask.at }
    requires bytes_len_3 { kept.total ≤ 2 ^ 63 }
    requires bytes_len_4 { ask.most ≤ 4096 }
    ensures held_then { HeldThen s.now keys.old bytes.old kept.rows keys.new bytes.new result.rows
        (sampled_there s.now ask within.now range) }
    ensures total_value { result.total ≡ least (kept.total + total (sampled_there s.now ask within.now range)) (2 ^ 63) }
    ensures keys_len_unchanged { length keys.new ≡ length keys.old }
    ensures bytes_len_unchanged { length bytes.new ≡ length bytes.old }
{
    let blocks = format::number_there(s, ask.at, 2) as usize;
    let step = stride(ask.most, blocks);
    let mut found = kept;
    let mut at = ask.at + 2;
    let mut left = blocks;
    while 0 < left {
        let g = group_there(s, at, left, step, ask.data_end);
        found = with_group(s, g, within, range, keys, bytes, found);
        at = g.past;
        left = g.left;
    }
    found
}
