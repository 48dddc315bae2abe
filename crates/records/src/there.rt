// Runs, views, tables and blocks that are known to be there: what was read once is read again without a test. Other crates
// read those of an image by the reader.
ghost use Rattle.std.specs.Prelude.{◌≡◌, ◌≤◌, ◌+◌, ◌/◌, length, drop, T, eqb};
ghost use Rattle.format.specs.Got.{is_got};
ghost use Rattle.records.specs.Form.{read_many};
ghost use Rattle.records.specs.Layouts.{table, view, image, block};
ghost use Rattle.records.specs.Spans.{last_if, run_head};
ghost use Rattle.records.specs.There.{RunsThere, RunThere, LastThere, TableThere, ViewKnown, BlockThere, Past};

use crate::reader::view_there;
use crate::tables::TableSpan;
use crate::views::ViewSpan;
use comparable_range::Kind;
use format::{BoundSpan, KeySpan};

// A run's id, how many views it has, and the place of the first.
#[derive(Clone, Copy)]
pub struct RunSpan {
    pub id: u64,
    pub views: usize,
    pub first: usize,
}

// How many runs the image at a place has. The first stands a byte after it.
#[tactic(auto, using(crate::proofs::ThereExits::known_count_exits))]
pub fn known_count(s: &[u8], at: usize) -> usize
    requires { T (is_got (image.read (drop at s.now))) }
    ensures { RunsThere (drop at s.now) (image.read (drop at s.now)) result }
{
    format::number_there(s, at, 1) as usize
}

// The head of the run at a place.
#[tactic(auto, using(crate::proofs::ThereExits::known_run_exits))]
pub fn known_run(s: &[u8], at: usize) -> RunSpan
    requires { T (is_got (run_head.read (drop at s.now))) }
    ensures { RunThere s.now (run_head.read (drop at s.now)) result }
{
    let id = format::number_there(s, at, 4);
    let word = format::number_there(s, at + 4, 2);
    RunSpan {
        id,
        views: (word / 16) as usize,
        first: at + 6,
    }
}

// Whether a byte's flag is set.
fn is_set(b: u8) -> bool
    ensures { result ≡ eqb (b / 128) 1 }
{
    b / 128 == 1
}

// The last key, if the flag says that there is one.
#[tactic(auto, unfolding(crate::specs::Spans::last_if, crate::specs::Form::read_if))]
fn last_there(flagged: bool, s: &[u8], at: usize) -> KeySpan
    requires fact_1 { at ≤ length s.now }
    requires fact_2 { T (is_got (last_if flagged (drop at s.now))) }
    ensures { LastThere s.now flagged (last_if flagged (drop at s.now)) result }
{
    if flagged {
        format::key_there(s, at)
    } else {
        KeySpan { at, len: 0 }
    }
}

// The table at a place.
#[tactic(auto, using(crate::proofs::ThereExits::table_there_exits))]
pub fn table_there(s: &[u8], at: usize) -> TableSpan
    requires { T (is_got (table.read (drop at s.now))) }
    ensures { TableThere s.now (table.read (drop at s.now)) result }
{
    let index_offset = format::number_there(s, at + 16, 8);
    let index_len = format::number_there(s, at + 24, 8);
    let filter_offset = format::number_there(s, at + 32, 8);
    let flagged = is_set(s[at + 40]);
    let first = format::key_there(s, at + 41);
    let last = last_there(flagged, s, first.at + first.len);
    TableSpan {
        id: at,
        index_offset,
        index_len,
        filter_offset,
        first_at: first.at,
        first_len: first.len,
        flagged,
        last_at: last.at,
        last_len: last.len,
        past: last.at + last.len,
    }
}

// The view at a place, and its table.
#[tactic(auto, using(crate::proofs::ThereExits::known_view_exits))]
pub fn known_view(s: &[u8], at: usize) -> ViewSpan
    requires { T (is_got (view.read (drop at s.now))) }
    ensures { ViewKnown s.now at result }
{
    let table = table_there(s, at + 16);
    let range = table.past + 1;
    if is_set(s[table.past]) {
        let head = s[range];
        let start = format::bound_there(format::start_kind(head), s, range + 1);
        let end = format::bound_there(format::end_kind(head), s, start.at + start.len);
        ViewSpan {
            id: at,
            table,
            shown: true,
            start,
            end,
            past: end.at + end.len,
        }
    } else {
        let none = BoundSpan {
            kind: Kind::Unbounded,
            at: range,
            len: 0,
        };
        ViewSpan {
            id: at,
            table,
            shown: false,
            start: none,
            end: none,
            past: range,
        }
    }
}

// The place past n views.
#[tactic(auto, using(crate::proofs::Pasts::view_walk))]
pub fn views_end(s: &[u8], from: usize, n: usize) -> usize
    requires fact_1 { from ≤ length s.now }
    requires fact_2 { T (is_got (read_many view.read n (drop from s.now))) }
    ensures { Past s.now (read_many view.read n (drop from s.now)) result }
{
    let mut at = from;
    for _ in 0..n {
        at = view_there(s, at).past;
    }
    at
}

// A block's offset, the place of its first key's field, and the place past it.
#[derive(Clone, Copy)]
pub struct BlockSpan {
    pub offset: u64,
    pub key: usize,
    pub past: usize,
}

// The block at a place.
#[tactic(auto, using(crate::proofs::ThereExits::block_there_exits))]
pub fn block_there(s: &[u8], at: usize) -> BlockSpan
    requires { T (is_got (block.read (drop at s.now))) }
    ensures { BlockThere s.now (block.read (drop at s.now)) result }
{
    let offset = format::number_there(s, at, 8);
    let key = at + 8;
    let first = format::key_there(s, key);
    BlockSpan {
        offset,
        key,
        past: first.at + first.len,
    }
}

// The place past n blocks. Their offsets are not read.
#[tactic(auto, using(crate::proofs::Pasts::block_walk))]
pub fn blocks_past(s: &[u8], from: usize, n: usize) -> usize
    requires fact_1 { from ≤ length s.now }
    requires fact_2 { T (is_got (read_many block.read n (drop from s.now))) }
    ensures { Past s.now (read_many block.read n (drop from s.now)) result }
{
    let mut at = from;
    for _ in 0..n {
        let first = format::key_there(s, at + 8);
        at = first.at + first.len;
    }
    at
}
