// Tables: an id, three numbers, a flag and one or two keys.
ghost use Rattle.std.specs.Prelude.{◌≤◌, ◌+◌, length, drop};
ghost use Rattle.records.specs.Layouts.{table};
ghost use Rattle.records.specs.Spans.{LastFound, TableFound, last_if};

use crate::fields::{FlagRead, flag_of};
use format::KeyRead;

// Where a table's fields stand: id is the place of its id, past the place past it. Without a last key, flagged is false and
// the last span is empty.
#[derive(Clone, Copy)]
pub struct TableSpan {
    pub id: usize,
    pub index_offset: u64,
    pub index_len: u64,
    pub filter_offset: u64,
    pub first_at: usize,
    pub first_len: usize,
    pub flagged: bool,
    pub last_at: usize,
    pub last_len: usize,
    pub past: usize,
}

#[derive(Clone, Copy)]
pub enum TableRead {
    At(TableSpan),
    Stop(u8),
}

// The last key, if the flag says that there is one.
#[tactic(auto, unfolding(crate::specs::Spans::last_if, crate::specs::Form::read_if))]
fn last_at(flagged: bool, s: &[u8], at: usize) -> KeyRead
    requires { at ≤ length s.now }
    ensures { LastFound s.now flagged (last_if flagged (drop at s.now)) result }
{
    if flagged {
        format::key_at(s, at)
    } else {
        KeyRead::At {
            start: at,
            len: 0,
            next: at,
        }
    }
}

// The table at a place. The numbers stand in the first 41 bytes, whose only stop is that they are not there.
#[tactic(auto, using(crate::proofs::TableExits::table_exits))]
pub fn table_at(s: &[u8], at: usize) -> TableRead
    requires { at ≤ length s.now }
    ensures { TableFound s.now (table.read (drop at s.now)) result }
{
    if s.len() - at < 41 {
        return TableRead::Stop(1);
    }
    match flag_of(s[at + 40]) {
        FlagRead::Stop(n) => TableRead::Stop(n),
        FlagRead::Is(flagged) => match format::key_at(s, at + 41) {
            KeyRead::Stop(n) => TableRead::Stop(n),
            KeyRead::At {
                start: first_at,
                len: first_len,
                next,
            } => match last_at(flagged, s, next) {
                KeyRead::Stop(n) => TableRead::Stop(n),
                KeyRead::At {
                    start: last_at,
                    len: last_len,
                    next: past,
                } => {
                    let index_offset = format::number_there(s, at + 16, 8);
                    let index_len = format::number_there(s, at + 24, 8);
                    let filter_offset = format::number_there(s, at + 32, 8);
                    TableRead::At(TableSpan {
                        id: at,
                        index_offset,
                        index_len,
                        filter_offset,
                        first_at,
                        first_len,
                        flagged,
                        last_at,
                        last_len,
                        past,
                    })
                }
            },
        },
    }
}
