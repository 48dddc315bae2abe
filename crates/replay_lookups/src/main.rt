// Replays recorded answers to the lookups and to the calls on visible sizes. A record of standard input changes the buffer that is
// held, an index or an image, or it is a call on it with the answer that the Rust and a second reading of document 01 have;
// the call is made here. A line for each call and for each stop says how many of its answers were the recorded bytes, whole.
#![tactic(auto)]

mod calls;
mod sizes;

use replay::piece::{self, Fields, HEAD, Held};
use replay::tally::{Counts, print_number};
use replay::{input, records};

// What the records make, and what they came to. The calls are 1 to 10 and 12 to 14.
#[derive(Drop)]
struct Replay {
    buffer: Held<131072>,
    body: Held<8192>,
    counts: Counts<15>,
}

// A body: a mark, the lengths of a key and of a range, these two, and the answer.
const ASKED: usize = 5;

fn answer_place(body: &[u8]) -> usize {
    ASKED + input::number_at(body, 1) + input::number_at(body, 3)
}

// Takes a body apart and makes the call.
fn body_agrees<'a>(f: Fields, held: &'a [u8], body: &'a [u8]) -> bool {
    let range = ASKED + input::number_at(body, 1);
    let answer = range + input::number_at(body, 3);
    if body.len() < answer {
        return false;
    }
    calls::agrees(
        f,
        held,
        input::byte_at(body, 0),
        &body[ASKED..range],
        &body[range..answer],
        &body[answer..],
    )
}

impl Replay {
    // One record, once its head is read.
    fn record(&mut self, f: Fields) -> Result<(), usize> {
        match f.call {
            0 => self.buffer.read(f.x, f.length),
            11 => self.buffer.repeat(f.x, f.y),
            _ => self.call(f),
        }
    }

    // A call on the buffer.
    fn call(&mut self, f: Fields) -> Result<(), usize> {
        self.body.read(0, f.length)?;
        let agreed = body_agrees(f, self.buffer.front(), self.body.front());
        let stop = input::byte_at(&self.body.bytes, answer_place(&self.body.bytes));
        self.counts.count(f.call, stop, agreed);
        Ok(())
    }
}

fn print_calls(counts: &Counts<15>) {
    counts.calls[1].print(b"partition_point");
    counts.calls[2].print(b"first_partition_including_key");
    counts.calls[3].print(b"first_partition_including_or_after_key");
    counts.calls[4].print(b"last_partition_including_key");
    counts.calls[5].print(b"partitions_covering_range");
    counts.calls[6].print(b"table_idx_covering_range");
    counts.calls[7].print(b"overlaps_range");
    counts.calls[8].print(b"compacted_intersection");
    counts.calls[9].print(b"calculate_view_range");
    counts.calls[10].print(b"intersects_range");
    counts.calls[12].print(b"visible_fraction");
    counts.calls[13].print(b"estimate_visible_size");
    counts.calls[14].print(b"estimate_run_visible_size");
}

fn main() {
    let mut replay = Replay {
        buffer: Held::new(),
        body: Held::new(),
        counts: Counts::new(),
    };
    let left = records::replay_all::<HEAD, _>(|head| replay.record(piece::fields_of(head)));
    print_calls(&replay.counts);
    replay.counts.print_stops(&[1, 2, 3, 4, 5, 6, 7, 9]);
    print_number(b"unknown", replay.counts.calls[0].records);
    print_number(b"left over", left as u64);
}
