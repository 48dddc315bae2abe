// Replays recorded answers to the calls that plan and to those on durable intervals. A record of standard input changes one of three
// buffers, the two that a call reads and the answer, or it is a call on them, which is made here. What the call answers and every
// byte of the lent buffer are held to the recorded answer: anchors, plans and intervals are the Rust's, stops are those of a second
// reading of document 01. A line for each call and for each stop says how many agree.
#![tactic(auto)]

mod calls;

use replay::piece::{self, Fields, HEAD, Held};
use replay::tally::{Counts, print_number};
use replay::{input, records};

// What the records make, and what they came to. The calls are 1 to 3, 10 and 11.
#[derive(Drop)]
struct Replay {
    first: Held<131072>,
    second: Held<131072>,
    // 64 ranges of the longest keys take some 127,000 bytes.
    answer: Held<131072>,
    out: [u8; 131072],
    counts: Counts<12>,
}

impl Replay {
    // One record, once its head is read.
    fn record(&mut self, f: Fields) -> Result<(), usize> {
        match f.call {
            4 => self.first.read(f.x, f.length),
            5 => self.second.read(f.x, f.length),
            6 => self.answer.read(f.x, f.length),
            7 => self.first.repeat(f.x, f.y),
            8 => self.second.repeat(f.x, f.y),
            9 => self.answer.repeat(f.x, f.y),
            _ => self.call(f),
        }
    }

    // A call, into a buffer of just the room that follows the head.
    fn call(&mut self, f: Fields) -> Result<(), usize> {
        let mut room = [0; 8];
        let got = io::read_full(0, &mut room);
        if got < 8 {
            return Err(HEAD + got);
        }
        let Some(out) = self.out.get_mut(..input::word_at(&room, 0)) else {
            return Err(HEAD + 8);
        };
        let answer = self.answer.front();
        let agreed = calls::agrees(f, self.first.front(), self.second.front(), answer, out);
        let stop = input::byte_at(&self.answer.bytes, 0);
        self.counts.count(f.call, stop, agreed);
        Ok(())
    }
}

fn print_counts(counts: &Counts<12>) {
    counts.calls[1].print(b"sample_anchors");
    counts.calls[2].print(b"select_boundaries");
    counts.calls[3].print(b"plan_subcompaction_ranges");
    counts.calls[10].print(b"from_compaction");
    counts.calls[11].print(b"subtract_from");
    counts.print_stops(&[1, 2, 3, 4, 5, 6, 7, 8, 10, 11, 15, 16]);
    print_number(b"unknown", counts.calls[0].records);
}

fn main() {
    let mut replay = Replay {
        first: Held::new(),
        second: Held::new(),
        answer: Held::new(),
        out: [0; 131072],
        counts: Counts::new(),
    };
    let left = records::replay_all::<HEAD, _>(|head| replay.record(piece::fields_of(head)));
    print_counts(&replay.counts);
    print_number(b"left over", left as u64);
}
