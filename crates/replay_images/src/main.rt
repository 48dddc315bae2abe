// Replays recorded answers to the calls on images. A record of standard input changes the image, or it is a call on it with
// the answer that the Rust and a second reading of document 01 have; the call is made here. A line for each call and for
// each stop says how many of its answers were the recorded bytes, whole.
#![tactic(auto)]

mod calls;

use replay::piece::{self, Fields, HEAD, Held};
use replay::tally::{Counts, print_number};
use replay::{input, records};

// What the records make, and what they came to. The calls are 1 to 3.
#[derive(Drop)]
struct Replay {
    image: Held<131072>,
    // A listing takes less than two bytes for a byte of its image.
    answer: Held<131072>,
    out: [u8; 131072],
    counts: Counts<4>,
}

impl Replay {
    // One record, once its head is read.
    fn record(&mut self, f: Fields) -> Result<(), usize> {
        match f.call {
            0 => self.image.read(f.x, f.length),
            4 => self.image.repeat(f.x, f.y),
            _ => self.call(f),
        }
    }

    // A call on the image.
    fn call(&mut self, f: Fields) -> Result<(), usize> {
        self.answer.read(0, f.length)?;
        let agreed = calls::agrees(f, self.image.front(), self.answer.front(), &mut self.out);
        let stop = input::byte_at(&self.answer.bytes, 0);
        self.counts.count(f.call, stop, agreed);
        Ok(())
    }
}

fn print_counts(counts: &Counts<4>) {
    counts.calls[1].print(b"check_image");
    counts.calls[2].print(b"compacted_effective_range");
    counts.calls[3].print(b"list");
    counts.print_stops(&[1, 2, 3, 4, 5, 6, 7, 9, 16]);
    print_number(b"unknown", counts.calls[0].records);
}

fn main() {
    let mut replay = Replay {
        image: Held::new(),
        answer: Held::new(),
        out: [0; 131072],
        counts: Counts::new(),
    };
    let left = records::replay_all::<HEAD, _>(|head| replay.record(piece::fields_of(head)));
    print_counts(&replay.counts);
    print_number(b"left over", left as u64);
}
