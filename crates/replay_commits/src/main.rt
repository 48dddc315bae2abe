// Replays recorded commits. A record of standard input changes the image, the job, the id supply or the answer, or it asks
// for a commit of them, which is made here. What the commit answers and every byte of the lent buffer are held to the
// recorded answer: new images are the Rust's, stops are those of a second reading of document 01. In a list the image is
// from then on the one that the commit wrote here, if it wrote one. A line for the commits alone, for those in lists and
// for each stop says how many agree.
#![tactic(auto)]

mod commits;

use replay::piece::{self, Fields, HEAD, Held};
use replay::tally::{Counts, print_number};
use replay::{input, records};

// What the records make, and what they came to: 0 counts commits alone, 1 those in lists.
#[derive(Drop)]
struct Replay {
    image: Held<131072>,
    job: Held<131072>,
    // A commit can draw for 1,024 views that are each cut into 65.
    ids: Held<1048576>,
    answer: Held<131072>,
    out: [u8; 131072],
    counts: Counts<2>,
}

impl Replay {
    // One record, once its head is read.
    fn record(&mut self, f: Fields) -> Result<(), usize> {
        match f.call {
            0 => self.image.read(f.x, f.length),
            1 => self.job.read(f.x, f.length),
            2 => self.ids.read(f.x, f.length),
            3 => self.answer.read(f.x, f.length),
            4 => self.image.repeat(f.x, f.y),
            5 => self.job.repeat(f.x, f.y),
            6 => self.ids.repeat(f.x, f.y),
            7 => self.answer.repeat(f.x, f.y),
            8 => self.commit(f.x, f.y == 1),
            _ => Err(HEAD),
        }
    }

    // A commit of what the buffers hold, into a buffer of just the record's room.
    fn commit(&mut self, room: usize, listed: bool) -> Result<(), usize> {
        let Replay {
            image,
            job,
            ids,
            answer,
            out,
            counts,
        } = self;
        let Some(out) = out.get_mut(..room) else {
            return Err(HEAD);
        };
        let made = commits::commit(image.front(), job.front(), ids.front(), answer.front(), out);
        let stop = input::byte_at(&answer.bytes, 0);
        counts.count(u8::from(listed), stop, made.agreed);
        if listed {
            let held = image.length;
            image.length = commits::hand_on(&mut image.bytes, held, out, made.written);
        }
        Ok(())
    }
}

fn print_counts(counts: &Counts<2>) {
    counts.calls[0].print(b"commits alone");
    counts.calls[1].print(b"commits in lists");
    counts.print_stops(&[1, 2, 3, 4, 5, 6, 7, 8, 9, 10, 11, 12, 14, 15, 16]);
}

fn main() {
    let mut replay = Replay {
        image: Held::new(),
        job: Held::new(),
        ids: Held::new(),
        answer: Held::new(),
        out: [0; 131072],
        counts: Counts::new(),
    };
    let left = records::replay_all::<HEAD, _>(|head| replay.record(piece::fields_of(head)));
    print_counts(&replay.counts);
    print_number(b"left over", left as u64);
}
