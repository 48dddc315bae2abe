// The blocks of an index, a number and a key each; and anchors, a key and a number each.
ghost use Rattle.std.specs.Prelude.{◌≤◌, length, drop};
ghost use Rattle.records.specs.Layouts.{block, anchor};
ghost use Rattle.records.specs.Spans.{BlockFound, AnchorFound};

use format::KeyRead;

// A block's offset, where its first key stands, and the place past it.
#[derive(Clone, Copy)]
pub enum BlockRead {
    At {
        offset: u64,
        start: usize,
        len: usize,
        next: usize,
    },
    Stop(u8),
}

// The block at a place.
#[tactic(auto, using(crate::proofs::BlockExits::block_exits))]
pub fn block_at(s: &[u8], at: usize) -> BlockRead
    requires { at ≤ length s.now }
    ensures { BlockFound s.now (block.read (drop at s.now)) result }
{
    if s.len() - at < 8 {
        return BlockRead::Stop(1);
    }
    let offset = format::number_there(s, at, 8);
    match format::key_at(s, at + 8) {
        KeyRead::Stop(n) => BlockRead::Stop(n),
        KeyRead::At { start, len, next } => BlockRead::At {
            offset,
            start,
            len,
            next,
        },
    }
}

// Where an anchor's key stands, its bytes, and the place past it.
#[derive(Clone, Copy)]
pub enum AnchorRead {
    At {
        start: usize,
        len: usize,
        bytes: u64,
        next: usize,
    },
    Stop(u8),
}

// The anchor at a place.
#[tactic(auto, using(crate::proofs::BlockExits::anchor_exits))]
pub fn anchor_at(s: &[u8], at: usize) -> AnchorRead
    requires { at ≤ length s.now }
    ensures { AnchorFound s.now (anchor.read (drop at s.now)) result }
{
    match format::key_at(s, at) {
        KeyRead::Stop(n) => AnchorRead::Stop(n),
        KeyRead::At { start, len, next } => {
            if s.len() - next < 8 {
                return AnchorRead::Stop(1);
            }
            let bytes = format::number_there(s, next, 8);
            AnchorRead::At {
                start,
                len,
                bytes,
                next: next + 8,
            }
        }
    }
}
