// Records with a head of 20 bytes, and the buffers that they make piece by piece.
ghost use Rattle.std.specs.Prelude.{◌≡◌, ◌+◌, take, OnOk, OnErr};

use crate::{buffer, input};

// A record's head: a call, two numbers, and how many bytes follow.
#[derive(Clone, Copy)]
pub struct Fields {
    pub call: u8,
    pub x: usize,
    pub y: usize,
    pub length: usize,
}

// The length of a head.
pub const HEAD: usize = 20;

pub fn fields_of(head: &[u8]) -> Fields {
    Fields {
        call: input::byte_at(head, 0),
        x: input::word_at(head, 1),
        y: input::word_at(head, 9),
        length: input::long_at(head, 17),
    }
}

// A buffer that records make piece by piece, and how many bytes it holds. A piece that cannot be, or in which the input ends, is
// refused with how many bytes of the record are left over.
#[derive(Drop)]
pub struct Held<const N: usize> {
    pub bytes: [u8; N],
    pub length: usize,
}

impl<const N: usize> Held<N> {
    pub fn new() -> Held<N>
        ensures { result.length ≡ 0 }
    {
        Held {
            bytes: [0; N],
            length: 0,
        }
    }

    pub fn front(&self) -> &[u8]
        ensures { result.now ≡ take self.now.length self.now.bytes }
    {
        buffer::front(&self.bytes, self.length)
    }

    // Keeps the first bytes of those held and reads others after them.
    pub fn read(&mut self, kept: usize, length: usize) -> Result<(), usize>
        ensures lengthened { OnOk result (self.new.length ≡ kept + length) }
        ensures kept_length { OnErr result (self.new.length ≡ self.old.length) }
    {
        if self.length < kept {
            return Err(HEAD);
        }
        let Some(rest) = self.bytes.get_mut(kept..) else {
            return Err(HEAD);
        };
        let Some(piece) = rest.get_mut(..length) else {
            return Err(HEAD);
        };
        let got = io::read_full(0, piece);
        if got < length {
            return Err(HEAD + got);
        }
        self.length = kept + length;
        Ok(())
    }

    // Extends those held by bytes that repeat the ones so far before them.
    pub fn repeat(&mut self, length: usize, before: usize) -> Result<(), usize>
        ensures lengthened { OnOk result (self.new.length ≡ length) }
        ensures kept { OnErr result (self.new ≡ self.old) }
    {
        if self.length < before || N < length {
            return Err(HEAD);
        }
        for i in self.length..length {
            self.bytes[i] = self.bytes[i - before];
        }
        self.length = length;
        Ok(())
    }
}
