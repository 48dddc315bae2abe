// Records as they are read: bytes and big-endian numbers of a head, and bodies.
ghost use Rattle.std.specs.Prelude.{◌<◌};

// A byte, 0 past the end.
pub fn byte_at(s: &[u8], i: usize) -> u8 {
    s.get(i).copied().unwrap_or(0)
}

// A 16-bit number of a head.
pub fn number_at(s: &[u8], i: usize) -> usize
    requires { i < 256 }
    ensures { result < 65536 }
{
    usize::from(u16::from_be_bytes([byte_at(s, i), byte_at(s, i + 1)]))
}

// A 24-bit number of a head.
pub fn long_at(s: &[u8], i: usize) -> usize
    requires { i < 128 }
    ensures { result < 16777216 }
{
    usize::from(byte_at(s, i)) * 65536 + number_at(s, i + 1)
}

// A 64-bit number of a head.
pub fn word_at(s: &[u8], i: usize) -> usize
    requires { i < 64 }
{
    let mut bytes = [0; 8];
    for (k, b) in bytes.iter_mut().enumerate() {
        *b = byte_at(s, i + k);
    }
    u64::from_be_bytes(bytes) as usize
}

// Fills the front of a buffer from the input and answers how many bytes came.
pub fn read_front(body: &mut [u8], length: usize) -> usize {
    match body.get_mut(..length) {
        Some(front) => io::read_full(0, front),
        None => 0,
    }
}
