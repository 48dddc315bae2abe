// A recorded answer, compared piece by piece with what a call answers here. Each piece is taken off the front, and what is left of
// the answer is handed on: `None` where the piece does not stand there.
ghost use Rattle.std.specs.Prelude.{◌≡◌, true, ◌∷◌, []};

// Whether an answer is a stop and nothing more. No stop has the number 0.
pub fn is_stop(answer: &[u8], n: u8) -> bool
    ensures { result ≡ true → answer.now ≡ n ∷ [] }
{
    n != 0 && answer == [n].as_slice()
}

// Whether an answer is no stop, and one byte.
pub fn is_value(answer: &[u8], value: u8) -> bool
    ensures { (result ≡ true → answer.now ≡ 0 ∷ value ∷ []) × (answer.now ≡ 0 ∷ value ∷ [] → result ≡ true) }
{
    answer == [0, value].as_slice()
}

// Takes off a number of 16 bits. A greater one differs.
pub fn number(answer: &[u8], n: usize) -> Option<&[u8]> {
    let n = u16::try_from(n).ok()?;
    answer.strip_prefix(&n.to_be_bytes())
}

// Takes off a number of 64 bits.
pub fn word(answer: &[u8], n: u64) -> Option<&[u8]> {
    answer.strip_prefix(&n.to_be_bytes())
}

// Takes off the part of a slice that a call's answer names. One that the slice does not have differs.
pub fn part<'a>(answer: &'a [u8], s: &[u8], at: usize, len: usize) -> Option<&'a [u8]> {
    answer.strip_prefix(s.get(at..)?.get(..len)?)
}

// The same as a key of an image: its 16-bit length stands before it.
pub fn key_image<'a>(answer: &'a [u8], s: &[u8], at: usize, len: usize) -> Option<&'a [u8]> {
    part(number(answer, len)?, s, at, len)
}

// Whether all of an answer agreed.
pub fn is_end(answer: Option<&[u8]>) -> bool {
    answer.is_some_and(|rest| rest.is_empty())
}
