// The records of an input, one after the other.
ghost use Rattle.std.specs.Prelude.{◌<◌, ◌^◌};

// The next head, or how many bytes are left of an input that ends before it does.
fn next_head<const HEAD: usize>() -> Result<[u8; HEAD], usize> {
    let mut head = [0; HEAD];
    let got = io::read_full(0, &mut head);
    if got < HEAD { Err(got) } else { Ok(head) }
}

// Hands the head of each record on, until one is refused with how many bytes of it are left over, or the input ends. Answers how
// many are left over. A proved loop has to end, and nothing says that the input does, so this one ends after more records than any
// input has.
pub fn replay_all<const HEAD: usize, F: FnMut(&[u8]) -> Result<(), usize>>(mut replay: F) -> usize
    requires callable { F.IsAlwaysCallable replay }
    requires fits { HEAD < 2 ^ 63 }
{
    for _ in 0..u64::MAX {
        let head = match next_head::<HEAD>() {
            Ok(head) => head,
            Err(left) => return left,
        };
        if let Err(left) = replay(&head) {
            return left;
        }
    }
    0
}
