// Writing into a lent buffer at a place. The caller has measured: what is put fits.
ghost use Rattle.std.specs.Prelude.{◌≡◌, ◌++◌, ◌∷◌, [], ◌≤◌, ◌<◌, ◌+◌, length};
ghost use Rattle.base.specs.Splice.{splice};
ghost use Rattle.format.specs.Number.{write_number};
ghost use Rattle.format.specs.Key.{write_key};

#[tactic(auto, using(base::specs::Splice::set_is_splice))]
pub fn put_byte(out: &mut [u8], at: usize, b: u8)
    requires { at < length out.old }
    ensures { out.new ≡ splice out.old at (b ∷ []) }
{
    out[at] = b;
}

// A byte at a time: of `copy_from_slice` the compiler makes a call of memmove, and the archive needs memcpy and memset alone.
#[tactic(auto, using(crate::proofs::Puts::pastes))]
pub fn put(out: &mut [u8], at: usize, src: &[u8])
    requires { at + length src.now ≤ length out.old }
    ensures { out.new ≡ splice out.old at src.now }
{
    for i in 0..src.len() {
        out[at + i] = src[i];
    }
}

// The number v in n bytes, the last one first.
#[tactic(auto, using(crate::proofs::Puts::counts))]
pub fn put_number(out: &mut [u8], at: usize, v: u64, n: usize)
    requires { at + n ≤ length out.old }
    ensures { out.new ≡ splice out.old at (write_number n v) }
{
    let mut rest = v;
    for i in (0..n).rev() {
        out[at + i] = (rest % 256) as u8;
        rest /= 256;
    }
}

// The key that is p and then q; answers the place past it.
#[tactic(auto, using(crate::proofs::Puts::key_puts))]
pub fn put_key(out: &mut [u8], at: usize, p: &[u8], q: &[u8]) -> usize
    requires fact_1 { length p.now + length q.now ≤ 1024 }
    requires fact_2 { at + length (write_key (p.now ++ q.now)) ≤ length out.old }
    ensures value { result ≡ at + length (write_key (p.now ++ q.now)) }
    ensures out_after { out.new ≡ splice out.old at (write_key (p.now ++ q.now)) }
{
    put_number(out, at, (p.len() + q.len()) as u64, 2);
    put(out, at + 2, p);
    put(out, at + 2 + p.len(), q);
    at + 2 + p.len() + q.len()
}
