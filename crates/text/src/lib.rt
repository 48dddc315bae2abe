// Numbers and bytes as ASCII text, put into a lent buffer at a place. The caller has measured: what is put fits.
#![tactic(auto)]

ghost use Rattle.std.specs.Prelude.{◌≡◌, ◌≤◌, ◌<◌, ◌+◌, length};
ghost use Rattle.base.specs.Splice.{splice};
ghost use Rattle.text.specs.Text.{glyph, decimal, hex};

// The ASCII code of a digit.
fn digit(d: u8) -> u8
    requires { d < 16 }
    ensures { result ≡ glyph d }
{
    if d < 10 { b'0' + d } else { b'a' + (d - 10) }
}

// The number of digits of n. By division, since std has no `ilog10`.
pub fn decimal_len(n: u64) -> usize
    ensures { result ≡ length (decimal n) }
{
    let mut rest = n;
    let mut len = 1;
    while 10 <= rest {
        rest /= 10;
        len += 1;
    }
    len
}

// The digits of n, the last one first, as division gives them; answers the place past them.
#[tactic(auto, using(crate::proofs::Puts::counts))]
pub fn put_decimal(out: &mut [u8], at: usize, n: u64) -> usize
    requires { at + length (decimal n) ≤ length out.old }
    ensures value { result ≡ at + length (decimal n) }
    ensures out_after { out.new ≡ splice out.old at (decimal n) }
{
    let end = at + decimal_len(n);
    let mut rest = n;
    for i in (at..end).rev() {
        out[i] = digit((rest % 10) as u8);
        rest /= 10;
    }
    end
}

// Two digits for each byte of src; answers the place past them.
#[tactic(auto, using(crate::proofs::Puts::spells))]
pub fn put_hex(out: &mut [u8], at: usize, src: &[u8]) -> usize
    requires { at + length (hex src.now) ≤ length out.old }
    ensures value { result ≡ at + length (hex src.now) }
    ensures out_after { out.new ≡ splice out.old at (hex src.now) }
{
    let mut to = at;
    for &b in src {
        out[to] = digit(b / 16);
        out[to + 1] = digit(b % 16);
        to += 2;
    }
    to
}
