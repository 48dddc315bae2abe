// The total of anchors' bytes. Check 7 refuses one of 2^63 or more.
ghost use Rattle.std.specs.Prelude.{◌≡◌, ◌+◌, ◌^◌, ◌≤◌};
ghost use Rattle.manifest.specs.Faults.{least};

// A total of so many is refused.
const TOO_MANY_BYTES: u64 = 1 << 63;

// A total with some bytes more, or 2^63 once that is reached: no sum above it is made, so none wraps.
#[tactic(auto, using(crate::proofs::AnchorExits::total_held))]
pub fn added(total: u64, bytes: u64) -> u64
    requires { total ≤ 2 ^ 63 }
    ensures { result ≡ least (total + bytes) (2 ^ 63) }
{
    total + bytes.min(TOO_MANY_BYTES - total)
}
