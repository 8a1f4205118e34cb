// The core of every rounding here.
ghost use Rattle.std.specs.Prelude.{◌≡◌, ◌^◌, ◌<◌, ◌≤◌};
ghost use Rattle.std.specs.Float.Ieee.Nearest.{closest};

// m over 2^places, to the nearest whole number, a tie to the even one. The kept bits, the half bit and the rest are taken in one
// go: half of 2^places less one, and one more where the number kept is odd, carry over exactly where it goes up.
pub(crate) fn round_whole(m: u64, places: u64) -> u64
    requires { (m < 2 ^ 63) × (1 ≤ places) × (places < 64) }
    ensures { result ≡ closest m (2 ^ places) }
{
    let half = 1u64 << (places - 1);
    let odd = (m >> places) % 2;
    (m + (half - 1) + odd) >> places
}
