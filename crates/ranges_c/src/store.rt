// Numbers as bytes, low byte first.
ghost use Rattle.std.specs.Prelude.{◌≡◌, ◌*◌, ◌≤◌, ◌++◌, length, drop};
ghost use Rattle.ranges_c.specs.Numbers.{in_bytes};

// Eight bytes for each number, from the slice's beginning; the bytes behind them stay.
#[tactic(auto, using(crate::proofs::Bytes::in_bytes_none, crate::proofs::Bytes::store_more))]
pub(crate) fn store(out: &mut [u8], numbers: &[u64])
    requires { 8 * length numbers.now ≤ length out.old }
    ensures { out.new ≡ in_bytes numbers.now ++ drop (8 * length numbers.now) out.old }
{
    // an index: no invariant can name what `out` has become under `chunks_exact_mut`
    for (i, n) in numbers.iter().enumerate() {
        out[8 * i..8 * i + 8].copy_from_slice(&n.to_le_bytes());
    }
}
