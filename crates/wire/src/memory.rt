// Bytes put into lent memory.
ghost use Rattle.std.specs.Prelude.{◌≡◌};
ghost use Rattle.wire.specs.Lent.{put_at};

// Puts all of `src` into `out` from index `at` on. Where there is no room for all of it, nothing is put.
#[tactic(auto, using(crate::proofs::Lent::copied, crate::proofs::Lent::put_fits, crate::proofs::Lent::put_none))]
pub fn put(out: &mut [u8], at: usize, src: &[u8])
    ensures { out.new ≡ put_at out.old at src.now }
{
    if at <= out.len() && src.len() <= out.len() - at {
        out[at..at + src.len()].copy_from_slice(src);
    }
}
