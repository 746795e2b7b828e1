ghost use Rattle.std.specs.Prelude.{◌≡◌, ◌<◌, ◌++◌, [], length, take, drop};
ghost use Rattle.ms_outside.specs.Memory.{read_count};

/// Copies as many first bytes of `left` as the buffer has room for to its front, and says how many.
#[tactic(auto, using(crate::proofs::Copied::take_copied, crate::proofs::Copied::split_copied))]
pub(crate) fn copy_front(left: &[u8], buf: &mut [u8]) -> usize
    ensures count { result ≡ read_count left.now (length buf.old) }
    ensures front { buf.new ≡ take result left.now ++ drop result buf.old }
    ensures given { left.now ≡ take result buf.new ++ drop result left.now }
    ensures end { result ≡ 0 → 0 < length buf.new → left.now ≡ [] }
{
    let count = buf.len().min(left.len());
    buf[..count].copy_from_slice(&left[..count]);
    count
}
