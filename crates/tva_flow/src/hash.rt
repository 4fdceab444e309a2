// The hash by which the entry of a flow is found.
ghost use Rattle.std.specs.Prelude.{◌≡◌, ◌<◌};
ghost use Rattle.tva_flow.specs.Hash.{bucket_of};

use tva_base::Flow;

/// A key of the hash by which a cache finds the entry of a flow. Which flows share a bucket depends
/// on it, so where senders choose addresses it is to be drawn at random, or secret. So it can't be printed.
#[derive(Clone, Copy, PartialEq, Eq)]
pub struct HashKey {
    pub src: u64,
    pub dst: u64,
    pub plus: u64,
}

impl HashKey {
    /// The key of caches that are given none: the fractions of three square roots.
    pub(crate) const FIXED: HashKey = HashKey {
        src: 0x6a09_e667_f3bc_c909,
        dst: 0xbb67_ae85_84ca_a73b,
        plus: 0x3c6e_f372_fe94_f82b,
    };
}

/// Half of 64 bits.
const HALF: u128 = 1 << 32;

/// The bucket of a flow: the upper half of a sum of products in 64 bits (multiply-shift of Dietzfelbinger,
/// 1996), so under a key that is drawn at random two flows share one about as seldom as by chance.
pub(crate) fn bucket_of(key: &HashKey, buckets: u32, flow: &Flow) -> u32
    requires { 0 < buckets }
    ensures value { result ≡ bucket_of buckets key.now flow.now }
    ensures within { result < buckets }
{
    let sum = u128::from(key.src) * u128::from(flow.src.0)
        + u128::from(key.dst) * u128::from(flow.dst.0)
        + u128::from(key.plus);
    let high = (sum / HALF % HALF) as u32;
    high % buckets
}
