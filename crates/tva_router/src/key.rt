// The key by which a router's cache finds its flows.
ghost use Rattle.std.specs.Prelude.{◌≡◌};
ghost use Rattle.tva_router.specs.Key.{flow_key};

use byteorder::{BigEndian, ByteOrder};
use sha2::{Digest, Sha256};
use tva_flow::HashKey;

/// The first 24 bytes of the SHA-256 digest (FIPS 180-4) of the master and the word `flows`, as three
/// numbers, the highest byte first. Senders don't know the master, so they can't choose addresses whose
/// flows share a bucket. No secret of the router is a digest of these bytes.
#[tactic(auto, unfolding(crate::specs::Key::flow_key))]
pub fn flow_key(master: &[u8; 32]) -> HashKey
    ensures { result ≡ flow_key master.now }
{
    let mut hasher = Sha256::new();
    hasher.update(master);
    hasher.update(b"flows");
    let digest = hasher.finalize();
    HashKey {
        src: BigEndian::read_u64(&digest[..8]),
        dst: BigEndian::read_u64(&digest[8..16]),
        plus: BigEndian::read_u64(&digest[16..24]),
    }
}
