// The formulas of secrets, pre-capabilities and capabilities, over SHA-256 (FIPS 180-4).
ghost use Rattle.std.specs.Prelude.{◌≡◌, ◌≤◌, ◌++◌, ℕ, List};
ghost use Rattle.sha2.specs.Hashers.{Holds256};
ghost use Rattle.tva_base.specs.Versions.{AreSomeRights};
ghost use Rattle.tva_caps.specs.Formula.{capability_of, hashed_units, precap_of, precap_under, secret_of, stamp_at, stamp_of, stamped};

use byteorder::{BigEndian, ByteOrder};
use sha2::{Digest, Sha256};
use tva_base::{Flow, Rights, carries};

/// The seconds of an epoch, in which a secret stays the same.
pub const EPOCH: u64 = 128;

// The secret of an epoch.
#[tactic(auto, unfolding(crate::specs::Formula::secret_of))]
pub fn secret_at(master: &[u8; 32], epoch: u64) -> [u8; 32]
    ensures { result ≡ secret_of master.now epoch }
{
    let mut number = [0; 8];
    BigEndian::write_u64(&mut number, epoch);
    let mut hasher = Sha256::new();
    hasher.update(master);
    hasher.update(number);
    hasher.finalize()
}

// The time stamp of what is minted in a router second.
pub fn stamp_in(second: u64) -> u8
    ensures { result ≡ stamp_at second }
{
    (second % 256) as u8
}

// The time stamp that a value shows.
pub fn stamp_shown(value: u64) -> u8
    ensures { result ≡ stamp_of value }
{
    (value >> 56) as u8
}

// The value of a stamp and the digest of what was hashed.
#[tactic(auto, unfolding(crate::specs::Formula::stamped))]
fn stamped_value(stamp: u8, hasher: Sha256) -> u64
    ensures { (message : List ℕ) → Holds256 hasher message → result ≡ stamped stamp message }
{
    let digest = hasher.finalize();
    let mut value = [0; 8];
    value[0] = stamp;
    value[1..].copy_from_slice(&digest[..7]);
    BigEndian::read_u64(&value)
}

// The pre-capability of a flow in a router second, under a secret.
#[tactic(auto, unfolding(crate::specs::Formula::precap_under))]
pub fn precap_with(secret: &[u8; 32], second: u64, flow: Flow) -> u64
    ensures { result ≡ precap_under secret.now flow second }
{
    let stamp = stamp_in(second);
    let mut source = [0; 4];
    let mut destination = [0; 4];
    BigEndian::write_u32(&mut source, flow.src.0);
    BigEndian::write_u32(&mut destination, flow.dst.0);
    let mut hasher = Sha256::new();
    hasher.update(secret);
    hasher.update(source);
    hasher.update(destination);
    hasher.update([stamp]);
    stamped_value(stamp, hasher)
}

/// The pre-capability that a router with this master mints for the flow in that router second. Its
/// 8 bytes, the highest first, are the second modulo 256 and the first 7 of the SHA-256 digest of
/// the secret of the second's epoch (32 bytes), the source and the destination (4 each) and the
/// second modulo 256. A secret is the digest of the master (32 bytes) and the epoch (8).
#[tactic(auto, unfolding(crate::specs::Formula::precap_of))]
pub fn precap_at(master: [u8; 32], second: u64, flow: Flow) -> u64
    requires { second ≤ 2000000 }
    ensures { result ≡ precap_of master flow second }
{
    let secret = secret_at(&master, second / EPOCH);
    precap_with(&secret, second, flow)
}

/// The capability that a destination makes of a pre-capability, with the rights that it grants. Its
/// 8 bytes, the highest first, are the first of the pre-capability and the first 7 of the SHA-256
/// digest of the pre-capability (8 bytes), the units of 1,024 bytes and the seconds (1). The units
/// have 2 bytes where a shim of version 1 can carry the rights, and else 4 behind a byte 2.
#[tactic(auto, unfolding(crate::specs::Formula::capability_of))]
pub fn capability(precap: u64, rights: Rights) -> u64
    requires { AreSomeRights rights }
    ensures { result ≡ capability_of precap rights }
{
    let mut value = [0; 8];
    BigEndian::write_u64(&mut value, precap);
    let mut hasher = Sha256::new();
    hasher.update(value);
    hash_units(&mut hasher, rights);
    hasher.update([rights.t]);
    stamped_value(stamp_shown(precap), hasher)
}

// The units of rights, behind what was hashed.
fn hash_units(hasher: &mut Sha256, rights: Rights)
    ensures { (m : List ℕ) → Holds256 hasher.old m → Holds256 hasher.new (m ++ hashed_units rights) }
{
    if carries(1, rights) {
        let mut units = [0; 2];
        BigEndian::write_u16(&mut units, rights.n as u16);
        hasher.update(units);
    } else {
        let mut units = [2, 0, 0, 0, 0];
        BigEndian::write_u32(&mut units[1..], rights.n);
        hasher.update(units);
    }
}
