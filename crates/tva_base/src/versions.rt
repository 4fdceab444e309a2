// The versions of shims, and the rights that the shims of each can carry.
ghost use Rattle.std.specs.Prelude.{◌≡◌, ◌≤◌, ◌<◌, ◌+◌, ◌^◌, Some, IfSome, true};
ghost use Rattle.tva_base.specs.declared.packet.Rights.{Rights};
ghost use Rattle.tva_base.specs.Versions.{AreRights, AreSomeRights, IsVersion, carries, rights_number, rights_size, seconds_max, units_max, version_for};

use crate::packet::Rights;

/// The most units of 1,024 bytes in rights of that version: 10 bits in version 1, and 20 in version 2.
pub fn units_max(version: u8) -> u32
    ensures { result ≡ units_max version }
{
    if version == 1 { 1_023 } else { 1_048_575 }
}

/// The most seconds in rights of that version: 6 bits in version 1, and 7 in version 2.
pub fn seconds_max(version: u8) -> u8
    ensures { result ≡ seconds_max version }
{
    if version == 1 { 63 } else { 127 }
}

/// The bytes of rights in a shim of that version.
pub fn rights_size(version: u8) -> u32
    ensures bytes { result ≡ rights_size version }
    ensures some { (2 ≤ result) × (result ≤ 4) }
{
    if version == 1 { 2 } else { 4 }
}

// How much a unit counts in the number of rights: one more than the most seconds.
fn weight(version: u8) -> u32
    ensures seconds { result ≡ seconds_max version + 1 }
    ensures some { (1 ≤ result) × (result ≤ 256) }
{
    u32::from(seconds_max(version)) + 1
}

/// Rights as one number, as they stand in a shim of that version: the seconds are its lowest bits, and
/// the units those above them.
pub fn rights_number(version: u8, rights: Rights) -> u32
    requires { AreRights version rights }
    ensures number { result ≡ rights_number version rights }
    ensures fits { result < 256 ^ rights_size version }
{
    rights.n * weight(version) + u32::from(rights.t)
}

/// The rights whose number that is in a shim of that version, and none exactly where there are none.
pub fn rights_in(version: u8, number: u32) -> Option<Rights>
    ensures found { IfSome result (λ r. AreRights version r × (number ≡ rights_number version r)) }
    ensures only { (r : Rights) → AreRights version r → number ≡ rights_number version r → result ≡ Some r }
{
    let weight = weight(version);
    let rights = Rights {
        n: number / weight,
        t: (number % weight) as u8,
    };
    if carries(version, rights) {
        Some(rights)
    } else {
        None
    }
}

/// Whether a shim of that version can carry the rights.
pub fn carries(version: u8, rights: Rights) -> bool
    ensures value { result ≡ carries version rights }
    ensures fits { result ≡ true → AreRights version rights }
{
    let units = rights.n <= units_max(version);
    let seconds = rights.t <= seconds_max(version);
    units && seconds
}

/// The least version whose shims can carry the rights.
pub fn version_for(rights: Rights) -> u8
    requires { AreSomeRights rights }
    ensures version { result ≡ version_for rights }
    ensures known { IsVersion result }
    ensures fits { AreRights result rights }
{
    if carries(1, rights) { 1 } else { 2 }
}
