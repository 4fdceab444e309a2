// Addresses and prefixes.
ghost use Rattle.std.specs.Prelude.{◌≡◌, ◌≤◌, ◌%◌, ◌^◌, ◌-◌};
ghost use Rattle.tva_base.specs.Addresses.{kept, holds};

/// An address of 32 bits.
#[derive(Clone, Copy, Debug, PartialEq, Eq, PartialOrd, Ord)]
pub struct Address(pub u32);

/// The addresses that begin with the first `bits` bits of an address, whose other bits are zero.
#[derive(Clone, Copy, Debug, PartialEq, Eq)]
pub struct Prefix {
    pub address: Address,
    pub bits: u8,
}

impl Prefix {
    /// Whether an address begins with the prefix: whether it is the prefix's address once its bits
    /// past the prefix's length are taken as zero.
    pub fn holds(self, address: Address) -> bool
        ensures { result ≡ holds self address }
    {
        cut(address, self.bits) == self.address
    }
}

// The address with zeros past the first bits.
#[tactic(auto, using(crate::proofs::Prefixes::multiple))]
pub(crate) fn cut(address: Address, bits: u8) -> Address
    ensures kept { result ≡ kept address bits }
    ensures zeros { result.0 % 2 ^ (32 - bits) ≡ 0 }
{
    let size = size_past(bits);
    Address((u64::from(address.0) / size * size) as u32)
}

// How many addresses begin with the same first bits.
fn size_past(bits: u8) -> u64
    ensures size { result ≡ 2 ^ (32 - bits) }
    ensures some { 1 ≤ result }
{
    1 << 32u8.saturating_sub(bits)
}
