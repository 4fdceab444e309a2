// The numbers that all layers share. Definitions write them out, so that each stands where it is read.
ghost use Rattle.std.specs.Prelude.{◌≡◌};
ghost use Rattle.tva_base.specs.declared.constants.TheConstants.{LENGTH_MAX, SECOND, TIME_MAX, UNIT};

/// The greatest time of an event and the greatest clock offset, in nanoseconds.
pub const TIME_MAX: u64 = 1_000_000_000_000_000;

/// The nanoseconds of a second.
pub const SECOND: u64 = 1_000_000_000;

/// The bytes of a unit, in which rights count.
pub const UNIT: u64 = 1024;

/// The greatest length of a packet, in bytes.
pub const LENGTH_MAX: u32 = 2048;

/// The numbers that all layers share are those that the definitions write out.
pub fn constants_hold()
    ensures latest_time { TIME_MAX ≡ 1000000000000000 }
    ensures second { SECOND ≡ 1000000000 }
    ensures unit { UNIT ≡ 1024 }
    ensures longest { LENGTH_MAX ≡ 2048 }
{}
