// The packets that a router authorised, as its events tell them.
ghost use Rattle.std.specs.Prelude.{◌≡◌, map};
ghost use Rattle.tva_base.specs.Plan.{AreRising};
ghost use Rattle.tva_report.specs.Charged.{boot_among, charged_in};

use tva_base::{Event, Grant, Happened, Time};

/// An authorised packet: when it came, by which grant, and its length in bytes.
#[derive(Clone, Copy, Debug, PartialEq, Eq)]
pub struct Charged {
    pub time: Time,
    pub grant: Grant,
    pub length: u32,
}

/// What an event says was charged: something where it is an arrival that was authorised.
pub fn charged_in(event: &Event) -> Option<Charged>
    ensures { result ≡ charged_in event.now }
{
    match event.happened {
        Happened::Arrived { length, fate, .. } => match fate.charge {
            Some(grant) => Some(Charged {
                time: event.time,
                grant,
                length,
            }),
            None => None,
        },
        _ => None,
    }
}

/// The boot at a time: how many of these restarts, whose times rise, have come.
pub fn boot_among(restarts: &[(Time, [u8; 32])], now: Time) -> usize
    requires { AreRising (map (λ c. c.0.0) restarts.now) }
    ensures { result ≡ boot_among restarts.now now.0 }
{
    restarts.partition_point(|change| change.0.0 <= now.0)
}
