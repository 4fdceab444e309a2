// The sums of a router.
ghost use Rattle.std.specs.Prelude.{◌≡◌, ◌+◌, ◌≤◌, ◌^◌, [], ◌∷◌, ◌++◌, ℕ, List, length, map, OnOk, IfOk};
ghost use Rattle.tva_base.specs.Plan.{AreRising};
ghost use Rattle.tva_base.specs.declared.event.Event.{Event};
ghost use Rattle.tva_base.specs.declared.packet.Time.{Time};
ghost use Rattle.tva_report.specs.declared.charged.Charged.{Charged};
ghost use Rattle.tva_report.specs.Charged.{charges_in};
ghost use Rattle.tva_report.specs.Sums.{limit_of, pair_of, sums_of};
ghost use Rattle.tva_report.specs.Table.{HasRoom, IsSound, StandsFor};

use crate::charged::{boot_among, charged_in};
use crate::pairs::{Pair, Table, worst};
use std::alloc::{AllocError, Global};
use tva_base::{Event, Grant, Time};

/// How many pairs of a boot and a grant were charged, how many charges there were, the sum of their
/// lengths in bytes, and the pair that came nearest to twice its units: its grant and its bytes. Among
/// equals it is the one charged first.
#[derive(Clone, Copy, Debug, PartialEq, Eq)]
pub struct Sums {
    pub grants: u64,
    pub charges: u64,
    pub bytes: u64,
    pub worst: Option<(Grant, u64)>,
}

/// Twice the units of a grant, in bytes.
pub fn limit(grant: Grant) -> u64
    ensures { result ≡ limit_of grant }
{
    2 * 1024 * u64::from(grant.rights.n)
}

/// The sums of a router, from its events and its restarts with the master that it then has. The restarts'
/// times rise. The error is want of memory.
pub fn router_sums(
    alloc: Global,
    events: &[Event],
    restarts: &[(Time, [u8; 32])],
) -> Result<Sums, AllocError>
    requires few { length events.now ≤ 4000000 }
    requires rising { AreRising (map (λ c. c.0.0) restarts.now) }
    ensures { IfOk result (λ sums. sums ≡ sums_of restarts.now (charges_in events.now)) }
{
    let mut tally = Tally::new(alloc);
    for event in events {
        tally.tell(restarts, event)?;
    }
    Ok(tally.sums())
}

/// What was added up so far of the charges that a router's events tell, for whoever is told the events as
/// they come and keeps none. It is as large as the pairs that were charged.
#[derive(Drop)]
pub struct Tally {
    table: Table,
    charges: u64,
    bytes: u64,
}

impl Tally {
    /// Nothing was charged yet.
    pub fn new(alloc: Global) -> Tally
        ensures sound { IsSound result }
        ensures stands { (restarts : List (Time × List ℕ)) → StandsFor result restarts [] }
    {
        Tally {
            table: Table::new(alloc),
            charges: 0,
            bytes: 0,
        }
    }

    /// One more event of the router. The restarts' times rise, and are the same at each event. The error is
    /// want of memory, and then nothing is said of the tally any more.
    pub fn tell(&mut self, restarts: &[(Time, [u8; 32])], event: &Event) -> Result<(), AllocError>
        requires rising { AreRising (map (λ c. c.0.0) restarts.now) }
        requires sound { IsSound self.old }
        requires few { HasRoom self.old 1 }
        ensures sound { OnOk result (IsSound self.new) }
        ensures few { (more : ℕ) → HasRoom self.old (more + 1) → OnOk result (HasRoom self.new more) }
        ensures stands { (events : List Event) → StandsFor self.old restarts.now (charges_in events) → OnOk result (StandsFor self.new restarts.now (charges_in (events ++ event.now ∷ []))) }
    {
        match charged_in(event) {
            Some(charged) => {
                let boot = boot_among(restarts, charged.time);
                let pair = Pair {
                    boot,
                    grant: charged.grant,
                };
                self.add(pair, charged.length)
            }
            None => Ok(()),
        }
    }

    // One more charge of the pair.
    fn add(&mut self, pair: Pair, length: u32) -> Result<(), AllocError>
        requires sound { IsSound self.old }
        requires few { HasRoom self.old 1 }
        ensures sound { OnOk result (IsSound self.new) }
        ensures counted { OnOk result (self.new.charges ≡ self.old.charges + 1) }
        ensures stands { (restarts : List (Time × List ℕ)) (cs : List Charged) (c : Charged) → pair_of restarts c ≡ pair → c.length ≡ length → StandsFor self.old restarts cs → OnOk result (StandsFor self.new restarts (cs ++ c ∷ [])) }
    {
        self.table.add(pair, length)?;
        self.charges += 1;
        self.bytes += u64::from(length);
        Ok(())
    }

    /// The sums of these charges.
    pub fn sums(&self) -> Sums
        ensures { (restarts : List (Time × List ℕ)) (cs : List Charged) → StandsFor self.now restarts cs → result ≡ sums_of restarts cs }
    {
        let pairs = self.table.sums();
        Sums {
            grants: pairs.len() as u64,
            charges: self.charges,
            bytes: self.bytes,
            worst: worst(pairs).map(|pair| (pair.0.grant, pair.1)),
        }
    }
}
