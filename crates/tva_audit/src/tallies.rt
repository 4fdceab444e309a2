// What each router let through, added up as the events of a run come.
ghost use Rattle.std.specs.Prelude.{◌≡◌, ◌+◌, ◌∷◌, ◌++◌, [], ℕ, List, All, IfOk, OnOk, length, map};
ghost use Rattle.tva_base.specs.Plan.{AreRising};
ghost use Rattle.tva_base.specs.declared.event.Event.{Event};
ghost use Rattle.tva_plan.specs.Valid.{IsConfig};
ghost use Rattle.tva_lines.specs.Lines.{HasEvent, HasNode};
ghost use Rattle.tva_node.specs.States.{restarts_in};
ghost use Rattle.tva_report.specs.Charged.{charges_in};
ghost use Rattle.tva_report.specs.Table.{StandsFor};
ghost use Rattle.tva_audit.specs.Sums.{sum_told};
ghost use Rattle.tva_audit.specs.Tallies.{AreReady, AreTallied, restarts_at, sums_among};

use crate::routers::{RouterSum, numbered};
use std::alloc::{AllocError, Global};
use tva_base::{Event, Time};
use tva_plan::{Config, NodePlan};
use tva_report::Tally;

/// A tally for each node of a configuration, to which nothing was told yet.
pub fn first_tallies(alloc: Global, config: &Config) -> Result<Vec<Tally>, AllocError>
    ensures { IfOk result (λ tallies. AreTallied config.now [] tallies.items) }
{
    let mut tallies = Vec::new(alloc);
    for _ in 0..config.nodes.len() {
        tallies.push(Tally::new(alloc))?;
    }
    Ok(tallies)
}

/// Tells each event to the tally of its node. The error is want of memory.
pub fn tell_each(config: &Config, events: &[Event], tallies: &mut [Tally]) -> Result<(), AllocError>
    requires config { IsConfig config.now }
    requires known { All (HasEvent config.now) events.now }
    requires ready { AreReady config.now (length events.now) tallies.old }
    ensures { (told : List Event) → AreTallied config.now told tallies.old → OnOk result (AreTallied config.now (told ++ events.now) tallies.new) }
{
    for event in events {
        tell_one(config, event, tallies)?;
    }
    Ok(())
}

// One more event.
fn tell_one(config: &Config, event: &Event, tallies: &mut [Tally]) -> Result<(), AllocError>
    requires config { IsConfig config.now }
    requires known { HasNode config.now event.now.node }
    requires ready { AreReady config.now 1 tallies.old }
    ensures ready { (more : ℕ) → AreReady config.now (more + 1) tallies.old → OnOk result (AreReady config.now more tallies.new) }
    ensures told { (told : List Event) → AreTallied config.now told tallies.old → OnOk result (AreTallied config.now (told ++ event.now ∷ []) tallies.new) }
{
    let restarts = restarts_at(config, event.node);
    let place = usize::from(event.node);
    tallies[place].tell(restarts, event)?;
    Ok(())
}

// The restarts of a node.
fn restarts_at(config: &Config, node: u16) -> &[(Time, [u8; 32])]
    requires config { IsConfig config.now }
    requires known { HasNode config.now node }
    ensures are { result.now ≡ restarts_at config.now node }
    ensures rising { AreRising (map (λ c. c.0.0) result.now) }
{
    match &config.nodes.as_slice()[usize::from(node)] {
        NodePlan::Router(plan) => plan.restarts.as_slice(),
        NodePlan::Host(_) => &[],
    }
}

/// The sums of the routers of a configuration, in their order. The error is want of memory.
pub fn sums_of(
    alloc: Global,
    config: &Config,
    tallies: &[Tally],
) -> Result<Vec<RouterSum>, AllocError>
    requires config { IsConfig config.now }
    requires count { length tallies.now ≡ length config.now.nodes }
    ensures { IfOk result (λ sums. (told : List Event) → AreTallied config.now told tallies.now
        → sums.items ≡ sums_among config.now told) }
{
    let nodes = config.nodes.as_slice();
    let mut all = Vec::new(alloc);
    for place in 0..nodes.len() {
        if let Some(sum) = sum_of(place as u16, &nodes[place], &tallies[place]) {
            all.push(sum)?;
        }
    }
    Ok(all)
}

// The sums of a router; a host has none.
fn sum_of(number: u16, plan: &NodePlan, tally: &Tally) -> Option<RouterSum>
    ensures { (told : List Event) → StandsFor tally.now (restarts_in plan.now) (charges_in told)
        → result ≡ sum_told number plan.now told }
{
    match plan {
        NodePlan::Router(_) => Some(numbered(number, tally.sums())),
        NodePlan::Host(_) => None,
    }
}
