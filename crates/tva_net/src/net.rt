// A network.
ghost use Rattle.std.specs.Prelude.{◌≡◌, List, [], All, Err, IfErr, IfOk, IfSome, Some};
ghost use Rattle.std.specs.List.{AllZip};
ghost use Rattle.tva_base.specs.declared.event.Event.{Event};
ghost use Rattle.tva_plan.specs.declared.config.Config.{Config};
ghost use Rattle.tva_plan.specs.Valid.{IsConfig};
ghost use Rattle.tva_rows.specs.declared.rows.Row.{Row};
ghost use Rattle.tva_rows.specs.Valid.{AreTraceRows};
ghost use Rattle.tva_run.specs.Windows.{Window as Span};
ghost use Rattle.tva_net.specs.Nets.{GrowsFrom};
ghost use Rattle.tva_net.specs.Steps.{Gives, Refuses, StandsFor};

use crate::kinds::{NetError, Window};
use crate::parts::Parts;
use std::alloc::{AllocError, Global};
use std::marker::Model;
use std::thread::Threads;
use tva_base::Totals;
use tva_node::{Memory, Node};
use tva_outside::Gate;
use tva_plan::Config;
use tva_rows::{PackedRows, Row};

/// A network: its nodes, worked up to a time. Contracts see what it keeps, and speak of the run of a
/// configuration and a trace for which it stands.
#[derive(Drop)]
pub struct Net {
    parts: Parts,
}

impl Model for Net {
    ghost use Rattle.tva_net.specs.Kept.{KnowsTimes, state_of};
    ghost use Rattle.tva_net.specs.Nets.{NetState};
    ghost use Rattle.tva_net.specs.Steps.{IsSound};

    ghost Value = { NetState };

    ghost view = { λ n. state_of n.parts };

    ghost invariant = { λ n. IsSound (state_of n.parts) × KnowsTimes n.parts };
}

impl Net {
    /// The network of a configuration with the rows of a trace, both as they are read, in which
    /// nothing happened yet. It keeps all that happens in it. The error is want of memory.
    pub fn build(alloc: Global, config: &Config, rows: Vec<Row>) -> Result<Net, AllocError>
        requires config { IsConfig config.now }
        requires rows { AreTraceRows config.now rows.items }
        ensures stands { IfOk result (λ net. StandsFor config.now rows.items [] [] net) }
        ensures keeps { IfOk result (λ net. All (λ v. v.keeps ≡ Memory.All) net.work.nodes) }
    {
        let packed = PackedRows::from_rows(alloc, rows)?;
        Net::build_keeping(alloc, config, packed, Memory::All)
    }

    /// The same network, of whose past memory keeps so much: it stands for the same run, and each window
    /// and sum is the same. Its nodes forget the rest once a window is over.
    pub fn build_keeping(
        alloc: Global,
        config: &Config,
        rows: PackedRows,
        keeps: Memory,
    ) -> Result<Net, AllocError>
        requires config { IsConfig config.now }
        requires rows { AreTraceRows config.now rows }
        ensures stands { IfOk result (λ net. StandsFor config.now rows [] [] net) }
        ensures keeps { IfOk result (λ net. All (λ v. v.keeps ≡ keeps) net.work.nodes) }
    {
        Ok(Net {
            parts: Parts::build(alloc, config, rows, keeps)?,
        })
    }

    /// Works the next window of the run in which something happens, and gives that. The gate is told
    /// of each node before it is worked in a window. An error leaves the sums as they were; after it each
    /// later call answers the same error and changes nothing.
    pub fn step_window<R: Threads + Sync, G: Gate>(
        &mut self,
        rt: &R,
        alloc: Global,
        gate: &G,
    ) -> Result<Window, NetError>
        ensures again { IfSome self.old.failed (λ error. (result ≡ Err error) × (self.new ≡ self.old)) }
        ensures failed { IfErr result (λ error. self.new.failed ≡ Some error) }
        ensures gives { IfOk result (λ window. (config : Config) (rows : List Row) (windows : List Span) (told : List Event)
            → StandsFor config rows windows told self.old → Gives config rows windows told window self.new) }
        ensures refuses { IfErr result (λ error. (config : Config) (rows : List Row) (windows : List Span) (told : List Event)
            → StandsFor config rows windows told self.old → Refuses config rows windows told error self.old self.new) }
        ensures totals { IfErr result (λ error. self.new.totals ≡ self.old.totals) }
        ensures kept { AllZip GrowsFrom self.old.work.nodes self.new.work.nodes }
    {
        let (window, ()) = self.parts.step(rt, alloc, gate, &mut || -> () {});
        window
    }

    /// The same, and something else: beside the posting of what the nodes sent, where that is much.
    pub fn step_beside<R: Threads + Sync, G: Gate, F: FnMut() -> A + Send, A: Send>(
        &mut self,
        rt: &R,
        alloc: Global,
        gate: &G,
        other: &mut F,
    ) -> (Result<Window, NetError>, A)
        requires other { F.pre other.old }
        ensures again { IfSome self.old.failed (λ error. (result.0 ≡ Err error) × (self.new ≡ self.old)) }
        ensures failed { IfErr result.0 (λ error. self.new.failed ≡ Some error) }
        ensures gives { IfOk result.0 (λ window. (config : Config) (rows : List Row) (windows : List Span) (told : List Event)
            → StandsFor config rows windows told self.old → Gives config rows windows told window self.new) }
        ensures refuses { IfErr result.0 (λ error. (config : Config) (rows : List Row) (windows : List Span) (told : List Event)
            → StandsFor config rows windows told self.old → Refuses config rows windows told error self.old self.new) }
        ensures totals { IfErr result.0 (λ error. self.new.totals ≡ self.old.totals) }
        ensures kept { AllZip GrowsFrom self.old.work.nodes self.new.work.nodes }
        ensures other { F.step other.old result.1 other.new }
    {
        self.parts.step(rt, alloc, gate, other)
    }

    /// The sums of all that was given so far.
    pub fn totals(&self) -> Totals
        ensures { result ≡ self.now.totals }
    {
        self.parts.totals
    }

    /// The nodes in the order of their numbers, with their logs.
    pub fn into_nodes(self) -> Vec<Node>
        ensures { result.items ≡ self.work.nodes }
    {
        self.parts.works.nodes
    }
}
