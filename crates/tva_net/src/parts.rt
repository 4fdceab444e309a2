// What a network keeps, and its answers.
ghost use Rattle.std.specs.Prelude.{◌≡◌, ◌+◌, ◌<◌, ◌≤◌, ◌++◌, List, [], All, Err, IfErr, IfOk, IfSome, None, Some, length};
ghost use Rattle.std.specs.List.{AllZip};
ghost use Rattle.tva_base.specs.declared.event.Event.{Event};
ghost use Rattle.tva_plan.specs.declared.config.Config.{Config};
ghost use Rattle.tva_plan.specs.Valid.{IsConfig};
ghost use Rattle.tva_rows.specs.declared.rows.Row.{Row};
ghost use Rattle.tva_rows.specs.Valid.{AreTraceRows};
ghost use Rattle.tva_run.specs.Report.{totals_of};
ghost use Rattle.tva_run.specs.Windows.{Window as Span};
ghost use Rattle.tva_net.specs.Kept.{KnowsTimes, state_of};
ghost use Rattle.tva_net.specs.Nets.{GrowsFrom};
ghost use Rattle.tva_net.specs.Steps.{Gives, IsSound, Refuses, StandsFor};
ghost use Rattle.tva_net.specs.Sums.{AreWithin};

use crate::kinds::{NetError, Window};
use crate::sums::add_up;
use crate::works::Works;
use std::alloc::{AllocError, Global};
use std::thread::Threads;
use tva_base::{Event, Totals};
use tva_node::Memory;
use tva_outside::Gate;
use tva_plan::Config;
use tva_rows::PackedRows;

/// The nodes at work, the greatest number of events, the sums of what was given, and the error that
/// it has come to.
#[derive(Drop)]
pub(crate) struct Parts {
    pub works: Works,
    pub limit: u64,
    pub totals: Totals,
    pub failed: Option<NetError>,
}

impl Parts {
    /// A network in which nothing happened yet, of which memory keeps so much.
    pub fn build(
        alloc: Global,
        config: &Config,
        rows: PackedRows,
        keeps: Memory,
    ) -> Result<Parts, AllocError>
        requires config { IsConfig config.now }
        requires rows { AreTraceRows config.now rows }
        ensures stands { IfOk result (λ parts. StandsFor config.now rows [] [] (state_of parts)) }
        ensures times { IfOk result KnowsTimes }
        ensures keeps { IfOk result (λ parts. All (λ v. v.keeps ≡ keeps) parts.works.nodes.items) }
    {
        Ok(Parts {
            works: Works::build(alloc, config, rows, keeps)?,
            limit: config.max_events,
            totals: Totals {
                events: 0,
                routed: 0,
                authorised: 0,
                demoted: 0,
                dropped: 0,
                started: 0,
                received: 0,
                bytes: 0,
            },
            failed: None,
        })
    }

    /// Works the next window in which something happens, and gives that; and does something else.
    pub fn step<R: Threads + Sync, G: Gate, F: FnMut() -> A + Send, A: Send>(
        &mut self,
        rt: &R,
        alloc: Global,
        gate: &G,
        other: &mut F,
    ) -> (Result<Window, NetError>, A)
        requires sound { IsSound (state_of self.old) }
        requires times { KnowsTimes self.old }
        requires other { F.pre other.old }
        ensures sound { IsSound (state_of self.new) }
        ensures again { IfSome self.old.failed (λ error. (result.0 ≡ Err error) × (self.new ≡ self.old)) }
        ensures failed { IfErr result.0 (λ error. self.new.failed ≡ Some error) }
        ensures gives { IfOk result.0 (λ window. (config : Config) (rows : List Row) (windows : List Span) (told : List Event)
            → StandsFor config rows windows told (state_of self.old) → Gives config rows windows told window (state_of self.new)) }
        ensures refuses { IfErr result.0 (λ error. (config : Config) (rows : List Row) (windows : List Span) (told : List Event)
            → StandsFor config rows windows told (state_of self.old)
            → Refuses config rows windows told error (state_of self.old) (state_of self.new)) }
        ensures totals { IfErr result.0 (λ error. self.new.totals ≡ self.old.totals) }
        ensures times { KnowsTimes self.new }
        ensures kept { AllZip GrowsFrom self.old.works.nodes.items self.new.works.nodes.items }
        ensures other { F.step other.old result.1 other.new }
    {
        if let Some(error) = self.failed {
            return (Err(error), other());
        }
        self.failed = Some(NetError::OutOfMemory);
        let (events, done) = self.works.next_events(rt, alloc, gate, other);
        match events {
            Ok(Some(events)) => (self.give(events), done),
            Ok(None) => {
                self.failed = None;
                (Ok(Window::Ended), done)
            }
            Err(AllocError) => (Err(NetError::OutOfMemory), done),
        }
    }

    // Gives what happens in a window, if it is not more than may be.
    fn give(&mut self, events: Vec<Event>) -> Result<Window, NetError>
        requires room { self.old.totals.events ≤ self.old.limit }
        requires limit { self.old.limit ≤ 4000000 }
        requires within { AreWithin self.old.totals }
        ensures works { self.new.works ≡ self.old.works }
        ensures limit { self.new.limit ≡ self.old.limit }
        ensures gives { IfOk result (λ window. (window ≡ Window.Events events) × (self.new.failed ≡ None)
            × (self.old.totals.events + length events.items ≤ self.old.limit) × AreWithin self.new.totals
            × ((told : List Event) → self.old.totals ≡ totals_of told → self.new.totals ≡ totals_of (told ++ events.items))) }
        ensures refuses { IfErr result (λ error. (error ≡ NetError.EventLimit self.old.limit) × (self.new.failed ≡ Some error)
            × (self.old.limit < self.old.totals.events + length events.items) × (self.new.totals ≡ self.old.totals)) }
    {
        if events.len() as u64 > self.limit - self.totals.events {
            let error = NetError::EventLimit(self.limit);
            self.failed = Some(error);
            return Err(error);
        }
        add_up(&mut self.totals, events.as_slice());
        self.failed = None;
        Ok(Window::Events(events))
    }
}
