// The sums of what was told.
ghost use Rattle.std.specs.Prelude.{◌≡◌, ◌+◌, ◌<◌, ◌≤◌, ◌++◌, List, length, false};
ghost use Rattle.std.specs.Option.{option_map_or};
ghost use Rattle.tva_base.specs.declared.event.Event.{Event};
ghost use Rattle.tva_run.specs.Report.{is_routed, is_charged, is_demoted, is_dropped, is_started, is_received, received_bytes, drops, totals_of};
ghost use Rattle.tva_router.specs.Marks.{calls_for_mark};
ghost use Rattle.tva_net.specs.Sums.{AreWithin, with_event};

use tva_base::{Cause, Event, Happened, Outcome, ReplyLine, Totals, WhatKind};

/// Adds events to the sums of those that were told before.
pub(crate) fn add_up(sums: &mut Totals, events: &[Event])
    requires few { sums.old.events + length events.now ≤ 4000000 }
    requires within { AreWithin sums.old }
    ensures sums { (told : List Event) → sums.old ≡ totals_of told → sums.new ≡ totals_of (told ++ events.now) }
    ensures within { AreWithin sums.new }
{
    for event in events {
        add_one(sums, &event.happened);
    }
}

// Adds one event.
fn add_one(sums: &mut Totals, happened: &Happened)
    requires few { sums.old.events < 4000000 }
    requires within { AreWithin sums.old }
    ensures sums { sums.new ≡ with_event sums.old happened.now }
    ensures within { AreWithin sums.new }
{
    *sums = Totals {
        events: sums.events + 1,
        routed: sums.routed + u64::from(is_routed(happened)),
        authorised: sums.authorised + u64::from(is_charged(happened)),
        demoted: sums.demoted + u64::from(is_demoted(happened)),
        dropped: sums.dropped + u64::from(is_dropped(happened)),
        started: sums.started + u64::from(is_started(happened)),
        received: sums.received + u64::from(is_received(happened)),
        bytes: sums.bytes + received_bytes(happened),
    };
}

fn is_routed(happened: &Happened) -> bool
    ensures { result ≡ is_routed happened.now }
{
    matches!(happened, Happened::Arrived { .. })
}

fn is_charged(happened: &Happened) -> bool
    ensures { result ≡ is_charged happened.now }
{
    match happened {
        Happened::Arrived { fate, .. } => fate.charge.is_some(),
        _ => false,
    }
}

fn is_demoted(happened: &Happened) -> bool
    ensures { result ≡ is_demoted happened.now }
{
    match happened {
        Happened::Arrived { fate, .. } => calls_for_mark(fate.cause),
        _ => false,
    }
}

fn calls_for_mark(cause: Option<Cause>) -> bool
    ensures { result ≡ calls_for_mark cause }
{
    match cause {
        None | Some(Cause::Malformed) => false,
        Some(_) => true,
    }
}

fn is_dropped(happened: &Happened) -> bool
    ensures { result ≡ is_dropped happened.now }
{
    match happened {
        Happened::Arrived { fate, .. } => drops(fate.outcome),
        Happened::Sent { outcome, .. } => drops(*outcome),
        Happened::Received { reply, .. } => reply_drops(*reply),
        Happened::Started { .. } | Happened::Ticked => false,
    }
}

fn drops(outcome: Outcome) -> bool
    ensures { result ≡ drops outcome }
{
    matches!(outcome, Outcome::Dropped(_))
}

fn reply_drops(reply: Option<ReplyLine>) -> bool
    ensures { result ≡ option_map_or (λ r. drops r.outcome) reply false }
{
    match reply {
        Some(reply) => drops(reply.outcome),
        None => false,
    }
}

fn is_started(happened: &Happened) -> bool
    ensures { result ≡ is_started happened.now }
{
    matches!(happened, Happened::Started { .. })
}

fn is_received(happened: &Happened) -> bool
    ensures { result ≡ is_received happened.now }
{
    matches!(happened, Happened::Received { .. })
}

fn received_bytes(happened: &Happened) -> u64
    ensures bytes { result ≡ received_bytes happened.now }
    ensures few { result < 65536 }
{
    match happened {
        Happened::Received {
            what: WhatKind::Stray,
            ..
        } => 0,
        Happened::Received { payload, .. } => u64::from(*payload),
        _ => 0,
    }
}
