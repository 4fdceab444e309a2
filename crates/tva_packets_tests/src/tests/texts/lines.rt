// The longest lines, and those of ticks and of ranges. Other lines are shown by `tests/replays`.
ghost use Rattle.std.specs.Prelude.{◌≡◌, IfOk, length};
ghost use Rattle.tva_plan.specs.declared.config.Config.{Config};
ghost use Rattle.tva_lines.specs.Lines.{HasEvent, LinksJoinNodes};

use super::config_of;
use arrayvec::ArrayString;
use std::alloc::Global;
use std::process::Abort;
use std::test::Fail;
use tva_base::{
    BackKind, DataLine, Event, Happened, LinkPlan, Listed, Outcome, PacketId, ReplyLine, ShapeKind,
    Time, WhatKind,
};
use tva_lines::line_text;
use tva_plan::Config;

// The line of a receipt with the longest names and words and the greatest numbers.
const LONGEST: &str =
    "18446744073709551615 host-of-number-1 recv router-number-01#18446744073709551615 4294967295 \
router-number-01 request ignored host-of-number-1#18446744073709551615/4294967295/renewal/ignored/\
queued:router-number-01 data:65535:4294967295:65535\n";

const SHORTEST: &str =
    "0 host-of-number-1 recv router-number-01#0 0 router-number-01 stray - - data:0:0:0\n";

const TICK: &str = "18446744073709551615 host-of-number-1 tick\n";

// A router and a host with names of 16 bytes.
const NAMED: &str = r#"horizon_ns = 0
max_events = 1
router = [{ name = "router-number-01", master = "0000000000000000000000000000000000000000000000000000000000000000", slots = 0 }]
host = [{ name = "host-of-number-1", address = "10.0.0.1" }]
link = [{ from = "host-of-number-1", to = "router-number-01", ns_per_byte = 1, delay_ns = 1 }]
"#;

// Such a configuration with a link each way.
fn named(rt: &impl Abort, alloc: Global) -> Result<Config, Fail>
    ensures ends { IfOk result (λ config. LinksJoinNodes config) }
    ensures nodes { IfOk result (λ config. length config.nodes ≡ 2) }
    ensures links { IfOk result (λ config. length config.links ≡ 2) }
{
    let mut config = config_of(alloc, NAMED)?;
    assert!(rt; config.nodes.len() == 2);
    assert!(rt; config.links.len() == 1);
    let link = config.links.as_slice()[0];
    let forth = LinkPlan {
        from: 0,
        to: 1,
        ..link
    };
    let back = LinkPlan {
        from: 1,
        to: 0,
        ..link
    };
    config.links = Listed::new(vec![in alloc; forth, back]?);
    Ok(config)
}

// What happened at the host.
fn event(time: u64, happened: Happened) -> Event
    ensures { result ≡ record { time = record { 0 = time }; node = 1; happened = happened } }
{
    Event {
        time: Time(time),
        node: 1,
        happened,
    }
}

fn id(node: u16, ordinal: u64) -> PacketId
    ensures { result ≡ record { node = node; ordinal = ordinal } }
{
    PacketId { node, ordinal }
}

fn longest() -> Event
    ensures { (config : Config) → length config.nodes ≡ 2 → length config.links ≡ 2 → HasEvent config result }
{
    let reply = ReplyLine {
        id: id(1, u64::MAX),
        length: u32::MAX,
        shape: ShapeKind::Renewal,
        back: BackKind::Ignored,
        outcome: Outcome::Queued(1),
    };
    let range = DataLine {
        transfer: u16::MAX,
        first: u32::MAX,
        bytes: u16::MAX,
    };
    let happened = Happened::Received {
        id: id(0, u64::MAX),
        length: u32::MAX,
        from: 0,
        payload: 0,
        what: WhatKind::Request,
        back: BackKind::Ignored,
        reply: Some(reply),
        range: Some(range),
    };
    event(u64::MAX, happened)
}

fn shortest() -> Event
    ensures { (config : Config) → length config.nodes ≡ 2 → length config.links ≡ 2 → HasEvent config result }
{
    let range = DataLine {
        transfer: 0,
        first: 0,
        bytes: 0,
    };
    let happened = Happened::Received {
        id: id(0, 0),
        length: 0,
        from: 0,
        payload: 0,
        what: WhatKind::Stray,
        back: BackKind::Nothing,
        reply: None,
        range: Some(range),
    };
    event(0, happened)
}

fn expect_line(rt: &impl Abort, config: &Config, event: &Event, want: &str)
    requires ends { LinksJoinNodes config.now }
    requires known { HasEvent config.now event.now }
{
    let mut line = ArrayString::new();
    line_text(config, event, &mut line);
    assert_eq!(rt; line.as_str(), want);
}

#[test]
fn lines_tell_ranges_and_ticks(rt: HostRuntime) -> Result<(), Fail> {
    let config = named(&rt, rt.alloc())?;
    assert_eq!(&rt; LONGEST.len(), 242);
    expect_line(&rt, &config, &longest(), LONGEST);
    expect_line(&rt, &config, &shortest(), SHORTEST);
    expect_line(&rt, &config, &event(u64::MAX, Happened::Ticked), TICK);
    Ok(())
}
