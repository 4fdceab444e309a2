// The lines of a report, as a network is worked.
ghost use Rattle.std.specs.Prelude.{◌≡◌, ◌++◌, [], List, All, OnOk, cond};
ghost use Rattle.tva_base.specs.Printable.{IsLine};
ghost use Rattle.tva_base.specs.declared.event.Event.{Event};
ghost use Rattle.tva_plan.specs.Valid.{IsConfig};
ghost use Rattle.tva_rows.specs.declared.rows.Row.{Row};
ghost use Rattle.tva_lines.specs.Lines.{HasEvent, text_of_event};
ghost use Rattle.tva_run.specs.Report.{lines_of};
ghost use Rattle.tva_audit.specs.Worked.{Comes, IsBehind};

use arrayvec::ArrayString;
use std::alloc::{AllocError, Global};
use std::thread::Threads;
use tva_base::Event;
use tva_lines::line_text;
use tva_net::{Net, NetError, Window};
use tva_outside::Gate;
use tva_plan::Config;

/// Leaves the lines of the events in `text`, and nothing else.
pub fn put_lines(config: &Config, events: &[Event], text: &mut Vec<u8>) -> Result<(), AllocError>
    requires config { IsConfig config.now }
    requires known { All (HasEvent config.now) events.now }
    ensures lines { OnOk result (text.new.items ≡ lines_of config.now events.now) }
    ensures printable { OnOk result (All (λ e. IsLine (text_of_event config.now e)) events.now) }
{
    text.clear();
    let mut line = ArrayString::new();
    for event in events {
        line_text(config, event, &mut line);
        text.extend_from_slice(line.as_bytes())?;
    }
    Ok(())
}

/// These events, or none where nothing is to be shown.
pub fn shown(events: &[Event], silent: bool) -> &[Event]
    ensures { result.now ≡ cond silent [] events.now }
{
    if silent { &[] } else { events }
}

/// Works the next window of a network that stands for a run, and beside it leaves the lines of these events,
/// which are those of the window before, in `text`: neither needs the other. Where nothing is to be shown, no
/// line is made. A replay writes the lines, and an audit compares them.
pub fn step_and_put<R: Threads + Sync, G: Gate>(
    rt: &R,
    alloc: Global,
    gate: &G,
    config: &Config,
    events: &[Event],
    silent: bool,
    text: &mut Vec<u8>,
    net: &mut Net,
) -> (Result<Window, NetError>, Result<(), AllocError>)
    requires config { IsConfig config.now }
    requires behind { (rows : List Row) × (told : List Event) × IsBehind config.now rows told events.now net.old }
    ensures known { All (HasEvent config.now) events.now }
    ensures comes { (rows : List Row) (told : List Event) → IsBehind config.now rows told events.now net.old
        → Comes config.now rows (told ++ events.now) result.0 net.old net.new }
    ensures lines { OnOk result.1 (text.new.items ≡ lines_of config.now (cond silent [] events.now)) }
    ensures printable { OnOk result.1 (All (λ e. IsLine (text_of_event config.now e)) (cond silent [] events.now)) }
{
    let list = shown(events, silent);
    net.step_beside(
        rt,
        alloc,
        gate,
        &mut || -> Result<(), AllocError>
            requires { IsConfig config.now × All (HasEvent config.now) list.now }
            ensures lines { OnOk result (text.exit.now.items ≡ lines_of config.entry.now list.entry.now) }
            ensures printable { OnOk result (All (λ e. IsLine (text_of_event config.entry.now e)) list.entry.now) }
        { put_lines(config, list, text) },
    )
}
