// The replay of a trace.
ghost use Rattle.std.specs.Prelude.{◌≡◌, ◌≤◌};
ghost use Rattle.tva_outside.specs.Faults.{Rose};
ghost use Rattle.tva_plan.specs.Valid.{IsConfig};
ghost use Rattle.tva_rows.specs.Valid.{AreTraceRows};
ghost use Rattle.tva.specs.Given.{WasTaken};
ghost use Rattle.tva.specs.Parts.{IsReplayed, ended_by};
ghost use Rattle.tva.specs.Answer.{IsRefusal};

use crate::lines::{send_lines, send_total};
use crate::status::Status;
use std::alloc::Global;
use std::thread::Threads;
use tva_audit::step_and_put;
use tva_net::{Memory, Net, NetError, Window};
use tva_outside::{Gate, Sink};
use tva_plan::Config;
use tva_rows::PackedRows;

/// Writes the report of the rows under the plan: the lines of each window while the next is worked,
/// and the total line. Nothing is written of the window in which there are more events than the plan allows.
/// The network forgets each window once it is given.
#[tactic(auto, using(crate::proofs::Given::taken_none))]
pub fn replay_rows<R: Threads + Sync, W: Sink, G: Gate>(
    rt: &R,
    alloc: Global,
    plan: &Config,
    rows: PackedRows,
    out: &mut W,
    gate: &G,
) -> Status
    requires config { IsConfig plan.now }
    requires rows { AreTraceRows plan.now rows }
    ensures writes { W.faults out.old ≤ W.faults out.new }
    ensures written { WasTaken (W.written out.old) (W.written out.new) (W.took out.old) (W.took out.new) }
    ensures unfailed { result ≡ Status.Done → W.faults out.new ≡ W.faults out.old }
    ensures no_refusal { ¬ IsRefusal result }
    ensures answer { IsReplayed plan.now rows (W.took out.old) (W.took out.new)
        (Rose (W.faults out.old) (W.faults out.new)) result }
{
    let mut net = match Net::build_keeping(alloc, plan, rows, Memory::Nothing) {
        Ok(net) => net,
        Err(_) => return Status::OutOfMemory,
    };
    let mut text = Vec::new(alloc);
    let mut events = Vec::new(alloc);
    loop {
        let list = events.as_slice();
        let (step, put) = step_and_put(rt, alloc, gate, plan, list, false, &mut text, &mut net);
        match send_lines(put, text.as_slice(), out) {
            Status::Done => {}
            status => return status,
        }
        match step {
            Ok(Window::Events(next)) => events = next,
            Ok(Window::Ended) => return send_total(&net.totals(), out),
            Err(error) => return status_of(error),
        }
    }
}

// How a replay ends where the network comes to an error.
fn status_of(error: NetError) -> Status
    ensures { result ≡ ended_by error }
{
    match error {
        NetError::EventLimit(most) => Status::EventLimit(most),
        NetError::OutOfMemory => Status::OutOfMemory,
    }
}
