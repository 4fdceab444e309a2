// What each command does.
ghost use Rattle.std.specs.Prelude.{◌≡◌, ◌≤◌, ◌∷◌, [], length, Some};
ghost use Rattle.tva_outside.specs.Faults.{Rose};
ghost use Rattle.tva.specs.Asked.{asked};
ghost use Rattle.tva.specs.Command.{replay, check, gen, audit};
ghost use Rattle.tva.specs.Expected.{shows};
ghost use Rattle.tva.specs.Answer.{Answers, IsRefusal, Just, NeedsNoFile, OfCommand};
ghost use Rattle.tva.specs.Given.{files_of, IsTold, WasTaken, WereAsked};

use crate::audited::audit_rows;
use crate::check::put_check_line;
use crate::command::Command;
use crate::limits::REPORT_MAX;
use crate::parts::{load, load_plan, load_rows, send, send_both};
use crate::replay::replay_rows;
use crate::status::Status;
use arrayvec::ArrayString;
use std::alloc::Global;
use std::thread::Threads;
use tva_gen::generate;
use tva_outside::{Gate, Shelf, Sink};
use tva_shim_text::shim_text;

/// Does what the command asks for, over the files of the shelf, and writes to the sink. Its files are loaded in
/// the order of its words, each at most once, and each is read before the next is loaded. Of what is refused,
/// nothing is written.
#[tactic(auto, using(crate::proofs::Texts::shim_answers, crate::proofs::Given::asked_none, crate::proofs::Given::told_none, crate::proofs::Given::no_fault))]
pub fn run_command<R: Threads + Sync, S: Shelf, W: Sink, G: Gate>(
    rt: &R,
    alloc: Global,
    command: &Command,
    shelf: &mut S,
    out: &mut W,
    gate: &G,
) -> Status
    ensures held { S.held shelf.new ≡ S.held shelf.old }
    ensures reads { S.faults shelf.old ≤ S.faults shelf.new }
    ensures in_order { WereAsked (S.gave shelf.old) (S.gave shelf.new) (files_of (Some (asked command.now))) }
    ensures told { IsTold (S.held shelf.old) (S.gave shelf.old) (S.gave shelf.new) (Rose (S.faults shelf.old) (S.faults shelf.new)) result }
    ensures all_read { result ≡ Status.Done → S.faults shelf.new ≡ S.faults shelf.old }
    ensures writes { W.faults out.old ≤ W.faults out.new }
    ensures written { WasTaken (W.written out.old) (W.written out.new) (W.took out.old) (W.took out.new) }
    ensures all_written { result ≡ Status.Done → W.faults out.new ≡ W.faults out.old }
    ensures unwritten { IsRefusal result → out.new ≡ out.old }
    ensures answer { Answers (OfCommand (S.gave shelf.old) (S.gave shelf.new) (asked command.now))
        (Rose (W.faults out.old) (W.faults out.new))
        (W.took out.old) (W.took out.new) result }
    ensures unread { NeedsNoFile (Some (asked command.now)) → shelf.new ≡ shelf.old }
{
    match command {
        Command::Replay { config, trace } => run_replay(rt, alloc, config, trace, shelf, out, gate),
        Command::Check { config } => run_check(alloc, config, shelf, out),
        Command::Shim { bytes } => run_shim(alloc, bytes.as_slice(), out),
        Command::Gen {
            seed,
            count,
            config,
        } => run_gen(alloc, *seed, *count, config, shelf, out),
        Command::Audit {
            config,
            trace,
            report,
        } => run_audit(rt, alloc, config, trace, report, shelf, out, gate),
    }
}

#[tactic(auto, using(crate::proofs::Given::taken_none, crate::proofs::Given::asked_none, crate::proofs::Given::asked_one))]
fn run_replay<R: Threads + Sync, S: Shelf, W: Sink, G: Gate>(
    rt: &R,
    alloc: Global,
    config: &str,
    trace: &str,
    shelf: &mut S,
    out: &mut W,
    gate: &G,
) -> Status
    ensures held { S.held shelf.new ≡ S.held shelf.old }
    ensures reads { S.faults shelf.old ≤ S.faults shelf.new }
    ensures in_order { WereAsked (S.gave shelf.old) (S.gave shelf.new) (config.now ∷ trace.now ∷ []) }
    ensures told { IsTold (S.held shelf.old) (S.gave shelf.old) (S.gave shelf.new) (Rose (S.faults shelf.old) (S.faults shelf.new)) result }
    ensures all_read { result ≡ Status.Done → S.faults shelf.new ≡ S.faults shelf.old }
    ensures writes { W.faults out.old ≤ W.faults out.new }
    ensures written { WasTaken (W.written out.old) (W.written out.new) (W.took out.old) (W.took out.new) }
    ensures all_written { result ≡ Status.Done → W.faults out.new ≡ W.faults out.old }
    ensures unwritten { IsRefusal result → out.new ≡ out.old }
    ensures answer { Answers (OfCommand (S.gave shelf.old) (S.gave shelf.new) (replay config.now trace.now))
        (Rose (W.faults out.old) (W.faults out.new))
        (W.took out.old) (W.took out.new) result }
{
    let plan = match load_plan(alloc, shelf, config) {
        Ok(plan) => plan,
        Err(status) => return status,
    };
    let rows = match load_rows(alloc, shelf, trace, &plan) {
        Ok(rows) => rows,
        Err(status) => return status,
    };
    replay_rows(rt, alloc, &plan, rows, out, gate)
}

#[tactic(auto, using(crate::proofs::Given::taken_none, crate::proofs::Given::asked_none, crate::proofs::Given::asked_one))]
fn run_check<S: Shelf, W: Sink>(alloc: Global, config: &str, shelf: &mut S, out: &mut W) -> Status
    ensures held { S.held shelf.new ≡ S.held shelf.old }
    ensures reads { S.faults shelf.old ≤ S.faults shelf.new }
    ensures in_order { WereAsked (S.gave shelf.old) (S.gave shelf.new) (config.now ∷ []) }
    ensures told { IsTold (S.held shelf.old) (S.gave shelf.old) (S.gave shelf.new) (Rose (S.faults shelf.old) (S.faults shelf.new)) result }
    ensures all_read { result ≡ Status.Done → S.faults shelf.new ≡ S.faults shelf.old }
    ensures writes { W.faults out.old ≤ W.faults out.new }
    ensures written { WasTaken (W.written out.old) (W.written out.new) (W.took out.old) (W.took out.new) }
    ensures all_written { result ≡ Status.Done → W.faults out.new ≡ W.faults out.old }
    ensures unwritten { IsRefusal result → out.new ≡ out.old }
    ensures answer { Answers (OfCommand (S.gave shelf.old) (S.gave shelf.new) (check config.now))
        (Rose (W.faults out.old) (W.faults out.new))
        (W.took out.old) (W.took out.new) result }
{
    let plan = match load_plan(alloc, shelf, config) {
        Ok(plan) => plan,
        Err(status) => return status,
    };
    let mut line = ArrayString::new();
    put_check_line(&plan, &mut line);
    send(out, line.as_bytes())
}

#[tactic(auto, using(crate::proofs::Given::taken_none))]
fn run_shim<W: Sink>(alloc: Global, bytes: &[u8], out: &mut W) -> Status
    requires { length bytes.now ≤ 400 }
    ensures writes { W.faults out.old ≤ W.faults out.new }
    ensures written { WasTaken (W.written out.old) (W.written out.new) (W.took out.old) (W.took out.new) }
    ensures all_written { result ≡ Status.Done → W.faults out.new ≡ W.faults out.old }
    ensures no_refusal { ¬ IsRefusal result }
    ensures answer { Answers (Just (shows bytes.now)) (Rose (W.faults out.old) (W.faults out.new))
        (W.took out.old) (W.took out.new) result }
{
    match shim_text(alloc, bytes) {
        Ok(text) => send_both(out, text.as_bytes(), b"\n"),
        Err(_) => Status::OutOfMemory,
    }
}

#[tactic(auto, using(crate::proofs::Given::taken_none, crate::proofs::Given::asked_none, crate::proofs::Given::asked_one))]
fn run_gen<S: Shelf, W: Sink>(
    alloc: Global,
    seed: u64,
    count: u32,
    config: &str,
    shelf: &mut S,
    out: &mut W,
) -> Status
    ensures held { S.held shelf.new ≡ S.held shelf.old }
    ensures reads { S.faults shelf.old ≤ S.faults shelf.new }
    ensures in_order { WereAsked (S.gave shelf.old) (S.gave shelf.new) (config.now ∷ []) }
    ensures told { IsTold (S.held shelf.old) (S.gave shelf.old) (S.gave shelf.new) (Rose (S.faults shelf.old) (S.faults shelf.new)) result }
    ensures all_read { result ≡ Status.Done → S.faults shelf.new ≡ S.faults shelf.old }
    ensures writes { W.faults out.old ≤ W.faults out.new }
    ensures written { WasTaken (W.written out.old) (W.written out.new) (W.took out.old) (W.took out.new) }
    ensures all_written { result ≡ Status.Done → W.faults out.new ≡ W.faults out.old }
    ensures unwritten { IsRefusal result → out.new ≡ out.old }
    ensures answer { Answers (OfCommand (S.gave shelf.old) (S.gave shelf.new) (gen seed count config.now))
        (Rose (W.faults out.old) (W.faults out.new))
        (W.took out.old) (W.took out.new) result }
{
    let plan = match load_plan(alloc, shelf, config) {
        Ok(plan) => plan,
        Err(status) => return status,
    };
    match generate(alloc, seed, count, &plan) {
        Ok(text) => send(out, &text),
        Err(_) => Status::OutOfMemory,
    }
}

#[tactic(auto, using(crate::proofs::Given::taken_none, crate::proofs::Given::asked_none, crate::proofs::Given::asked_one))]
fn run_audit<R: Threads + Sync, S: Shelf, W: Sink, G: Gate>(
    rt: &R,
    alloc: Global,
    config: &str,
    trace: &str,
    report: &str,
    shelf: &mut S,
    out: &mut W,
    gate: &G,
) -> Status
    ensures held { S.held shelf.new ≡ S.held shelf.old }
    ensures reads { S.faults shelf.old ≤ S.faults shelf.new }
    ensures in_order { WereAsked (S.gave shelf.old) (S.gave shelf.new) (config.now ∷ trace.now ∷ report.now ∷ []) }
    ensures told { IsTold (S.held shelf.old) (S.gave shelf.old) (S.gave shelf.new) (Rose (S.faults shelf.old) (S.faults shelf.new)) result }
    ensures all_read { result ≡ Status.Done → S.faults shelf.new ≡ S.faults shelf.old }
    ensures writes { W.faults out.old ≤ W.faults out.new }
    ensures written { WasTaken (W.written out.old) (W.written out.new) (W.took out.old) (W.took out.new) }
    ensures all_written { result ≡ Status.Done → W.faults out.new ≡ W.faults out.old }
    ensures unwritten { IsRefusal result → out.new ≡ out.old }
    ensures answer { Answers (OfCommand (S.gave shelf.old) (S.gave shelf.new) (audit config.now trace.now report.now))
        (Rose (W.faults out.old) (W.faults out.new))
        (W.took out.old) (W.took out.new) result }
{
    let plan = match load_plan(alloc, shelf, config) {
        Ok(plan) => plan,
        Err(status) => return status,
    };
    let rows = match load_rows(alloc, shelf, trace, &plan) {
        Ok(rows) => rows,
        Err(status) => return status,
    };
    let text = match load(alloc, shelf, report, REPORT_MAX) {
        Ok(text) => text,
        Err(status) => return status,
    };
    audit_rows(rt, alloc, &plan, rows, text.as_slice(), out, gate)
}
