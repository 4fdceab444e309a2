// The parts of a command that reach outside.
ghost use Rattle.std.specs.Prelude.{◌≡◌, ◌≤◌, ◌^◌, ◌++◌, IfOk, IfErr, length};
ghost use Rattle.tva_outside.specs.Faults.{Rose};
ghost use Rattle.tva_plan.specs.Valid.{IsConfig};
ghost use Rattle.tva_rows.specs.Valid.{AreTraceRows};
ghost use Rattle.tva.specs.Expected.{file_at, plan_at, trace_at};
ghost use Rattle.tva.specs.Given.{WasTaken};
ghost use Rattle.tva.specs.Parts.{AreRowsOf, IsFound, IsNotFound, IsToldOf, IsWritten, WasAsked};
ghost use Rattle.tva.specs.Answer.{IsRefusal};

use crate::limits::{CONFIG_MAX, TRACE_MAX};
use crate::status::Status;
use std::alloc::Global;
use tva_config::{ConfigError, read_config};
use tva_outside::{Loaded, Sent, Shelf, Sink, write_all};
use tva_plan::Config;
use tva_rows::PackedRows;
use tva_trace::{TraceError, read_packed};

/// The bytes that are held under a name, at most `max` of them.
pub fn load<S: Shelf>(alloc: Global, shelf: &mut S, name: &str, max: u64) -> Result<Vec<u8>, Status>
    requires { max ≤ 2 ^ 40 }
    ensures held { S.held shelf.new ≡ S.held shelf.old }
    ensures asked { WasAsked (S.gave shelf.old) (S.gave shelf.new) name.now }
    ensures told { IsToldOf (S.held shelf.old) (S.gave shelf.old) (S.gave shelf.new) (Rose (S.faults shelf.old) (S.faults shelf.new)) result }
    ensures unfailed { IfOk result (λ _. S.faults shelf.new ≡ S.faults shelf.old) }
    ensures never_falls { S.faults shelf.old ≤ S.faults shelf.new }
    ensures ok { IfOk result (λ bytes. IsFound (S.gave shelf.old) (S.gave shelf.new) (file_at max name.now) bytes.items) }
    ensures err { IfErr result (IsNotFound (S.gave shelf.old) (S.gave shelf.new) (file_at max name.now)) }
{
    match shelf.load(alloc, name, max) {
        Loaded::Bytes(bytes) => Ok(bytes),
        Loaded::Failed => Err(Status::ReadFault),
        Loaded::TooLarge(size) => Err(Status::TooLarge(size)),
        Loaded::OutOfMemory => Err(Status::OutOfMemory),
    }
}

/// The plan of the configuration that is held under a name.
pub fn load_plan<S: Shelf>(alloc: Global, shelf: &mut S, name: &str) -> Result<Config, Status>
    ensures held { S.held shelf.new ≡ S.held shelf.old }
    ensures asked { WasAsked (S.gave shelf.old) (S.gave shelf.new) name.now }
    ensures told { IsToldOf (S.held shelf.old) (S.gave shelf.old) (S.gave shelf.new) (Rose (S.faults shelf.old) (S.faults shelf.new)) result }
    ensures unfailed { IfOk result (λ _. S.faults shelf.new ≡ S.faults shelf.old) }
    ensures never_falls { S.faults shelf.old ≤ S.faults shelf.new }
    ensures ok { IfOk result (IsFound (S.gave shelf.old) (S.gave shelf.new) (plan_at name.now)) }
    ensures valid { IfOk result IsConfig }
    ensures err { IfErr result (IsNotFound (S.gave shelf.old) (S.gave shelf.new) (plan_at name.now)) }
{
    let bytes = match load(alloc, shelf, name, CONFIG_MAX) {
        Ok(bytes) => bytes,
        Err(status) => return Err(status),
    };
    match read_config(alloc, &bytes) {
        Ok(plan) => Ok(plan),
        Err(ConfigError::Fault(fault)) => Err(Status::BadConfig(fault)),
        Err(ConfigError::OutOfMemory) => Err(Status::OutOfMemory),
    }
}

/// The rows of the trace that is held under a name.
pub fn load_rows<S: Shelf>(
    alloc: Global,
    shelf: &mut S,
    name: &str,
    plan: &Config,
) -> Result<PackedRows, Status>
    requires { length plan.now.nodes ≤ 65536 }
    ensures held { S.held shelf.new ≡ S.held shelf.old }
    ensures asked { WasAsked (S.gave shelf.old) (S.gave shelf.new) name.now }
    ensures told { IsToldOf (S.held shelf.old) (S.gave shelf.old) (S.gave shelf.new) (Rose (S.faults shelf.old) (S.faults shelf.new)) result }
    ensures unfailed { IfOk result (λ _. S.faults shelf.new ≡ S.faults shelf.old) }
    ensures never_falls { S.faults shelf.old ≤ S.faults shelf.new }
    ensures ok { IfOk result (λ rows. AreRowsOf (S.gave shelf.old) (S.gave shelf.new) (trace_at plan.now name.now) plan.now rows) }
    ensures valid { IfOk result (λ rows. AreTraceRows plan.now rows) }
    ensures err { IfErr result (IsNotFound (S.gave shelf.old) (S.gave shelf.new) (trace_at plan.now name.now)) }
{
    let bytes = match load(alloc, shelf, name, TRACE_MAX) {
        Ok(bytes) => bytes,
        Err(status) => return Err(status),
    };
    match read_packed(alloc, &bytes, plan) {
        Ok(rows) => Ok(rows),
        Err(TraceError::Fault(fault)) => Err(Status::BadTrace(fault)),
        Err(TraceError::OutOfMemory) => Err(Status::OutOfMemory),
    }
}

/// Writes the bytes.
#[tactic(auto, using(crate::proofs::Given::taken_of))]
pub fn send<W: Sink>(out: &mut W, bytes: &[u8]) -> Status
    ensures never_falls { W.faults out.old ≤ W.faults out.new }
    ensures written { WasTaken (W.written out.old) (W.written out.new) (W.took out.old) (W.took out.new) }
    ensures unfailed { result ≡ Status.Done → W.faults out.new ≡ W.faults out.old }
    ensures no_refusal { ¬ IsRefusal result }
    ensures answer { IsWritten (W.took out.old) (W.took out.new) (Rose (W.faults out.old) (W.faults out.new)) bytes.now result }
{
    match write_all(out, bytes) {
        Sent::All => Status::Done,
        Sent::Failed(_) => Status::WriteFault,
        Sent::OutOfMemory(_) => Status::OutOfMemory,
    }
}

/// Writes the first bytes, and then the others.
#[tactic(auto, using(crate::proofs::Given::taken_both))]
pub fn send_both<W: Sink>(out: &mut W, first: &[u8], second: &[u8]) -> Status
    ensures never_falls { W.faults out.old ≤ W.faults out.new }
    ensures written { WasTaken (W.written out.old) (W.written out.new) (W.took out.old) (W.took out.new) }
    ensures unfailed { result ≡ Status.Done → W.faults out.new ≡ W.faults out.old }
    ensures no_refusal { ¬ IsRefusal result }
    ensures answer { IsWritten (W.took out.old) (W.took out.new) (Rose (W.faults out.old) (W.faults out.new)) (first.now ++ second.now) result }
{
    match send(out, first) {
        Status::Done => send(out, second),
        status => status,
    }
}
