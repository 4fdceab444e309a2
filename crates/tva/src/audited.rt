// The audit of a report.
ghost use Rattle.std.specs.Prelude.{◌≡◌, ◌≤◌, ◌++◌, OnOk, decimal};
ghost use Rattle.std.specs.List.{flat_map};
ghost use Rattle.tva_outside.specs.Faults.{Rose};
ghost use Rattle.tva_plan.specs.Valid.{IsConfig};
ghost use Rattle.tva_lines.specs.Lines.{name_of_node};
ghost use Rattle.tva_rows.specs.Valid.{AreTraceRows};
ghost use Rattle.tva.specs.Audit.{audit_text, sum_line, worst_word};
ghost use Rattle.tva.specs.Given.{WasTaken};
ghost use Rattle.tva.specs.Parts.{IsAudited, refused_by};
ghost use Rattle.tva.specs.Answer.{IsRefusal};

use crate::parts::send;
use crate::status::Status;
use itoa::Buffer;
use std::alloc::{AllocError, Global};
use std::thread::Threads;
use tva_audit::{AuditError, Audited, RouterSum, audit_packed};
use tva_base::Grant;
use tva_outside::{Gate, Sink};
use tva_plan::{Config, name_at};
use tva_report::limit;
use tva_rows::PackedRows;

/// Audits a report of the rows under the plan. Where it is the report of the run, a line for each router
/// is written, and how many lines the report has: all at once, and nothing where it isn't.
#[tactic(auto, using(crate::proofs::Given::taken_none, crate::proofs::Given::no_fault))]
pub fn audit_rows<R: Threads + Sync, W: Sink, G: Gate>(
    rt: &R,
    alloc: Global,
    plan: &Config,
    rows: PackedRows,
    report: &[u8],
    out: &mut W,
    gate: &G,
) -> Status
    requires config { IsConfig plan.now }
    requires rows { AreTraceRows plan.now rows }
    ensures writes { W.faults out.old ≤ W.faults out.new }
    ensures written { WasTaken (W.written out.old) (W.written out.new) (W.took out.old) (W.took out.new) }
    ensures no_fault { ¬ result ≡ Status.ReadFault }
    ensures unwritten { IsRefusal result → out.new ≡ out.old }
    ensures unfailed { result ≡ Status.Done → W.faults out.new ≡ W.faults out.old }
    ensures answer { IsAudited plan.now rows report.now (W.took out.old) (W.took out.new)
        (Rose (W.faults out.old) (W.faults out.new)) result }
{
    let mut lines = 0;
    let sums = match audit_packed(rt, alloc, plan, rows, report, gate, &mut lines) {
        Ok(Audited::Same(sums)) => sums,
        Ok(Audited::Differs(finding)) => return Status::Found(finding),
        Err(error) => return status_of(error),
    };
    let mut text = Vec::new(alloc);
    match put_audit(plan, sums.as_slice(), lines, &mut text) {
        Ok(()) => send(out, text.as_slice()),
        Err(_) => Status::OutOfMemory,
    }
}

// How an audit ends that comes to nothing.
fn status_of(error: AuditError) -> Status
    ensures cause { result ≡ refused_by error }
    ensures no_fault { ¬ result ≡ Status.ReadFault }
{
    match error {
        AuditError::BadReport(line) => Status::BadReport(line),
        AuditError::EventLimit(most) => Status::EventLimit(most),
        AuditError::OutOfMemory => Status::OutOfMemory,
    }
}

// Leaves the text of an audit of so many lines in `text`, and nothing else.
fn put_audit(
    plan: &Config,
    sums: &[RouterSum],
    lines: u64,
    text: &mut Vec<u8>,
) -> Result<(), AllocError>
    ensures { OnOk result (text.new.items ≡ audit_text plan.now sums.now lines) }
{
    put_sums(plan, sums, text)?;
    put_count("report ok lines=", lines, text)?;
    text.push(b'\n')?;
    Ok(())
}

// Leaves the lines of the routers in `text`, and nothing else.
fn put_sums(plan: &Config, sums: &[RouterSum], text: &mut Vec<u8>) -> Result<(), AllocError>
    ensures { OnOk result (text.new.items ≡ flat_map (sum_line plan.now) sums.now) }
{
    text.clear();
    for sum in sums {
        put_sum(plan, sum, text)?;
    }
    Ok(())
}

// The line of a router.
fn put_sum(plan: &Config, sum: &RouterSum, text: &mut Vec<u8>) -> Result<(), AllocError>
    ensures { OnOk result (text.new.items ≡ text.old.items ++ sum_line plan.now sum.now) }
{
    text.extend_from_slice(node_name(plan, sum.node))?;
    put_count(" grants=", sum.grants, text)?;
    put_count(" charges=", sum.charges, text)?;
    put_count(" bytes=", sum.bytes, text)?;
    text.extend_from_slice(b" worst=")?;
    put_worst(sum.worst, text)?;
    text.push(b'\n')?;
    Ok(())
}

// How near the worst grant came to twice its units, in bytes.
fn put_worst(worst: Option<(Grant, u64)>, text: &mut Vec<u8>) -> Result<(), AllocError>
    ensures { OnOk result (text.new.items ≡ text.old.items ++ worst_word worst) }
{
    match worst {
        Some((grant, bytes)) => {
            put_count("", bytes, text)?;
            put_count("/", limit(grant), text)
        }
        None => {
            text.push(b'-')?;
            Ok(())
        }
    }
}

// A word and a number.
fn put_count(word: &str, count: u64, text: &mut Vec<u8>) -> Result<(), AllocError>
    ensures { OnOk result (text.new.items ≡ text.old.items ++ word.now ++ decimal count) }
{
    text.extend_from_slice(word.as_bytes())?;
    text.extend_from_slice(Buffer::new().format(count).as_bytes())?;
    Ok(())
}

// The name of a node.
fn node_name(plan: &Config, node: u16) -> &[u8]
    ensures { result.now ≡ name_of_node plan.now node }
{
    match plan.nodes.as_slice().get(usize::from(node)) {
        Some(node) => name_at(node),
        None => b"",
    }
}
