// The audit of a report.
ghost use Rattle.std.specs.Prelude.{◌≡◌, Ok, length};
ghost use Rattle.std.specs.declared.alloc.Global.{Global};
ghost use Rattle.std.specs.declared.vec.Vec.{Vec};
ghost use Rattle.tva_plan.specs.Valid.{IsConfig};
ghost use Rattle.tva_rows.specs.Valid.{AreTraceRows};
ghost use Rattle.tva_report.specs.Lines.{report_lines};
ghost use Rattle.tva_audit.specs.declared.audits.Audited.TheVariants.{Same};
ghost use Rattle.tva_audit.specs.declared.routers.RouterSum.{RouterSum};
ghost use Rattle.tva_audit.specs.Audit.{IsAudit};
ghost use Rattle.tva_audit.specs.Deciding.{told_by};

use crate::followed::{Followed, first_of};
use crate::lines::step_and_put;
use crate::routers::RouterSum;
use std::alloc::Global;
use std::thread::Threads;
use tva_net::{Memory, Net, NetError, Window};
use tva_outside::Gate;
use tva_plan::Config;
use tva_report::{Finding, first_bad};
use tva_rows::{PackedRows, Row};

/// What an audit comes to: the report is that of the run, in which the routers let through so much; or
/// this is the first line that differs.
#[derive(Debug, Drop)]
pub enum Audited {
    Same(Vec<RouterSum>),
    Differs(Finding),
}

/// Why an audit comes to nothing: the number of the report's first bad line, from 1; or the number of
/// events that the run passes.
#[derive(Debug, Drop)]
pub enum AuditError {
    BadReport(u64),
    EventLimit(u64),
    OutOfMemory,
}

/// Audits a report. A bad line comes first, then more events than the configuration allows, then the
/// first difference. The report is compared window by window, beside the run, whose network forgets what
/// it gave; what the routers let through is added up as it comes. What equals the run's lines has no bad
/// line: only what is left is searched for one, where the run or the memory ends.
pub fn audit<R: Threads + Sync, G: Gate>(
    rt: &R,
    alloc: Global,
    config: &Config,
    rows: Vec<Row>,
    report: &[u8],
    gate: &G,
) -> Result<Audited, AuditError>
    requires config { IsConfig config.now }
    requires rows { AreTraceRows config.now rows.items }
    ensures answer { IsAudit config.now rows.items report.now result }
{
    match PackedRows::from_rows(alloc, rows) {
        Ok(packed) => audit_packed(rt, alloc, config, packed, report, gate, &mut 0),
        Err(_) => Err(first_of(first_bad(report), AuditError::OutOfMemory)),
    }
}

/// The same of rows in little memory. Where the report is that of the run, `lines` is how many lines it has.
pub fn audit_packed<R: Threads + Sync, G: Gate>(
    rt: &R,
    alloc: Global,
    config: &Config,
    rows: PackedRows,
    report: &[u8],
    gate: &G,
    lines: &mut u64,
) -> Result<Audited, AuditError>
    requires config { IsConfig config.now }
    requires rows { AreTraceRows config.now rows }
    ensures answer { IsAudit config.now rows report.now result }
    ensures counted { (sums : Vec RouterSum Global) → result ≡ Ok (Same sums) → lines.new ≡ length (report_lines report.now) }
{
    let mut net = match Net::build_keeping(alloc, config, rows, Memory::Nothing) {
        Ok(net) => net,
        Err(_) => return Err(first_of(first_bad(report), AuditError::OutOfMemory)),
    };
    let mut followed = match Followed::new(alloc, config, report) {
        Ok(followed) => followed,
        Err(_) => return Err(first_of(first_bad(report), AuditError::OutOfMemory)),
    };
    let mut text = Vec::new(alloc);
    let mut events = Vec::new(alloc);
    loop {
        let list = events.as_slice();
        let silent = followed.differs();
        let (step, put) = step_and_put(rt, alloc, gate, config, list, silent, &mut text, &mut net);
        if followed.follow(config, list, put, text.as_slice()).is_err() {
            return Err(followed.refusal(AuditError::OutOfMemory));
        }
        match step {
            Ok(Window::Events(next)) => events = next,
            Ok(Window::Ended) => {
                let totals = net.totals();
                *lines = totals.events + 1;
                return followed.answered(alloc, config, &totals);
            }
            Err(error) => return Err(followed.refusal(error_of(error))),
        }
    }
}

// How an audit ends where the network comes to an error.
fn error_of(error: NetError) -> AuditError
    ensures { result ≡ told_by error }
{
    match error {
        NetError::EventLimit(most) => AuditError::EventLimit(most),
        NetError::OutOfMemory => AuditError::OutOfMemory,
    }
}
