// What an audit says of rows that were read, and how often it tells the gate: the program puts it into words at once.
ghost use Rattle.std.specs.Prelude.{IfOk};
ghost use Rattle.tva_plan.specs.Valid.{IsConfig};

use super::FILES;
use std::alloc::{AllocError, Global};
use std::sync::atomic::{AtomicU64, Ordering};
use std::test::Fail;
use std::thread::Threads;
use tva_audit::{AuditError, Audited, RouterSum, audit, sums};
use tva_config::read_config;
use tva_outside::Gate;
use tva_plan::Config;
use tva_trace::read_trace;

const EDGE: &str =
    "horizon_ns = 1000000000000\nmax_events = 1000\n[[router]]\nname = \"R1\"\nmaster = \"000102030405060708090a0b0c0d0e0f101112131415161718191a1b1c1d1e1f\"\nslots = 8\n";

const LISTS: &str =
    "time,node,kind,src,dst,payload,shim\n5000000000,R1,list,10.0.0.1,10.0.1.1,472,00000000000a/1/10/0/R1@5\n5000000000,R1,list,10.0.0.1,10.0.1.1,472,00000000000a/1/10/0/0500112233445566\n";

const REPORT: &str =
    "5000000000 R1 in R1#1 512 trace regular - dropped:no-route\n5000000000 R1 in R1#2 512 trace legacy bad-hash dropped:no-route\ntotal events=2 routed=2 authorised=1 demoted=1 dropped=2 started=0 received=0 bytes=0\n";

// How often nodes were told.
#[derive(Drop)]
struct Starts {
    all: AtomicU64,
}

impl Gate for Starts {
    fn at_start(&self, _node: u16) {
        self.all.fetch_add(1, Ordering::SeqCst);
    }
}

// A configuration as it is read.
fn config(alloc: Global, text: &str) -> Result<Config, Fail>
    ensures { IfOk result (λ config. IsConfig config) }
{
    match read_config(alloc, text.as_bytes()) {
        Ok(config) => Ok(config),
        Err(_) => Err(Fail::from("no configuration")),
    }
}

// What routers let through: of each its node, and its grants, charges and bytes.
fn put_sums(alloc: Global, sums: &[RouterSum]) -> Result<String, AllocError> {
    let mut text = String::new(alloc);
    for sum in sums {
        let one = format!(in alloc;
            "{} {} {} {},",
            sum.node, sum.grants, sum.charges, sum.bytes
        )?;
        text.push_str(one.as_str())?;
    }
    Ok(text)
}

fn put_answer(alloc: Global, answer: &Result<Audited, AuditError>) -> Result<String, AllocError> {
    match answer {
        Ok(Audited::Same(sums)) => put_sums(alloc, sums.as_slice()),
        Ok(Audited::Differs(finding)) => format!(in alloc;
            "line {}: {}; {}",
            finding.line,
            finding.expected.as_str(),
            finding.found.as_str()
        ),
        Err(_) => format!(in alloc; "an error"),
    }
}

// What an audit says of a report, and how often it told the gate of a node.
fn said<R: Threads + Sync>(
    rt: &R,
    alloc: Global,
    plan: &str,
    trace: &str,
    report: &str,
) -> Result<(String, u64), Fail> {
    let config = config(alloc, plan)?;
    let rows = read_trace(alloc, trace.as_bytes(), &config)?;
    let gate = Starts {
        all: AtomicU64::new(0),
    };
    let answer = audit(rt, alloc, &config, rows, report.as_bytes(), &gate);
    let text = put_answer(alloc, &answer)?;
    Ok((text, gate.all.load(Ordering::SeqCst)))
}

// What an audit says of a report, by a configuration and a trace: that it is the run's, and what its one router let
// through; another first line; or that there are too many events. And how often it tells the gate of a node: of each
// in each window, as a replay does.
#[test]
fn audits_of_rows(rt: HostRuntime) -> Result<(), Fail> {
    let few = FILES[0]
        .1
        .replace(rt.alloc(), "max_events = 1000", "max_events = 17")?;
    for (plan, trace, report, wanted, starts) in [
        (EDGE, LISTS, REPORT, "0 1 1 512,", 1),
        (
            EDGE,
            LISTS,
            "x\n",
            "line 1: 5000000000 R1 in R1#1 512 trace regular - dropped:no-route; x",
            1,
        ),
        (few.as_str(), FILES[1].1, "x\n", "an error", 30),
    ] {
        let (text, told) = said(&rt, rt.alloc(), plan, trace, report)?;
        assert_eq!(rt; text.as_str(), wanted);
        assert_eq!(rt; told, starts);
    }
    Ok(())
}

// The sums of no nodes are none.
#[test]
fn no_nodes_have_no_sums(rt: HostRuntime) -> Result<(), Fail> {
    let none = sums(&rt, rt.alloc(), &[])?;
    assert_eq!(rt; none.len(), 0);
    Ok(())
}
