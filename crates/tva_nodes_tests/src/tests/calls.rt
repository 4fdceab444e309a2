// Calls that the program doesn't make, each once where there is memory.
ghost use Rattle.std.specs.Prelude.{◌≡◌, ◌≤◌, IfOk, OnOk};
ghost use Rattle.tva_node.specs.States.{Stands};

use std::alloc::{AllocError, Global};
use std::process::Abort;
use std::test::Fail;
use tva_base::{Address, Flow, Happened, Listed, Name, PacketId, RouterPlan, Time};
use tva_node::Node;
use tva_plan::NodePlan;
use tva_rows::{PackedRows, Row, RowWhat};
use tva_run::Input;
use tva_shim::{Carried, Packet};

const OTHER: PacketId = PacketId {
    node: 1,
    ordinal: 1,
};

const FLOW: Flow = Flow {
    src: Address(1),
    dst: Address(2),
};

// A router without links, to which nothing happened yet.
pub fn edge(alloc: Global, number: u16) -> Result<Node, AllocError>
    ensures stands { IfOk result Stands }
    ensures horizon { IfOk result (λ node. node.horizon ≡ 1000) }
    ensures worked { IfOk result (λ node. node.worked_to ≡ 0) }
{
    let plan = NodePlan::Router(RouterPlan {
        name: Name::new("R"),
        master: [0; 32],
        clock_offset: 0,
        slots: 1,
        edge_tag: 0,
        incoming: Listed::new(Vec::new(alloc)),
        outgoing: Listed::new(Vec::new(alloc)),
        routes: Listed::new(Vec::new(alloc)),
        restarts: Listed::new(Vec::new(alloc)),
        reroutes: Listed::new(Vec::new(alloc)),
    });
    Node::build(alloc, Time(1000), number, &plan, &[])
}

// Gives a node a row with a packet.
fn give_row(node: &mut Node, time: u64, payload: u16) -> Result<(), AllocError>
    requires horizon { node.old.horizon ≡ 1000 }
    requires worked { node.old.worked_to ≡ 0 }
    requires time { time ≤ 1000 }
    requires payload { payload ≤ 1600 }
    ensures horizon { OnOk result (node.new.horizon ≡ 1000) }
    ensures worked { OnOk result (node.new.worked_to ≡ 0) }
    ensures stands { Stands node.old → OnOk result (Stands node.new) }
{
    node.post(Input::FromTrace(Row {
        time: Time(time),
        node: 7,
        what: RowWhat::Inject {
            flow: FLOW,
            payload,
            carried: Carried::Nothing,
        },
    }))
}

// Gives a node a packet that arrives.
fn give_packet(node: &mut Node, time: u64, payload: u16) -> Result<(), AllocError>
    requires horizon { node.old.horizon ≡ 1000 }
    requires worked { node.old.worked_to ≡ 0 }
    requires time { time ≤ 1000 }
    requires payload { payload ≤ 1600 }
    ensures stands { Stands node.old → OnOk result (Stands node.new) }
{
    node.post(Input::Arrival {
        time: Time(time),
        link: 3,
        packet: Packet::new(OTHER, FLOW, 0, payload, Carried::Nothing),
    })
}

// Gives a node a row, and a packet that arrives before.
fn give(node: &mut Node) -> Result<(), AllocError>
    requires horizon { node.old.horizon ≡ 1000 }
    requires worked { node.old.worked_to ≡ 0 }
    requires stands { Stands node.old }
    ensures stands { OnOk result (Stands node.new) }
{
    give_row(node, 20, 30)?;
    give_packet(node, 10, 40)
}

// Holds what happened at a router that has no way for its inputs: the packet comes first, then the row.
fn compare<R: Abort>(rt: &R, node: &Node) {
    let wanted = [(10, Some(3), 60), (20, None, 50)];
    let log = node.log();
    assert_eq!(rt; log.len(), wanted.len());
    for (event, wanted) in log.iter().zip(wanted.iter()) {
        let Happened::Arrived { length, from, .. } = event.happened else {
            panic!(rt; "another event");
        };
        assert_eq!(rt; (event.time.0, from, length), *wanted);
    }
}

// Works a node that was given its inputs, and tells its next time before the packet, before the row and after both.
fn work(node: &mut Node) -> Result<[Option<Time>; 3], AllocError>
    requires horizon { node.old.horizon ≡ 1000 }
    requires worked { node.old.worked_to ≡ 0 }
    requires stands { Stands node.old }
{
    give(node)?;
    let first = node.next_time();
    node.advance(Time(11))?;
    let second = node.next_time();
    node.advance(Time(1000))?;
    Ok([first, second, node.next_time()])
}

// Has a node refuse a request for more memory than there can be, and then take its inputs in their order.
fn take<R: Abort>(rt: &R, node: &mut Node) -> Result<(), AllocError>
    requires horizon { node.old.horizon ≡ 1000 }
    requires worked { node.old.worked_to ≡ 0 }
    requires stands { Stands node.old }
{
    assert!(rt; node.reserve(usize::MAX).is_err());
    let times = work(node)?;
    assert_eq!(rt; times, [Some(Time(10)), Some(Time(20)), None]);
    assert_eq!(rt; (node.inbox().len(), node.outbox().len()), (2, 0));
    compare(rt, node);
    Ok(())
}

fn build_and_take<R: Abort>(rt: &R, alloc: Global) -> Result<(), AllocError> {
    let mut node = edge(alloc, 7)?;
    take(rt, &mut node)
}

#[test]
fn a_node_takes_what_it_is_given(rt: HostRuntime) -> Result<(), Fail> {
    build_and_take(&rt, rt.alloc())?;
    Ok(())
}

fn crosses<T: Send + Sync>() {}

// Rows may be moved to and shared with another thread.
#[test]
fn rows_cross_to_threads() {
    crosses::<Row>();
    crosses::<PackedRows>();
}
