// What nodes sent is posted to the nodes at the other ends of their links.
ghost use Rattle.std.specs.Prelude.{◌≡◌, ◌≤◌, ◌∷◌, [], All, OnOk, length};
ghost use Rattle.std.specs.List.{AllZip};
ghost use Rattle.tva_node.specs.States.{unsent};
ghost use Rattle.tva_run.specs.Reaching.{arrival};
ghost use Rattle.tva_net.specs.Handing.{picked};
ghost use Rattle.tva_net.specs.Mail.{CanDeliver, CanPost, GotMails, HandedOn, HavePosted, IsPostable, IsSameBut, KeepsWork, mail_at, mail_to};
ghost use Rattle.tva_net.specs.News.{HasNoNews};
ghost use Rattle.tva_net.specs.Places.{ArePlaces, AreQuietElsewhere};
ghost use Rattle.tva_net.specs.Times.{AreNoted};

use crate::times::note;
use std::alloc::AllocError;
use std::thread::{Threads, join_mut};
use tva_base::{LinkPlan, Time};
use tva_index::Lowest;
use tva_node::{Flight, Node};

// Posts what the nodes sent, notes when each has work next, and lets them forget.
fn post_all(
    nodes: &mut [Node],
    times: &mut Lowest<u64>,
    horizon: Time,
    links: &[LinkPlan],
    places: &[usize],
    sent: &mut Vec<Flight>,
) -> Result<(), AllocError>
    requires { CanPost horizon.0 links.now places.now times.old nodes.old }
    ensures posted { OnOk result (HavePosted horizon.0 links.now times.new nodes.old nodes.new) }
    ensures keeps { AllZip KeepsWork nodes.old nodes.new }
{
    sent.clear();
    hand_over_each(nodes, places, sent)?;
    post_sent(nodes, times, horizon, links, sent)
}

/// Posts what the nodes sent and was not handed over yet, where it arrives by the horizon, in nanoseconds: node after
/// node, each in the order of its sendings. Then all is told and handed over, it is noted when each node has work next,
/// and the nodes forget what they need not keep. Only nodes in these places have such. Something else is done besides: at
/// once with it where there is much to be posted, and else before it. The memory of `sent` is used for what the nodes hand
/// over, so that little is taken anew. The error is want of memory.
#[tactic(auto, using(tva_node::proofs::Crosses::node_send))]
pub fn post_beside<R: Threads + Sync, F: FnMut() -> A + Send, A: Send>(
    rt: &R,
    nodes: &mut [Node],
    times: &mut Lowest<u64>,
    horizon: Time,
    links: &[LinkPlan],
    places: &[usize],
    sent: &mut Vec<Flight>,
    is_much: bool,
    other: &mut F,
) -> (Result<(), AllocError>, A)
    requires posting { CanPost horizon.0 links.now places.now times.old nodes.old }
    requires other { F.pre other.old }
    ensures posted { OnOk result.0 (HavePosted horizon.0 links.now times.new nodes.old nodes.new) }
    ensures keeps { AllZip KeepsWork nodes.old nodes.new }
    ensures other { F.step other.old result.1 other.new }
{
    if !is_much {
        let done = other();
        return (post_all(nodes, times, horizon, links, places, sent), done);
    }
    let (done, result) = join_mut(
        rt,
        other,
        &mut || -> Result<(), AllocError>
            requires { CanPost horizon.0 links.now places.now times.now nodes.now }
            ensures posted { OnOk result (HavePosted horizon.0 links.entry.now times.exit.now nodes.entry.now nodes.exit.now) }
            ensures keeps { AllZip KeepsWork nodes.entry.now nodes.exit.now }
        { post_all(nodes, times, horizon, links, places, sent) },
    );
    (result, done)
}

// All that the nodes have is told and handed over, and they forget what they need not keep. Only nodes in these places
// have any.
fn hand_over_each(
    nodes: &mut [Node],
    places: &[usize],
    sent: &mut Vec<Flight>,
) -> Result<(), AllocError>
    requires empty { sent.old.items ≡ [] }
    requires placed { ArePlaces (length nodes.old) places.now }
    requires others { AreQuietElsewhere nodes.old places.now }
    ensures sent { OnOk result (sent.new.items ≡ picked unsent nodes.old places.now) }
    ensures told { OnOk result (All HasNoNews nodes.new) }
    ensures handed { AllZip HandedOn nodes.old nodes.new }
{
    for place in places {
        nodes[*place].hand_over(sent)?;
    }
    Ok(())
}

// Posts packets that were sent, which leaves the list empty, with its memory.
fn post_sent(
    nodes: &mut [Node],
    times: &mut Lowest<u64>,
    horizon: Time,
    links: &[LinkPlan],
    sent: &mut Vec<Flight>,
) -> Result<(), AllocError>
    requires few { length nodes.old ≤ 1024 }
    requires postable { All (IsPostable horizon.0 links.now nodes.old) sent.old.items }
    requires noted { AreNoted times.old nodes.old }
    ensures got { OnOk result (GotMails (mail_to horizon.0 links.now sent.old.items) nodes.old nodes.new) }
    ensures noted { OnOk result (AreNoted times.new nodes.new) }
    ensures keeps { AllZip KeepsWork nodes.old nodes.new }
{
    for sending in sent.drain(..) {
        post_one(nodes, times, horizon, links, sending)?;
    }
    Ok(())
}

// Posts one packet that was sent, where it arrives by the horizon, and notes when the node there has
// work next. One that arrives later is dropped.
fn post_one(
    nodes: &mut [Node],
    times: &mut Lowest<u64>,
    horizon: Time,
    links: &[LinkPlan],
    sending: Flight,
) -> Result<(), AllocError>
    requires few { length nodes.old ≤ 1024 }
    requires postable { IsPostable horizon.0 links.now nodes.old sending }
    requires noted { AreNoted times.old nodes.old }
    ensures got { OnOk result (GotMails (mail_to horizon.0 links.now (sending ∷ [])) nodes.old nodes.new) }
    ensures noted { OnOk result (AreNoted times.new nodes.new) }
    ensures keeps { AllZip KeepsWork nodes.old nodes.new }
{
    if sending.arrive().0 > horizon.0 {
        return Ok(());
    }
    let to = usize::from(links[usize::from(sending.link())].to);
    deliver_flight(nodes, to, sending)?;
    note(times, nodes, to);
    Ok(())
}

// Gives a packet that arrives to the node in that place. The error is want of memory.
fn deliver_flight(nodes: &mut [Node], to: usize, flight: Flight) -> Result<(), AllocError>
    requires { CanDeliver nodes.old to (arrival flight) }
    ensures got { OnOk result (GotMails (mail_at to (arrival flight ∷ [])) nodes.old nodes.new) }
    ensures others { IsSameBut to nodes.old nodes.new }
    ensures keeps { AllZip KeepsWork nodes.old nodes.new }
{
    nodes[to].post_flight(flight)?;
    Ok(())
}
