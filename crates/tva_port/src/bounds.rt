// How soon a packet that is queued starts, and how evenly queues are served, whatever others send.
ghost use Rattle.std.specs.Prelude.{◌≡◌, ℕ, ◌+◌, ◌*◌, ◌^◌, ◌<◌, ◌≤◌, List, ◌++◌};
ghost use Rattle.tva_base.specs.declared.limits.LinkLimits.{LinkLimits};
ghost use Rattle.tva_base.specs.declared.packet.Class.TheVariants.{Request, Regular};
ghost use Rattle.tva_base.specs.Plan.{AreClassLimits, AreLinkLimits};
ghost use Rattle.tva_drr.specs.Service.{most_until};
ghost use Rattle.tva_drr.specs.GroupsAhead.{most_until_under};
ghost use Rattle.tva_port.specs.Log.{Entry};
ghost use Rattle.tva_port.specs.Decide.{MissesNone};
ghost use Rattle.tva_port.specs.Legal.{IsLegal};
ghost use Rattle.tva_port.specs.Bounds.{requests_until, request_bound, regular_bound, AreServed, AreServedAlike};

use tva_base::{DrrLimits, LinkLimits};

/// The most bytes of fair queues that go up to a packet and with it, where so many wait in its
/// queue up to it and with it.
fn most_bytes(limits: &DrrLimits, bytes: u32) -> u64
    requires { AreClassLimits limits.now }
    ensures value { result ≡ most_until limits.now bytes }
    ensures small { result ≤ 2 ^ 50 }
{
    let turns = u64::from(bytes).div_ceil(u64::from(limits.quantum));
    let turn = turns * u64::from(limits.quantum) + u64::from(limits.max);
    u64::from(limits.queues - 1) * turn + u64::from(bytes)
}

/// The most bytes of requests that go up to one and with it on a link with two levels, with so many
/// queues behind a key: the most of those behind its key, and of all up to these.
fn most_bytes_under(limits: &DrrLimits, inner: u32, bytes: u32) -> u128
    requires limits { AreClassLimits limits.now }
    requires inner { (1 ≤ inner) × (inner ≤ 65536) }
    ensures value { result ≡ most_until_under limits.now inner bytes }
    ensures small { result ≤ 2 ^ 70 }
{
    let group = DrrLimits {
        queues: inner,
        ring: limits.ring,
        queue_bytes: limits.queue_bytes,
        class_bytes: limits.class_bytes,
        quantum: limits.quantum,
        max: limits.max,
    };
    let first = most_bytes(&group, bytes);
    let turns = first.div_ceil(u64::from(limits.quantum));
    let turn = turns * u64::from(limits.quantum) + u64::from(limits.max);
    u128::from(limits.queues - 1) * u128::from(turn) + u128::from(first)
}

/// The most bytes of requests that go up to one and with it, on a link of either kind.
fn most_request_bytes(limits: &LinkLimits, bytes: u32) -> u128
    requires { AreLinkLimits limits.now }
    ensures value { result ≡ requests_until limits.now.request limits.now.request_inner bytes }
    ensures small { result ≤ 2 ^ 70 }
{
    match limits.request_inner {
        None => u128::from(most_bytes(&limits.request, bytes)),
        Some(inner) => most_bytes_under(&limits.request, inner, bytes),
    }
}

/// The most nanoseconds that a request waits on a link, whatever others send, where so many bytes wait
/// in its queue up to it and with it when it is queued.
pub fn longest_request_wait(limits: &LinkLimits, bytes: u32) -> u128
    requires { AreLinkLimits limits.now }
    ensures { result ≡ request_bound limits.now bytes }
{
    let most = most_request_bytes(limits, bytes) + 2 * u128::from(limits.request.max);
    most * u128::from(limits.share) * u128::from(limits.ns_per_byte)
}

/// The most nanoseconds that a regular packet waits on a link, whatever others send, where so many bytes
/// wait in its queue up to it and with it when it is queued.
pub fn longest_regular_wait(limits: &LinkLimits, bytes: u32) -> u128
    requires { AreLinkLimits limits.now }
    ensures { result ≡ regular_bound limits.now bytes }
{
    let most = most_bytes(&limits.regular, bytes) + u64::from(limits.regular.max) + limits.burst;
    let cost = u128::from(most) * u128::from(limits.share) * u128::from(limits.ns_per_byte);
    cost.div_ceil(u128::from(limits.share - 1))
}

/// Whatever else comes, on a link where no start was missed up to a time, in nanoseconds, each
/// packet whose bound is over by then has started within it: the bound of a request and of a
/// regular packet for the bytes that waited in its queue up to it and with it, when it was
/// queued. On a link with two levels the queue of a request is the one of its two keys.
pub fn packets_start_in_time()
    ensures requests { (l : LinkLimits) (log : List Entry) (now until : ℕ) → AreLinkLimits l → IsLegal l log
        → MissesNone l until log → now < until → AreServed l Request (request_bound l) now log }
    ensures regulars { (l : LinkLimits) (log : List Entry) (now until : ℕ) → AreLinkLimits l → IsLegal l log
        → MissesNone l until log → now < until → AreServed l Regular (regular_bound l) now log }
{}

/// Between two places of a link's log, two keys of a class under which something waits all along
/// start about as many bytes as each other: one less than a quantum and two greatest packets
/// more. On a link with two levels nothing is said of requests.
pub fn keys_are_served_alike()
    ensures requests { (l : LinkLimits) (before between : List Entry) → AreLinkLimits l
        → IsLegal l (before ++ between)
        → AreServedAlike l Request (l.request.quantum + 2 * l.request.max) before between }
    ensures regulars { (l : LinkLimits) (before between : List Entry) → AreLinkLimits l
        → IsLegal l (before ++ between)
        → AreServedAlike l Regular (l.regular.quantum + 2 * l.regular.max) before between }
{}
