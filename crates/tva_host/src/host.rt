// A host.
ghost use Rattle.std.specs.Prelude.{◌≡◌, ◌≤◌, ◌+◌, min, ◌==◌, List, [], ◌∷◌, ◌++◌, IfOk, IfSome, OnErr};
ghost use Rattle.tva_base.specs.{Plan.IsHostPlan, Versions.IsVersion};
ghost use Rattle.tva_shim.specs.{Shims.IsReturn, Packets.IsCarried, Packets.IsUpper, Packets.Fills, Packets.upper_size};
ghost use Rattle.tva_shim.specs.Shows.{back_in};
ghost use Rattle.tva_policy.specs.Grants.{Sent};
ghost use Rattle.tva_sender.specs.Showable.{IsShowable};
ghost use Rattle.tva_host.specs.History.{History, with_deed, with_packet, with_prepared};
ghost use Rattle.tva_host.specs.Sending.{next_packet, next_with, next_shape, intended};
ghost use Rattle.tva_host.specs.Receiving.{taken_or_ignored, became_of, after_back, claim_in, answer_to_claim, after_answer, brought_by, reply_of, after_reply, receipt_of};
ghost use Rattle.tva_host.specs.Calls.{Call, Intended, Injected, Received, history_of};
ghost use Rattle.tva_host.specs.Stands.{Keeps, StandsFor, with_room, at_time};

use crate::made::{Made, Receipt};
use crate::packets::{carried_by, kind_shown_of, shim_of};
use crate::received::{brought_by, claim_in, granted, notice_for, return_size, stray, what_of};
use std::alloc::{AllocError, Global};
use std::marker::Model;
use tva_base::{
    Address, BackKind, Flow, HostPlan, Listed, Name, PacketId, PolicyPlan, Time, Upper,
};
use tva_policy::Policy;
use tva_sender::{Sender, Shape};
use tva_shim::{Carried, Packet, ReturnInfo, upper_size};

/// How many nonces there are: they have 48 bits.
const NONCES: u64 = 1 << 48;

/// What a host keeps: its node's number and its plan, the ordinal of its next packet, the nonce that it
/// offers next, its last time, its policy, and its sender. Contracts speak of all calls on it, for which
/// these stand.
#[derive(Drop)]
pub struct Host {
    node: u16,
    plan: HostPlan,
    next: u64,
    offered: u64,
    last: Time,
    policy: Policy,
    sender: Sender,
}

impl Model for Host {
    ghost use Rattle.tva_host.specs.{Stands.HostData, Stands.host_data, Sound.HasHistory};

    ghost Value = { HostData };

    ghost view = { λ h. host_data h.node h.plan h.next h.offered h.last.0 h.policy h.sender };

    ghost invariant = { λ h. HasHistory (host_data h.node h.plan h.next h.offered h.last.0 h.policy h.sender) };
}

impl Host {
    /// The host of that node by its plan, without calls. The error is want of memory.
    pub fn build(alloc: Global, node: u16, plan: &HostPlan) -> Result<Host, AllocError>
        requires { IsHostPlan plan.now }
        ensures node { IfOk result (λ host. host.node ≡ node) }
        ensures plan { IfOk result (λ host. host.plan ≡ plan.now) }
        ensures last { IfOk result (λ host. host.last ≡ 0) }
        ensures stands { IfOk result (λ host. StandsFor host []) }
    {
        Ok(Host {
            node,
            plan: copied(alloc, plan)?,
            next: 1,
            offered: plan.nonce,
            last: Time(0),
            policy: Policy::build(alloc, &plan.policy)?,
            sender: Sender::build(alloc, plan.margin, plan.retry, plan.version),
        })
    }

    /// A packet of the trace with that payload in bytes, which gets the next ordinal of the host and
    /// passed no router. Ordinals count from 1, and stand still at the end of 64 bits. It takes no memory.
    pub fn inject(&mut self, flow: Flow, payload: u16, carried: Carried) -> Packet
        requires payload { payload ≤ 1600 }
        requires carried { IsCarried carried }
        ensures packet { (calls : List Call) → StandsFor self.old calls
            → result ≡ next_packet self.old.node (history_of self.old.plan calls) flow payload carried }
        ensures stands { (calls : List Call) → StandsFor self.old calls
            → StandsFor self.new (calls ++ Injected flow payload carried ∷ []) }
        ensures after { self.new ≡ record self.old { next = min (self.old.next + 1) 18446744073709551615 } }
    {
        self.number(flow, payload, carried, Upper::Nothing)
    }

    /// The packet of a send row to a destination, with that payload in bytes, and its shape. The
    /// destination is noted for the policy. The time is in nanoseconds, and times never fall. The
    /// error is want of memory.
    pub fn intend(
        &mut self,
        alloc: Global,
        now: Time,
        dst: Address,
        payload: u16,
    ) -> Result<Made, AllocError>
        requires time { self.old.last ≤ now.0 }
        requires payload { payload ≤ 1600 }
        ensures made { (calls : List Call) → StandsFor self.old calls
            → IfOk result (λ made. made
            ≡ intended self.old.node self.old.plan (history_of self.old.plan calls) now.0 dst payload Upper.Nothing) }
        ensures stands { (calls : List Call) → StandsFor self.old calls
            → IfOk result (λ made. StandsFor self.new (calls ++ Intended now.0 dst payload Upper.Nothing ∷ [])) }
        ensures same { (self.new.node ≡ self.old.node) × (self.new.plan ≡ self.old.plan) }
        ensures last { self.new.last ≡ now.0 }
        ensures refused { OnErr result ((calls : List Call) → StandsFor self.old calls → StandsFor self.new calls) }
        ensures err { OnErr result (self.new ≡ with_room self.new.sender (at_time now.0 self.old)) }
    {
        self.send(alloc, now, dst, payload, Upper::Nothing)
    }

    /// A packet to a destination with an upper part, whose bytes are its payload, and its shape. The
    /// destination is noted for the policy. The time is in nanoseconds, and times never fall. The error is
    /// want of memory.
    pub fn intend_with(
        &mut self,
        alloc: Global,
        now: Time,
        dst: Address,
        upper: Upper,
    ) -> Result<Made, AllocError>
        requires time { self.old.last ≤ now.0 }
        requires upper { IsUpper upper }
        ensures made { (calls : List Call) → StandsFor self.old calls
            → IfOk result (λ made. made
            ≡ intended self.old.node self.old.plan (history_of self.old.plan calls) now.0 dst (upper_size upper) upper) }
        ensures stands { (calls : List Call) → StandsFor self.old calls
            → IfOk result (λ made. StandsFor self.new (calls ++ Intended now.0 dst (upper_size upper) upper ∷ [])) }
        ensures same { (self.new.node ≡ self.old.node) × (self.new.plan ≡ self.old.plan) }
        ensures last { self.new.last ≡ now.0 }
        ensures refused { OnErr result ((calls : List Call) → StandsFor self.old calls → StandsFor self.new calls) }
        ensures err { OnErr result (self.new ≡ with_room self.new.sender (at_time now.0 self.old)) }
    {
        self.send(alloc, now, dst, upper_size(upper), upper)
    }

    // The packet to a destination with that payload and upper part.
    fn send(
        &mut self,
        alloc: Global,
        now: Time,
        dst: Address,
        payload: u16,
        upper: Upper,
    ) -> Result<Made, AllocError>
        requires time { self.old.last ≤ now.0 }
        requires payload { payload ≤ 1600 }
        requires upper { IsUpper upper }
        requires fills { Fills upper payload }
        ensures made { (calls : List Call) → StandsFor self.old calls
            → IfOk result (λ made. made
            ≡ intended self.old.node self.old.plan (history_of self.old.plan calls) now.0 dst payload upper) }
        ensures stands { (calls : List Call) → StandsFor self.old calls
            → IfOk result (λ made. StandsFor self.new (calls ++ Intended now.0 dst payload upper ∷ [])) }
        ensures same { (self.new.node ≡ self.old.node) × (self.new.plan ≡ self.old.plan) }
        ensures last { self.new.last ≡ now.0 }
        ensures refused { OnErr result ((calls : List Call) → StandsFor self.old calls → StandsFor self.new calls) }
        ensures err { OnErr result (self.new ≡ with_room self.new.sender (at_time now.0 self.old)) }
    {
        let version = self.version();
        self.last = now;
        self.note(alloc, dst)?;
        let shape = self.prepare(now, dst, u32::from(payload));
        let kind = kind_shown_of(&shape);
        let flow = self.flow_to(dst);
        let packet = self.number(flow, payload, carried_by(version, shape), upper);
        Ok(Made {
            packet,
            shape: kind,
        })
    }

    /// What the host makes of a packet that comes in, with at most one reply. The steps are these, in
    /// this order: a packet for another host is stray; return info is taken; a marked packet that
    /// shows a grant is answered with a notice, where it has no return info; a request, or a renewal
    /// that passed all its routers, is answered with a grant where the policy grants it. The time is
    /// in nanoseconds, and times never fall. The error is want of memory.
    pub fn receive(
        &mut self,
        alloc: Global,
        now: Time,
        packet: Packet,
    ) -> Result<Receipt, AllocError>
        requires time { self.old.last ≤ now.0 }
        ensures receipt { (calls : List Call) → StandsFor self.old calls
            → IfOk result (λ receipt. receipt
            ≡ receipt_of self.old.node self.old.plan (history_of self.old.plan calls) now.0 packet Upper.Nothing) }
        ensures stands { (calls : List Call) → StandsFor self.old calls
            → IfOk result (λ receipt. StandsFor self.new (calls ++ Received now.0 packet Upper.Nothing ∷ [])) }
        ensures same { (self.new.node ≡ self.old.node) × (self.new.plan ≡ self.old.plan) }
        ensures last { self.new.last ≡ now.0 }
        ensures refused { OnErr result ((calls : List Call) → StandsFor self.old calls → StandsFor self.new calls) }
        ensures err { OnErr result (self.new ≡ with_room self.new.sender (at_time now.0 self.old)) }
    {
        self.receive_with(alloc, now, packet, Upper::Nothing)
    }

    /// The same with an upper part that is to be answered. It rides on the reply, whose payload it is;
    /// where the packet has no other answer, the reply has no return info. A packet for another host is
    /// answered with nothing.
    pub fn receive_with(
        &mut self,
        alloc: Global,
        now: Time,
        packet: Packet,
        upper: Upper,
    ) -> Result<Receipt, AllocError>
        requires time { self.old.last ≤ now.0 }
        requires upper { IsUpper upper }
        ensures receipt { (calls : List Call) → StandsFor self.old calls
            → IfOk result (λ receipt. receipt
            ≡ receipt_of self.old.node self.old.plan (history_of self.old.plan calls) now.0 packet upper) }
        ensures stands { (calls : List Call) → StandsFor self.old calls
            → IfOk result (λ receipt. StandsFor self.new (calls ++ Received now.0 packet upper ∷ [])) }
        ensures same { (self.new.node ≡ self.old.node) × (self.new.plan ≡ self.old.plan) }
        ensures last { self.new.last ≡ now.0 }
        ensures refused { OnErr result ((calls : List Call) → StandsFor self.old calls → StandsFor self.new calls) }
        ensures err { OnErr result (self.new ≡ with_room self.new.sender (at_time now.0 self.old)) }
    {
        self.last = now;
        if !self.is_for(packet.flow.dst) {
            return Ok(stray());
        }
        let src = packet.flow.src;
        self.make_room()?;
        let answer = self.answer(alloc, src, &packet.carried)?;
        let back = self.take_back(src, &packet.carried);
        let reply = self.reply(now, src, brought_by(upper, answer), upper);
        Ok(Receipt {
            what: what_of(&packet.carried),
            back,
            reply,
        })
    }

    // The next packet of the host.
    fn number(&mut self, flow: Flow, payload: u16, carried: Carried, upper: Upper) -> Packet
        requires payload { payload ≤ 1600 }
        requires carried { IsCarried carried }
        requires upper { IsUpper upper }
        requires fills { Fills upper payload }
        ensures packet { (h : History) → Keeps self.old h
            → result ≡ next_with self.old.node h flow payload carried upper }
        ensures keeps { (h : History) → Keeps self.old h → Keeps self.new (with_packet h) }
        ensures rest { self.new ≡ record self.old { next = min (self.old.next + 1) 18446744073709551615 } }
    {
        let id = PacketId {
            node: self.node,
            ordinal: self.next,
        };
        self.next = self.next.saturating_add(1);
        Packet::made_with(id, flow, payload, carried, upper)
    }

    // Notes a send row, when there is room for its peer.
    fn note(&mut self, alloc: Global, dst: Address) -> Result<(), AllocError>
        ensures keeps { (h : History) → Keeps self.old h
            → IfOk result (λ done. Keeps self.new (with_deed (Sent dst) h)) }
        ensures room { IfOk result (λ done. 1 ≤ self.new.sender.spare) }
        ensures rest { self.new ≡ record (with_room self.new.sender self.old) { policy = self.new.policy } }
        ensures refused { OnErr result ((h : History) → Keeps self.old h → Keeps self.new h) }
        ensures err { OnErr result (self.new ≡ with_room self.new.sender self.old) }
    {
        self.make_room()?;
        self.policy.sent(alloc, dst)
    }

    // Makes room for a peer that isn't known yet.
    fn make_room(&mut self) -> Result<(), AllocError>
        ensures keeps { (h : History) → Keeps self.old h → Keeps self.new h }
        ensures room { IfOk result (λ done. 1 ≤ self.new.sender.spare) }
        ensures rest { self.new ≡ with_room self.new.sender self.old }
    {
        self.sender.reserve(1)
    }

    // The version of its shims.
    fn version(&self) -> u8
        ensures version { result ≡ self.now.plan.version }
        ensures known { IsVersion result }
    {
        self.plan.version
    }

    /// Whether a destination is the host.
    pub fn is_for(&self, dst: Address) -> bool
        ensures { result ≡ (dst.0 == self.now.plan.address.0) }
    {
        dst == self.plan.address
    }

    fn flow_to(&self, dst: Address) -> Flow
        ensures { result ≡ record { src = self.now.plan.address; dst = dst } }
    {
        Flow {
            src: self.plan.address,
            dst,
        }
    }

    // Prepares a packet for a peer with a body of so many bytes, at the last time.
    fn prepare(&mut self, now: Time, dst: Address, body: u32) -> Shape
        requires time { self.old.last ≡ now.0 }
        requires room { 1 ≤ self.old.sender.spare }
        requires body { body ≤ 1800 }
        ensures shape { (h : History) → Keeps self.old h → result ≡ next_shape self.old.plan h now.0 dst body }
        ensures keeps { (h : History) → Keeps self.old h → Keeps self.new (with_prepared self.old.plan.version now.0 dst result body h) }
        ensures showable { IsShowable self.old.plan.version result }
        ensures rest { self.new ≡ record self.old { offered = self.new.offered; sender = self.new.sender } }
    {
        let offered = self.offered;
        self.offered = (offered + 1) % NONCES;
        self.sender.prepare(now, dst, body, offered)
    }

    // What the host answers to what a packet carries. The policy decides on a claim, whose tags and
    // pre-capabilities aren't gathered for one that grants nobody.
    fn answer(
        &mut self,
        alloc: Global,
        src: Address,
        carried: &Carried,
    ) -> Result<Option<ReturnInfo>, AllocError>
        ensures answer { (h : History) → Keeps self.old h
            → IfOk result (λ answer. answer ≡ answer_to_claim self.old.plan h.deeds src carried.now (claim_in carried.now)) }
        ensures keeps { (h : History) → Keeps self.old h
            → IfOk result (λ answer. Keeps self.new (after_answer self.old.plan src carried.now h)) }
        ensures fits { IfOk result (λ answer. IfSome answer (IsReturn self.old.plan.version)) }
        ensures rest { self.new ≡ record self.old { policy = self.new.policy } }
        ensures err { OnErr result (self.new ≡ self.old) }
    {
        if self.policy.grants_nobody() {
            return Ok(notice_for(carried));
        }
        let Some(claim) = claim_in(carried) else {
            return Ok(notice_for(carried));
        };
        let rights = self.policy.decide(alloc, src, claim.tags.as_slice())?;
        Ok(granted(rights, &claim.precaps))
    }

    // Takes the return info of what a packet carries.
    fn take_back(&mut self, src: Address, carried: &Carried) -> BackKind
        ensures became { (h : History) → Keeps self.old h
            → result ≡ became_of self.old.plan.version h.contacts src (back_in carried.now) }
        ensures keeps { (h : History) → Keeps self.old h → Keeps self.new (after_back self.old.plan.version src (back_in carried.now) h) }
        ensures rest { self.new ≡ record self.old { sender = self.new.sender } }
        ensures room { self.new.sender.spare ≡ self.old.sender.spare }
    {
        match carried {
            Carried::Nothing | Carried::Malformed(_) => BackKind::Nothing,
            Carried::Shim(shim) => self.hear(src, &shim.back),
        }
    }

    // Hands return info of a source to the sender.
    fn hear(&mut self, src: Address, back: &ReturnInfo) -> BackKind
        requires { IsReturn 2 back.now }
        ensures became { (h : History) → Keeps self.old h
            → result ≡ became_of self.old.plan.version h.contacts src back.now }
        ensures keeps { (h : History) → Keeps self.old h
            → Keeps self.new (after_back self.old.plan.version src back.now h) }
        ensures rest { self.new ≡ record self.old { sender = self.new.sender } }
        ensures room { self.new.sender.spare ≡ self.old.sender.spare }
    {
        match back {
            ReturnInfo::Nothing => BackKind::Nothing,
            ReturnInfo::Notice => {
                self.sender.demoted(src);
                BackKind::Notice
            }
            ReturnInfo::Grant { rights, caps } => {
                let is_taken = self.sender.granted(src, *rights, caps);
                taken_or_ignored(is_taken)
            }
        }
    }

    // The reply that brings an answer and an upper part to the source, at the last time.
    fn reply(
        &mut self,
        now: Time,
        src: Address,
        answer: Option<ReturnInfo>,
        upper: Upper,
    ) -> Option<Made>
        requires time { self.old.last ≡ now.0 }
        requires room { 1 ≤ self.old.sender.spare }
        requires fits { IfSome answer (IsReturn self.old.plan.version) }
        requires upper { IsUpper upper }
        ensures reply { (h : History) → Keeps self.old h
            → result ≡ reply_of self.old.node self.old.plan h now.0 src answer upper }
        ensures keeps { (h : History) → Keeps self.old h
            → Keeps self.new (after_reply self.old.plan now.0 src answer upper h) }
        ensures rest { (self.new.node ≡ self.old.node) × (self.new.plan ≡ self.old.plan) × (self.new.last ≡ self.old.last) }
    {
        let back = answer?;
        let version = self.version();
        let payload = upper_size(upper);
        let shape = self.prepare(now, src, return_size(version, &back) + u32::from(payload));
        let kind = kind_shown_of(&shape);
        let flow = self.flow_to(src);
        let carried = Carried::Shim(shim_of(version, shape, back));
        let packet = self.number(flow, payload, carried, upper);
        Some(Made {
            packet,
            shape: kind,
        })
    }
}

// The same plan once more.
fn copied(alloc: Global, plan: &HostPlan) -> Result<HostPlan, AllocError>
    ensures { IfOk result (λ copy. copy ≡ plan.now) }
{
    Ok(HostPlan {
        name: Name::new(plan.name.as_str()),
        address: plan.address,
        nonce: plan.nonce,
        margin: plan.margin,
        retry: plan.retry,
        version: plan.version,
        policy: PolicyPlan {
            kind: plan.policy.kind,
            rights: plan.policy.rights,
            grants: plan.policy.grants,
            deny: Listed::new(plan.policy.deny.as_slice().to_vec(alloc)?),
            deny_tags: Listed::new(plan.policy.deny_tags.as_slice().to_vec(alloc)?),
        },
        uplink: plan.uplink,
    })
}

fn taken_or_ignored(is_taken: bool) -> BackKind
    ensures { result ≡ taken_or_ignored is_taken }
{
    if is_taken {
        BackKind::Grant
    } else {
        BackKind::Ignored
    }
}
