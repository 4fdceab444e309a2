// A host that sends files.
ghost use Rattle.std.specs.Prelude.{◌≡◌, ◌≤◌, ◌<◌, ◌+◌, ◌^◌, ◌==◌, if◌then◌else◌, ◌∷◌, [], ◌++◌, List, IfOk, OnErr, IfSome, IfNone, ℕ, true, false};
ghost use Rattle.std.specs.{List.cons_option, Option.option_map};
ghost use Rattle.tva_base.specs.Plan.{IsHostPlan};
ghost use Rattle.tva_shim.specs.Packets.{IsCarried, IsUpper};
ghost use Rattle.tva_host.specs.{Sending.intended, Sending.next_packet, Receiving.receipt_of};
ghost use Rattle.tva_host.specs.Calls.{Call, Intended, Injected, Received, history_of};
ghost use Rattle.tva_transfer.specs.Files.{Files, Act, Filed, Ticked, Came, after_upper, answer_to, answered, delivered, first_segment, heard, range_of, segment_due};
ghost use Rattle.tva_transfer.specs.Stands.{CourierData, Knows, StandsFor, call_with, known, sent_with};
ghost use Rattle.tva_transfer.specs.Sound.{IsNext, has_key};

use crate::transfers::Transfer;
use std::alloc::{AllocError, Global};
use std::collections::{BTreeMap, BTreeSet};
use std::marker::Model;
use tva_base::{Address, DataLine, Flow, HostPlan, Time, Upper};
use tva_host::{Host, Made, Receipt};
use tva_shim::{Carried, Packet};

/// What a host tells of a packet that came in, and the range that it delivers.
#[derive(Debug, Drop)]
pub struct Landed {
    pub receipt: Receipt,
    pub range: Option<DataLine>,
}

/// A host with its transfers. A tick finds its transfer by the destination, an acknowledgement by the
/// transfer's number, and a range by its source and transfer, however many there are.
#[derive(Drop)]
pub struct Courier {
    host: Host,
    transfers: Vec<Transfer>,
    due: BTreeSet<(Address, usize)>,
    nexts: BTreeMap<(Address, u16), u32>,
}

impl Model for Courier {
    ghost use Rattle.tva_transfer.specs.{Stands.CourierData, Stands.courier_data, Sound.IsSound};

    ghost Value = { CourierData };

    ghost view = { λ c. courier_data c.host c.transfers.items c.nexts.entries };

    ghost invariant = { λ c. IsSound c.transfers.items c.due.keys };
}

impl Courier {
    /// The courier at the host of that node by its plan, without transfers and calls. The error is want
    /// of memory.
    pub fn build(alloc: Global, node: u16, plan: &HostPlan) -> Result<Courier, AllocError>
        requires { IsHostPlan plan.now }
        ensures node { IfOk result (λ courier. courier.host.node ≡ node) }
        ensures plan { IfOk result (λ courier. courier.host.plan ≡ plan.now) }
        ensures last { IfOk result (λ courier. courier.host.last ≡ 0) }
        ensures stands { IfOk result (λ courier. StandsFor courier [] []) }
    {
        Ok(Courier {
            host: Host::build(alloc, node, plan)?,
            transfers: Vec::new(alloc),
            due: BTreeSet::new(alloc),
            nexts: BTreeMap::new(alloc),
        })
    }

    /// The packet of a send row to a destination, with that payload in bytes, and its shape. The
    /// destination is noted for the policy. The time is in nanoseconds, and times never fall. The error
    /// is want of memory.
    pub fn intend(
        &mut self,
        alloc: Global,
        now: Time,
        dst: Address,
        payload: u16,
    ) -> Result<Made, AllocError>
        requires time { self.old.host.last ≤ now.0 }
        requires payload { payload ≤ 1600 }
        ensures made { (calls : List Call) (acts : List Act) → StandsFor self.old calls acts
            → IfOk result (λ made. made
            ≡ intended self.old.host.node self.old.host.plan (history_of self.old.host.plan calls) now.0 dst payload Upper.Nothing) }
        ensures stands { (calls : List Call) (acts : List Act) → StandsFor self.old calls acts
            → IfOk result (λ made. StandsFor self.new (calls ++ Intended now.0 dst payload Upper.Nothing ∷ []) acts) }
        ensures same { (self.new.host.node ≡ self.old.host.node) × (self.new.host.plan ≡ self.old.host.plan) }
        ensures last { self.new.host.last ≤ now.0 }
        ensures refused { OnErr result ((calls : List Call) (acts : List Act) → StandsFor self.old calls acts
            → StandsFor self.new calls acts) }
    {
        self.host.intend(alloc, now, dst, payload)
    }

    /// A packet of the trace with that payload in bytes, which gets the next ordinal of the host. It takes
    /// no memory.
    pub fn inject(&mut self, flow: Flow, payload: u16, carried: Carried) -> Packet
        requires payload { payload ≤ 1600 }
        requires carried { IsCarried carried }
        ensures packet { (calls : List Call) (acts : List Act) → StandsFor self.old calls acts
            → result ≡ next_packet self.old.host.node (history_of self.old.host.plan calls) flow payload carried }
        ensures stands { (calls : List Call) (acts : List Act) → StandsFor self.old calls acts
            → StandsFor self.new (calls ++ Injected flow payload carried ∷ []) acts }
        ensures same { (self.new.host.node ≡ self.old.host.node) × (self.new.host.plan ≡ self.old.host.plan) }
        ensures last { self.new.host.last ≡ self.old.host.last }
    {
        self.host.inject(flow, payload, carried)
    }

    /// The first segment of a file of so many bytes to a destination, and its shape: a transfer begins.
    /// The destination is noted for the policy. A transfer's number is that of those before it, in 16
    /// bits. The time is in nanoseconds, and times never fall. The error is want of memory.
    pub fn file(
        &mut self,
        alloc: Global,
        now: Time,
        dst: Address,
        size: u32,
        segment: u16,
    ) -> Result<Made, AllocError>
        requires time { self.old.host.last ≤ now.0 }
        requires size { (1 ≤ size) × (size ≤ 100000000) }
        requires segment { (1 ≤ segment) × (segment ≤ 1500) }
        ensures made { (calls : List Call) (acts : List Act) → StandsFor self.old calls acts
            → IfOk result (λ made. made
            ≡ sent_with self.old.host calls now.0 dst (first_segment (known self.old.host acts) dst size segment)) }
        ensures stands { (calls : List Call) (acts : List Act) → StandsFor self.old calls acts
            → IfOk result (λ made. StandsFor self.new
            (calls ++ call_with now.0 dst (first_segment (known self.old.host acts) dst size segment) ∷ [])
            (acts ++ Filed dst size segment ∷ [])) }
        ensures same { (self.new.host.node ≡ self.old.host.node) × (self.new.host.plan ≡ self.old.host.plan) }
        ensures last { self.new.host.last ≤ now.0 }
        ensures refused { OnErr result ((calls : List Call) (acts : List Act) → StandsFor self.old calls acts
            → StandsFor self.new calls acts) }
    {
        let place = self.transfers.len();
        let transfer = Transfer::begun(dst, size, segment);
        self.transfers.reserve(1)?;
        self.due.insert((dst, place))?;
        match self
            .host
            .intend_with(alloc, now, dst, transfer.next_segment(place))
        {
            Ok(made) => {
                self.transfers.push_reserved(transfer);
                Ok(made)
            }
            Err(error) => {
                self.due.remove(&(dst, place));
                Err(error)
            }
        }
    }

    /// The next segment once more of the first transfer to a destination that isn't done, and its shape;
    /// none where there is no such transfer. The time is in nanoseconds, and times never fall. The error
    /// is want of memory.
    pub fn tick(
        &mut self,
        alloc: Global,
        now: Time,
        dst: Address,
    ) -> Result<Option<Made>, AllocError>
        requires time { self.old.host.last ≤ now.0 }
        ensures made { (calls : List Call) (acts : List Act) → StandsFor self.old calls acts
            → IfOk result (λ made. made
            ≡ option_map (sent_with self.old.host calls now.0 dst) (segment_due (known self.old.host acts) dst)) }
        ensures stands { (calls : List Call) (acts : List Act) → StandsFor self.old calls acts
            → IfOk result (λ made. StandsFor self.new
            (calls ++ cons_option (option_map (call_with now.0 dst) (segment_due (known self.old.host acts) dst)) [])
            (acts ++ Ticked dst ∷ [])) }
        ensures same { (self.new.host.node ≡ self.old.host.node) × (self.new.host.plan ≡ self.old.host.plan) }
        ensures last { self.new.host.last ≤ now.0 }
        ensures refused { OnErr result ((calls : List Call) (acts : List Act) → StandsFor self.old calls acts
            → StandsFor self.new calls acts) }
    {
        let Some(segment) = self.segment_due(dst) else {
            return Ok(None);
        };
        let made = self.host.intend_with(alloc, now, dst, segment)?;
        Ok(Some(made))
    }

    /// What the host makes of a packet that comes in, with at most one reply, and the range that it
    /// delivers: one that begins where those of its source and transfer before it end. A range is answered
    /// with how much was delivered, and an acknowledgement of more with the next segment, where there is
    /// one; the answer rides on the reply. A packet for another host is stray, whatever its upper part. The
    /// time is in nanoseconds, and times never fall. The error is want of memory.
    pub fn receive(
        &mut self,
        alloc: Global,
        now: Time,
        packet: Packet,
    ) -> Result<Landed, AllocError>
        requires time { self.old.host.last ≤ now.0 }
        ensures receipt { (calls : List Call) (acts : List Act) → StandsFor self.old calls acts
            → IfOk result (λ landed. landed.receipt
            ≡ receipt_of self.old.host.node self.old.host.plan (history_of self.old.host.plan calls) now.0 packet
            (answered self.old.host.plan.address (known self.old.host acts) packet)) }
        ensures range { (calls : List Call) (acts : List Act) → StandsFor self.old calls acts
            → IfOk result (λ landed. landed.range
            ≡ delivered self.old.host.plan.address (known self.old.host acts) packet) }
        ensures stands { (calls : List Call) (acts : List Act) → StandsFor self.old calls acts
            → IfOk result (λ landed. StandsFor self.new
            (calls ++ Received now.0 packet (answered self.old.host.plan.address (known self.old.host acts) packet) ∷ [])
            (acts ++ Came packet ∷ [])) }
        ensures same { (self.new.host.node ≡ self.old.host.node) × (self.new.host.plan ≡ self.old.host.plan) }
        ensures last { self.new.host.last ≤ now.0 }
        ensures refused { OnErr result ((calls : List Call) (acts : List Act) → StandsFor self.old calls acts
            → StandsFor self.new calls acts) }
    {
        let source = packet.flow.src;
        let upper = self.heard(&packet);
        let next = self.next_of(source, upper)?;
        let range = range_at(next, upper);
        let answer = self.answer_to(source, next, upper);
        let receipt = self.host.receive_with(alloc, now, packet, answer)?;
        self.keep(source, next, upper);
        Ok(Landed { receipt, range })
    }

    // The next segment of the first transfer to a destination that isn't done.
    fn segment_due(&self, dst: Address) -> Option<Upper>
        ensures segment { (files : Files) → Knows self.now files → result ≡ segment_due files dst }
        ensures fits { IfSome result IsUpper }
    {
        let place = first_due(&self.due, dst)?;
        Some(self.transfers[place].next_segment(place))
    }

    // The upper part of a packet for this host.
    fn heard(&self, packet: &Packet) -> Upper
        ensures heard { result ≡ heard self.now.host.plan.address packet.now }
        ensures fits { IsUpper result }
    {
        if self.host.is_for(packet.flow.dst) {
            packet.upper
        } else {
            Upper::Nothing
        }
    }

    // Where the next range begins of what the source sends. There is room then for where it begins next.
    fn next_of(&mut self, source: Address, upper: Upper) -> Result<u32, AllocError>
        ensures knows { (files : Files) → Knows self.old files → Knows self.new files }
        ensures next { IfOk result (λ next. IsNext self.new.nexts source upper next) }
        ensures rest { self.new.host ≡ self.old.host }
    {
        let Upper::Data { transfer, .. } = upper else {
            return Ok(0);
        };
        if let Some(next) = self.nexts.get(&(source, transfer)).copied() {
            return Ok(next);
        }
        self.nexts.insert((source, transfer), 0)?;
        Ok(0)
    }

    // What an upper part of a source is answered with.
    fn answer_to(&self, source: Address, next: u32, upper: Upper) -> Upper
        requires upper { IsUpper upper }
        requires next { IsNext self.now.nexts source upper next }
        ensures answer { (files : Files) → Knows self.now files → result ≡ answer_to files source upper }
        ensures fits { IsUpper result }
    {
        match upper {
            Upper::Nothing => Upper::Nothing,
            Upper::Data {
                transfer,
                first,
                bytes,
            } => Upper::Ack {
                transfer,
                next: next_behind(next, first, bytes),
            },
            Upper::Ack { transfer, next } => self.segment_behind(source, transfer, next),
        }
    }

    // The segment behind what the source acknowledges of a transfer.
    fn segment_behind(&self, source: Address, transfer: u16, next: u32) -> Upper
        ensures segment { (files : Files) → Knows self.now files
            → result ≡ answer_to files source (Upper.Ack transfer next) }
        ensures fits { IsUpper result }
    {
        let place = usize::from(transfer);
        let Some(sent) = self.transfers.get(place) else {
            return Upper::Nothing;
        };
        if !sent.is_more(source, next) || next >= sent.size {
            return Upper::Nothing;
        }
        sent.acknowledged(next).next_segment(place)
    }

    // Keeps what an upper part of a source says.
    fn keep(&mut self, source: Address, next: u32, upper: Upper)
        requires upper { IsUpper upper }
        requires next { IsNext self.old.nexts source upper next }
        ensures knows { (files : Files) → Knows self.old files → Knows self.new (after_upper files source upper) }
        ensures rest { self.new.host ≡ self.old.host }
    {
        match upper {
            Upper::Nothing => {}
            Upper::Data {
                transfer,
                first,
                bytes,
            } => self.deliver(source, next, transfer, first, bytes),
            Upper::Ack { transfer, next } => self.acknowledge(source, transfer, next),
        }
    }

    // Keeps where the next range begins, once a range came that is the next one.
    fn deliver(&mut self, source: Address, next: u32, transfer: u16, first: u32, bytes: u16)
        requires upper { IsUpper (Upper.Data transfer first bytes) }
        requires next { IsNext self.old.nexts source (Upper.Data transfer first bytes) next }
        ensures knows { (files : Files) → Knows self.old files
            → Knows self.new (after_upper files source (Upper.Data transfer first bytes)) }
        ensures rest { self.new.host ≡ self.old.host }
    {
        let behind = next_behind(next, first, bytes);
        if behind == next {
            return;
        }
        if let Some(kept) = self.nexts.get_mut(&(source, transfer)) {
            *kept = behind;
        }
    }

    // Keeps what is acknowledged. A transfer of which all is acknowledged isn't due any more.
    fn acknowledge(&mut self, source: Address, transfer: u16, next: u32)
        ensures knows { (files : Files) → Knows self.old files
            → Knows self.new (after_upper files source (Upper.Ack transfer next)) }
        ensures rest { self.new.host ≡ self.old.host }
    {
        let place = usize::from(transfer);
        if place >= self.transfers.len() {
            return;
        }
        let sent = self.transfers[place];
        if !sent.is_more(source, next) {
            return;
        }
        self.transfers[place] = sent.acknowledged(next);
        if next >= sent.size {
            self.due.remove(&(sent.dst, place));
        }
    }
}

// The range that an upper part delivers, by where the next one begins.
fn range_at(next: u32, upper: Upper) -> Option<DataLine>
    ensures { (v : CourierData) (files : Files) (source : Address) → Knows v files → IsNext v.nexts source upper next
        → result ≡ range_of files source upper }
{
    let Upper::Data {
        transfer,
        first,
        bytes,
    } = upper
    else {
        return None;
    };
    if first != next {
        return None;
    }
    Some(DataLine {
        transfer,
        first,
        bytes,
    })
}

// Where the next range begins after one that came: behind it, where it is the next one.
fn next_behind(next: u32, first: u32, bytes: u16) -> u32
    requires { first + bytes < 2 ^ 32 }
    ensures { result ≡ if first == next then next + bytes else next }
{
    if first == next {
        next + u32::from(bytes)
    } else {
        next
    }
}

// The first place of those that are due to a destination.
fn first_due(due: &BTreeSet<(Address, usize)>, dst: Address) -> Option<usize>
    ensures found { IfSome result (λ place. has_key due.now.keys dst place ≡ true) }
    ensures first { (place : ℕ) → has_key due.now.keys dst place ≡ true → IfSome result (λ first. first ≤ place) }
    ensures none { IfNone result ((place : ℕ) → has_key due.now.keys dst place ≡ false) }
{
    let (to, place) = *due.range((dst, 0)..).next()?;
    if to != dst {
        return None;
    }
    Some(place)
}
