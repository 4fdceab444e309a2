// A lane for each source of a node's inputs.
ghost use Rattle.std.specs.Prelude.{◌≡◌, ◌≢◌, ◌≤◌, ◌<◌, ◌+◌, ◌*◌, ◌^◌, ◌∷◌, ℕ, List, [], None, false, true, get_or, insert, length, map, slice_index_or, IfOk, OnOk};
ghost use Rattle.std.specs.VecDeque.{deque_capacity, deque_len};
ghost use Rattle.tva_index.specs.KeyRing.{place_in, ring};
ghost use Rattle.tva_rows.specs.Brief.{IsWhatHeld};
ghost use Rattle.tva_rows.specs.declared.rows.Row.{Row};
ghost use Rattle.tva_run.specs.declared.kinds.Input.{Input};
ghost use Rattle.tva_run.specs.declared.kinds.Input.TheVariants.{FromTrace};
ghost use Rattle.tva_run.specs.Joins.{IsInOrder, precedes, put_in};
ghost use Rattle.tva_run.specs.Entries.{input_source, input_time};
ghost use Rattle.tva_waiting.specs.Inputs.{arrived, first_time, is_row_first};
ghost use Rattle.tva_waiting.specs.Queues.{AreQueues, IsNextIn, all_in, head_at, head_of, never, no_queue};
ghost use Rattle.tva_waiting.specs.Lanes.{AreWaiting, HasRoomAt, HaveGiven, Hold, IsLaneOf, flight_source, flight_time, lane_queue, queues_in, queues_of, row_in, rows_queue, sources_of, turn_source, turn_time, waiting_in};

use crate::flights::Flight;
use std::alloc::{AllocError, Global};
use std::cmp;
use std::collections::VecDeque;
use std::mem::size_of;
use tva_index::{KeyRing, Lowest};
use tva_rows::{BriefWhat, PackedRows};

/// When a row comes, in nanoseconds, its node, and what it asks, in brief. Rows are the most that wait, and are
/// short.
#[derive(Clone, Copy)]
pub(crate) struct Turn {
    pub time: u64,
    pub node: u16,
    pub what: BriefWhat,
}

// A million turns take 32 MB.
const _: () = prove!(size_of::<Turn>() <= 32);

/// The packets on their way that a link brings, the first in front, and the most that waited since the lane ran
/// empty.
#[derive(Drop)]
pub(crate) struct Lane {
    pub link: u16,
    pub flights: VecDeque<Flight>,
    pub most: usize,
}

/// The inputs of a node that are not taken yet: rows, with the layouts of their shims one behind another, and a lane
/// for each link that brought a packet. The sources find a lane by its link, and the heads say when the first input
/// of each source comes: of the rows at place 0, of a lane at one more than its own place.
#[derive(Drop)]
pub(crate) struct Lanes {
    pub rows: VecDeque<Turn>,
    pub layouts: Vec<u8>,
    pub list: Vec<Lane>,
    pub sources: KeyRing,
    pub heads: Lowest<u128>,
    pub places: u32,
    pub alloc: Global,
}

// There are places for the rows and for one link at first.
const FIRST: u32 = 2;

// So many places are worth giving back.
const MANY: usize = 4_096;

// Of a source of which nothing waits.
const NEVER: u128 = u128::MAX;

impl Lanes {
    /// Nothing waits. The error is want of memory.
    pub fn new(alloc: Global) -> Result<Lanes, AllocError>
        ensures waiting { IfOk result AreWaiting }
        ensures nothing { IfOk result (λ w. waiting_in w ≡ []) }
    {
        let rows = VecDeque::new(alloc);
        let list = Vec::new(alloc);
        let sources = sources_of(alloc, &list, FIRST)?;
        let heads = heads_of(alloc, &rows, &list, FIRST)?;
        Ok(Lanes {
            rows,
            layouts: Vec::new(alloc),
            list,
            sources,
            heads,
            places: FIRST,
            alloc,
        })
    }

    // The place of a link's lane. It is made where there is none. The error is want of memory.
    fn lane_of(&mut self, link: u16) -> Result<usize, AllocError>
        requires { AreWaiting self.old }
        ensures same { Hold self.new (waiting_in self.old) }
        ensures there { IfOk result (λ place. IsLaneOf self.new.list.items link place) }
    {
        let source = u32::from(link) + 1;
        if let Some(place) = self.sources.place(source) {
            return Ok(place - 1);
        }
        self.make_room(source)?;
        self.list.push(Lane {
            link,
            flights: VecDeque::new(self.alloc),
            most: 0,
        })?;
        self.sources.push(source);
        Ok(self.list.len() - 1)
    }

    // Makes a place for one more source. The error is want of memory.
    fn make_room(&mut self, source: u32) -> Result<(), AllocError>
        requires waiting { AreWaiting self.old }
        requires new { place_in source self.old.sources.keys ≡ None }
        ensures waiting { AreWaiting self.new }
        ensures room { OnOk result (length (queues_in self.new) < self.new.places) }
        ensures same { (self.new.rows ≡ self.old.rows) × (self.new.layouts ≡ self.old.layouts) × (self.new.list ≡ self.old.list) }
    {
        if self.list.len() + 1 < self.places as usize {
            return Ok(());
        }
        let places = 2 * self.places;
        let sources = sources_of(self.alloc, &self.list, places)?;
        let heads = heads_of(self.alloc, &self.rows, &self.list, places)?;
        self.sources = sources;
        self.heads = heads;
        self.places = places;
        Ok(())
    }

    /// The place of a link's lane, with room for one more packet. The error is want of memory.
    #[inline(always)]
    pub fn room_for(&mut self, link: u16) -> Result<usize, AllocError>
        requires { AreWaiting self.old }
        ensures same { Hold self.new (waiting_in self.old) }
        ensures there { IfOk result (λ place. IsLaneOf self.new.list.items link place) }
        ensures room { IfOk result (λ place. HasRoomAt self.new.list.items place) }
    {
        let place = self.lane_of(link)?;
        self.list[place].flights.reserve(1)?;
        Ok(place)
    }

    /// Puts a packet at its place in its link's lane, where there is room.
    #[inline(always)]
    pub fn put_flight(&mut self, place: usize, flight: Flight)
        requires waiting { AreWaiting self.old }
        requires lane { IsLaneOf self.old.list.items flight.link place }
        requires room { HasRoomAt self.old.list.items place }
        ensures { Hold self.new (put_in input_time input_source (arrived flight) (waiting_in self.old)) }
    {
        let time = flight.arrive().0;
        let link = flight.link();
        let at = put_in_lane(&mut self.list[place], flight);
        if at == 0 {
            self.heads
                .put(place as u32 + 1, key_of(time, u32::from(link) + 1));
        }
    }

    /// The turn of the row at a place among others in little memory. Its layout is held from then on, and there is
    /// room for the turn. The error is want of memory.
    pub fn turn_of(&mut self, rows: &PackedRows, place: usize) -> Result<Turn, AllocError>
        requires waiting { AreWaiting self.old }
        requires within { place < length rows.now }
        ensures same { Hold self.new (waiting_in self.old) }
        ensures held { IfOk result (λ turn. IsWhatHeld self.new.layouts.items turn.what) }
        ensures row { (row : Row) → IfOk result (λ turn. row_in self.new.layouts.items turn
            ≡ FromTrace (slice_index_or rows.now place row)) }
        ensures room { OnOk result (deque_len self.new.rows + 1 ≤ deque_capacity self.new.rows) }
    {
        self.forget_layouts();
        let what = rows.brief_at(place, &mut self.layouts)?;
        self.rows.reserve(1)?;
        Ok(Turn {
            time: rows.time_at(place).0,
            node: rows.node_at(place),
            what,
        })
    }

    /// Puts a row at its place among rows, where there is room and its layout is held.
    pub fn put_turn(&mut self, turn: Turn)
        requires waiting { AreWaiting self.old }
        requires held { IsWhatHeld self.old.layouts.items turn.what }
        requires room { deque_len self.old.rows + 1 ≤ deque_capacity self.old.rows }
        ensures { Hold self.new (put_in input_time input_source (row_in self.old.layouts.items turn) (waiting_in self.old)) }
    {
        let time = turn.time;
        let at = put_in_turn(&mut self.rows, turn);
        if at == 0 {
            self.heads.put(0, key_of(time, 0));
        }
    }

    // The place of the source whose first input is the next.
    #[inline(always)]
    fn next(&self) -> usize
        requires { AreWaiting self.now }
        ensures some { (input : Input) (rest : List Input) → (get_or (queues_in self.now) result no_queue).inputs ≡ input ∷ rest
            → IsNextIn (queues_in self.now) (get_or (queues_in self.now) result no_queue) input rest }
        ensures none { (get_or (queues_in self.now) result no_queue).inputs ≡ [] → all_in (queues_in self.now) ≡ [] }
    {
        match self.heads.least() {
            Some(place) => place as usize,
            None => unreachable!(),
        }
    }

    /// When the next input comes, in nanoseconds.
    #[inline(always)]
    pub fn first_time(&self) -> Option<u64>
        requires { AreWaiting self.now }
        ensures { result ≡ first_time (waiting_in self.now) }
    {
        let place = self.next();
        if place == 0 {
            return first_row(&self.rows);
        }
        if place > self.list.len() {
            return None;
        }
        first_flight(&self.list[place - 1].flights)
    }

    /// Whether the next input is a row.
    #[inline(always)]
    pub fn is_row(&self) -> bool
        requires { AreWaiting self.now }
        ensures { result ≡ is_row_first (waiting_in self.now) }
    {
        self.next() == 0 && !self.rows.is_empty()
    }

    /// Takes the next input, which is a row.
    #[inline(always)]
    pub fn take_turn(&mut self) -> Turn
        requires waiting { AreWaiting self.old }
        requires row { is_row_first (waiting_in self.old) ≡ true }
        ensures taken { HaveGiven self.old (row_in self.old.layouts.items result) self.new }
        ensures held { IsWhatHeld self.new.layouts.items result.what }
        ensures layouts { self.new.layouts ≡ self.old.layouts }
    {
        let Some(turn) = self.rows.pop_front() else {
            unreachable!()
        };
        let head = rows_head(&self.rows);
        self.heads.put(0, head);
        turn
    }

    /// Takes the next input, which is a packet that arrives.
    #[inline(always)]
    pub fn take_flight(&mut self) -> Flight
        requires waiting { AreWaiting self.old }
        requires waits { waiting_in self.old ≢ [] }
        requires flight { is_row_first (waiting_in self.old) ≡ false }
        ensures { HaveGiven self.old (arrived result) self.new }
    {
        let place = self.next();
        let flight = take_first(&mut self.list[place - 1]);
        let head = flights_head(&self.list[place - 1].flights);
        self.heads.put(place as u32, head);
        flight
    }

    // Lets go of all layouts, where no row waits, and gives back the memory of many.
    fn forget_layouts(&mut self)
        requires { AreWaiting self.old }
        ensures { Hold self.new (waiting_in self.old) }
    {
        if !self.rows.is_empty() {
            return;
        }
        self.layouts.clear();
        if self.layouts.capacity() > MANY {
            self.layouts.shrink_to_fit();
        }
    }
}

// By time, and at one time by source.
fn key_of(time: u64, source: u32) -> u128
    ensures { result ≡ time * 2 ^ 32 + source }
{
    u128::from(time) * 4_294_967_296 + u128::from(source)
}

fn first_row(rows: &VecDeque<Turn>) -> Option<u64>
    ensures { (layouts : List ℕ) → result ≡ first_time (rows_queue layouts rows.now.items).inputs }
{
    match rows.front() {
        Some(turn) => Some(turn.time),
        None => None,
    }
}

fn first_flight(flights: &VecDeque<Flight>) -> Option<u64>
    ensures { result ≡ first_time (map arrived flights.now.items) }
{
    match flights.front() {
        Some(flight) => Some(flight.arrive().0),
        None => None,
    }
}

fn rows_head(rows: &VecDeque<Turn>) -> u128
    ensures { (layouts : List ℕ) → result ≡ head_of (rows_queue layouts rows.now.items).inputs }
{
    match rows.front() {
        Some(turn) => key_of(turn.time, 0),
        None => NEVER,
    }
}

fn flights_head(flights: &VecDeque<Flight>) -> u128
    ensures { result ≡ head_of (map arrived flights.now.items) }
{
    match flights.front() {
        Some(flight) => key_of(flight.arrive().0, u32::from(flight.link()) + 1),
        None => NEVER,
    }
}

// What waits first at a place: of the rows, of a lane, or nothing.
fn head_at(rows: &VecDeque<Turn>, list: &Vec<Lane>, place: usize) -> u128
    ensures { (layouts : List ℕ) → result ≡ head_at (queues_of layouts rows.now.items list.now.items) place }
{
    if place == 0 {
        return rows_head(rows);
    }
    match list.get(place - 1) {
        Some(lane) => flights_head(&lane.flights),
        None => NEVER,
    }
}

// The sources of the rows and of these lanes, and places for so many. The error is want of memory.
fn sources_of(alloc: Global, list: &Vec<Lane>, places: u32) -> Result<KeyRing, AllocError>
    requires few { places ≤ 2 ^ 18 }
    requires room { length list.now.items + 1 ≤ places }
    requires apart { AreQueues (map lane_queue list.now.items) }
    ensures { IfOk result (λ sources. sources ≡ ring places (sources_of list.now.items)) }
{
    let mut sources = KeyRing::with_places(alloc, places)?;
    sources.push(0);
    for place in 0..list.len() {
        sources.push(u32::from(list[place].link) + 1);
    }
    Ok(sources)
}

// What waits first at each of so many places. The error is want of memory.
fn heads_of(
    alloc: Global,
    rows: &VecDeque<Turn>,
    list: &Vec<Lane>,
    places: u32,
) -> Result<Lowest<u128>, AllocError>
    requires room { length list.now.items + 1 ≤ places }
    ensures count { IfOk result (λ heads. length heads ≡ places) }
    ensures each { (layouts : List ℕ) (place : ℕ) → IfOk result (λ heads. get_or heads place never
        ≡ head_at (queues_of layouts rows.now.items list.now.items) place) }
{
    let mut heads = Lowest::with_places(alloc, places)?;
    for place in 0..places {
        heads.put(place, head_at(rows, list, place as usize));
    }
    Ok(heads)
}

// Takes the first packet of a lane.
#[inline(always)]
fn take_first(lane: &mut Lane) -> Flight
    requires { lane.old.flights.items ≢ [] }
    ensures taken { lane.old.flights.items ≡ result ∷ lane.new.flights.items }
    ensures same { lane.new.link ≡ lane.old.link }
{
    let Some(flight) = lane.flights.pop_front() else {
        unreachable!()
    };
    if lane.flights.is_empty() {
        give_back(lane);
    }
    flight
}

// Gives back the memory of many places in a lane that ran empty, where few of them were used since it ran empty last:
// one that is filled again and again keeps its memory.
fn give_back(lane: &mut Lane)
    ensures { (lane.new.flights.items ≡ lane.old.flights.items) × (lane.new.link ≡ lane.old.link) }
{
    let places = lane.flights.capacity();
    if places > MANY && lane.most < places / 4 {
        lane.flights.shrink_to_fit();
    }
    lane.most = 0;
}

// Puts a packet at its place in a lane, where there is room, and says which that is.
#[inline(always)]
fn put_in_lane(lane: &mut Lane, flight: Flight) -> usize
    requires order { IsInOrder flight_time flight_source lane.old.flights.items }
    requires room { deque_len lane.old.flights + 1 ≤ deque_capacity lane.old.flights }
    ensures put { lane.new.flights.items ≡ put_in flight_time flight_source flight lane.old.flights.items }
    ensures at { lane.new.flights.items ≡ insert lane.old.flights.items result flight }
    ensures within { result ≤ length lane.old.flights.items }
    ensures same { lane.new.link ≡ lane.old.link }
{
    let at = put_in_turn(&mut lane.flights, flight);
    lane.most = cmp::max(lane.most, lane.flights.len());
    at
}

// What waits in an order: by its time, and at one time by its source.
trait Comes: Drop {
    ghost time: { Self → ℕ };

    ghost source: { Self → ℕ };

    // Whether it stands before another.
    fn is_before(&self, other: &Self) -> bool
        ensures { result ≡ precedes time source self.now other.now };
}

impl Comes for Turn {
    ghost time = { turn_time };

    ghost source = { turn_source };

    fn is_before(&self, other: &Turn) -> bool {
        self.time < other.time
    }
}

impl Comes for Flight {
    ghost time = { flight_time };

    ghost source = { flight_source };

    fn is_before(&self, other: &Flight) -> bool {
        self.arrive() < other.arrive()
            || (self.arrive() == other.arrive() && self.link() < other.link())
    }
}

// Puts one at its place, behind all that it need not stand before, and says which that is.
fn put_in_turn<T: Comes>(items: &mut VecDeque<T>, item: T) -> usize
    requires order { IsInOrder T.time T.source items.old.items }
    requires room { deque_len items.old + 1 ≤ deque_capacity items.old }
    ensures put { items.new.items ≡ put_in T.time T.source item items.old.items }
    ensures at { items.new.items ≡ insert items.old.items result item }
    ensures within { result ≤ length items.old.items }
{
    let at = place_for(items, &item);
    let Ok(()) = items.insert(at, item) else {
        unreachable!()
    };
    at
}

// Rows come in their order, and the times of a link's packets don't fall in a run: so it is looked for from the end on.
fn place_for<T: Comes>(items: &VecDeque<T>, item: &T) -> usize
    requires { IsInOrder T.time T.source items.now.items }
    ensures place { put_in T.time T.source item.now items.now.items ≡ insert items.now.items result item.now }
    ensures within { result ≤ length items.now.items }
{
    let mut place = items.len();
    while place > 0 && item.is_before(&items[place - 1]) {
        place -= 1;
    }
    place
}
