// What holds of every router, and of every arrival, whatever came before.
ghost use Rattle.std.specs.Prelude.{◌≡◌, ℕ, ◌≤◌, ◌||◌, true, false, List, [], ◌++◌, Option, Some, None, All};
ghost use Rattle.tva_base.specs.Plan.{IsRouterPlan};
ghost use Rattle.tva_base.specs.Addresses.{holds};
ghost use Rattle.tva_base.specs.declared.addresses.Address.{Address};
ghost use Rattle.tva_base.specs.declared.limits.LinkLimits.{LinkLimits};
ghost use Rattle.tva_base.specs.declared.plan.Route.{Route};
ghost use Rattle.tva_base.specs.declared.plan.RouterPlan.{RouterPlan};
ghost use Rattle.tva_shim.specs.Packets.{PacketData, packet_length};
ghost use Rattle.tva_flow.specs.Charges.{Charge, living_count};
ghost use Rattle.tva_flow.specs.Budget.{IsWithinBudget};
ghost use Rattle.tva_flow.specs.Stands.{AreNext};
ghost use Rattle.tva_port.specs.Log.{Entry, NoneLater};
ghost use Rattle.tva_port.specs.Waiting.{waiting_after};
ghost use Rattle.tva_port.specs.Legal.{IsLegal};
ghost use Rattle.tva_port.specs.Keeps.{IsWithinRate, start_times, AreRising, IsWithinLimits};
ghost use Rattle.tva_router.specs.Routes.{link_to, IsWay};
ghost use Rattle.tva_shim.specs.Shows.{nonce_in};
ghost use Rattle.tva_router.specs.Handling.{PortLogs, charged_by, outgoing_link, entered, with_routes, handle};
ghost use Rattle.tva_router.specs.Marks.{is_marked, calls_for_mark};
ghost use Rattle.tva_router.specs.Stands.{RouterData, StandsFor};

/// The log of each outgoing link of a router is one that a port with the link's limits can have, with no
/// entry later than the router's last time. Whatever packets came, at each place of it the requests that
/// started so far from one time to another cost at most what a burst costs and the time between, in
/// nanoseconds; each start is later than all before it; and no more packets and bytes wait than each class
/// has room for.
pub fn links_keep_limits()
    ensures legal { (v : RouterData) (h : List Charge) (logs : PortLogs) (link : ℕ) (limits : LinkLimits)
        → StandsFor v h logs → outgoing_link v.plan link ≡ Some (link, limits) → IsLegal limits (logs link) }
    ensures past { (v : RouterData) (h : List Charge) (logs : PortLogs) (link : ℕ) (limits : LinkLimits)
        → StandsFor v h logs → outgoing_link v.plan link ≡ Some (link, limits) → NoneLater v.last (logs link) }
    ensures rate { (v : RouterData) (h : List Charge) (logs : PortLogs) (link : ℕ) (limits : LinkLimits)
        → StandsFor v h logs → outgoing_link v.plan link ≡ Some (link, limits)
        → (before rest : List Entry) → logs link ≡ before ++ rest → IsWithinRate limits before }
    ensures rising { (v : RouterData) (h : List Charge) (logs : PortLogs) (link : ℕ) (limits : LinkLimits)
        → StandsFor v h logs → outgoing_link v.plan link ≡ Some (link, limits)
        → (before rest : List Entry) → logs link ≡ before ++ rest → AreRising (start_times before) }
    ensures room { (v : RouterData) (h : List Charge) (logs : PortLogs) (link : ℕ) (limits : LinkLimits)
        → StandsFor v h logs → outgoing_link v.plan link ≡ Some (link, limits)
        → (before rest : List Entry) → logs link ≡ before ++ rest → IsWithinLimits limits (waiting_after limits before) }
{}

/// The charges of a router are a list that a cache with its plan's slots and clock can have. Whatever
/// packets came, at each place of it, and at each time in nanoseconds from the last charge before it on, no
/// more flows live than the plan has slots, and the charges of each grant so far have less than twice its N
/// units of 1,024 bytes.
pub fn charges_keep_slots()
    ensures legal { (v : RouterData) (h : List Charge) (logs : PortLogs) → StandsFor v h logs
        → AreNext v.plan.slots v.plan.clock_offset [] h }
    ensures living { (v : RouterData) (h : List Charge) (logs : PortLogs) → StandsFor v h logs
        → (before rest : List Charge) → h ≡ before ++ rest
        → (now : ℕ) → All (λ c. c.time ≤ now) before → living_count before now ≤ v.plan.slots }
    ensures budget { (v : RouterData) (h : List Charge) (logs : PortLogs) → StandsFor v h logs
        → (before rest : List Charge) → h ≡ before ++ rest → IsWithinBudget before }
{}

/// The link of a destination is that of the route whose prefix holds it, where no longer one does; it has
/// none exactly where no prefix holds it.
pub fn ways_lead()
    ensures leads { (routes : List Route) (dst : Address) (link : ℕ) → link_to routes dst ≡ Some link
        → (route : Route) × (IsWay routes dst route × (route.link ≡ link)) }
    ensures nowhere { (routes : List Route) (dst : Address) → link_to routes dst ≡ None
        → All (λ route. holds route.prefix dst ≡ false) routes }
{}

/// What a router judges of an arrival, and what it charges, doesn't depend on what waits for its links: its
/// class, cause, charge and onward packet are the same over all logs. So two routers of one plan that stand
/// for the same charges judge the same packet alike at the same time.
pub fn verdicts_need_no_logs()
    ensures class { (plan : RouterPlan) (h : List Charge) (logs others : PortLogs) (now : ℕ) (from : Option ℕ) (p : PacketData)
        → (handle plan h logs now from p).fate.class ≡ (handle plan h others now from p).fate.class }
    ensures cause { (plan : RouterPlan) (h : List Charge) (logs others : PortLogs) (now : ℕ) (from : Option ℕ) (p : PacketData)
        → (handle plan h logs now from p).fate.cause ≡ (handle plan h others now from p).fate.cause }
    ensures charge { (plan : RouterPlan) (h : List Charge) (logs others : PortLogs) (now : ℕ) (from : Option ℕ) (p : PacketData)
        → (handle plan h logs now from p).fate.charge ≡ (handle plan h others now from p).fate.charge }
    ensures onward { (plan : RouterPlan) (h : List Charge) (logs others : PortLogs) (now : ℕ) (from : Option ℕ) (p : PacketData)
        → (handle plan h logs now from p).onward ≡ (handle plan h others now from p).onward }
{}

/// What a router judges of an arrival, and what it charges, doesn't depend on its routes either, which say
/// where a packet goes and nothing of what it is.
pub fn verdicts_need_no_routes()
    ensures class { (plan : RouterPlan) (routes : List Route) (h : List Charge) (logs others : PortLogs) (now : ℕ) (from : Option ℕ) (p : PacketData)
        → (handle (with_routes routes plan) h logs now from p).fate.class ≡ (handle plan h others now from p).fate.class }
    ensures cause { (plan : RouterPlan) (routes : List Route) (h : List Charge) (logs others : PortLogs) (now : ℕ) (from : Option ℕ) (p : PacketData)
        → (handle (with_routes routes plan) h logs now from p).fate.cause ≡ (handle plan h others now from p).fate.cause }
    ensures charge { (plan : RouterPlan) (routes : List Route) (h : List Charge) (logs others : PortLogs) (now : ℕ) (from : Option ℕ) (p : PacketData)
        → (handle (with_routes routes plan) h logs now from p).fate.charge ≡ (handle plan h others now from p).fate.charge }
    ensures onward { (plan : RouterPlan) (routes : List Route) (h : List Charge) (logs others : PortLogs) (now : ℕ) (from : Option ℕ) (p : PacketData)
        → (handle (with_routes routes plan) h logs now from p).onward ≡ (handle plan h others now from p).onward }
{}

/// Two routers of one plan with the same master in force that stand for the same charges judge the same
/// packet alike at the same time, whatever links their routes have come to take, and whatever waits for
/// their links.
pub fn equal_masters_judge_alike()
    ensures class { (v w : RouterData) (h : List Charge) (logs others : PortLogs) (now : ℕ) (from : Option ℕ) (p : PacketData)
        → StandsFor v h logs → StandsFor w h others → v.built ≡ w.built → v.plan.master ≡ w.plan.master
        → (handle v.plan h logs now from p).fate.class ≡ (handle w.plan h others now from p).fate.class }
    ensures cause { (v w : RouterData) (h : List Charge) (logs others : PortLogs) (now : ℕ) (from : Option ℕ) (p : PacketData)
        → StandsFor v h logs → StandsFor w h others → v.built ≡ w.built → v.plan.master ≡ w.plan.master
        → (handle v.plan h logs now from p).fate.cause ≡ (handle w.plan h others now from p).fate.cause }
    ensures charge { (v w : RouterData) (h : List Charge) (logs others : PortLogs) (now : ℕ) (from : Option ℕ) (p : PacketData)
        → StandsFor v h logs → StandsFor w h others → v.built ≡ w.built → v.plan.master ≡ w.plan.master
        → (handle v.plan h logs now from p).fate.charge ≡ (handle w.plan h others now from p).fate.charge }
    ensures onward { (v w : RouterData) (h : List Charge) (logs others : PortLogs) (now : ℕ) (from : Option ℕ) (p : PacketData)
        → StandsFor v h logs → StandsFor w h others → v.built ≡ w.built → v.plan.master ≡ w.plan.master
        → (handle v.plan h logs now from p).onward ≡ (handle w.plan h others now from p).onward }
{}

/// A packet goes on with the mark exactly where it had it, or was judged for a cause other than a
/// malformed shim.
pub fn marks_have_causes()
    ensures mark { (plan : RouterPlan) (h : List Charge) (logs : PortLogs) (now : ℕ) (from : Option ℕ) (p : PacketData)
        → is_marked (handle plan h logs now from p).onward.carried
        ≡ (is_marked p.carried || calls_for_mark (handle plan h logs now from p).fate.cause) }
{}

/// What an arrival adds to the charges and to the log of each link is told by its fate: its charge, and
/// the link where the onward packet was queued.
pub fn fates_tell_entries()
    ensures charges { (plan : RouterPlan) (h : List Charge) (logs : PortLogs) (now : ℕ) (from : Option ℕ) (p : PacketData)
        → (handle plan h logs now from p).charges
        ≡ charged_by (handle plan h logs now from p).fate.charge now (nonce_in p.carried) (packet_length p) }
    ensures queued { (plan : RouterPlan) (h : List Charge) (logs : PortLogs) (now : ℕ) (from : Option ℕ) (p : PacketData) (link : ℕ)
        → (handle plan h logs now from p).queued link
        ≡ entered (handle plan h logs now from p).fate now (handle plan h logs now from p).onward link }
{}
