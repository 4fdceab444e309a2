// What every log of a node keeps, and so every run.
ghost use Rattle.std.specs.Prelude.{◌≡◌, ◌≢◌, ℕ, ◌≤◌, List, Option, Some};
ghost use Rattle.std.specs.List.{AllByRecursion};
ghost use Rattle.tva_base.specs.declared.addresses.Prefix.{Prefix};
ghost use Rattle.tva_base.specs.declared.packet.Cause.{Cause};
ghost use Rattle.tva_base.specs.declared.packet.Class.TheVariants.{Regular};
ghost use Rattle.tva_base.specs.declared.packet.Fate.{Fate};
ghost use Rattle.tva_base.specs.declared.packet.Time.{Time};
ghost use Rattle.tva_base.specs.declared.plan.LinkPlan.{LinkPlan};
ghost use Rattle.tva_base.specs.declared.plan.RouterPlan.{RouterPlan};
ghost use Rattle.tva_shim.specs.Packets.{PacketData};
ghost use Rattle.tva_flow.specs.Charges.{Charge};
ghost use Rattle.tva_router.specs.Handling as router;
ghost use Rattle.tva_plan.specs.declared.config.Config.{Config};
ghost use Rattle.tva_plan.specs.declared.config.NodePlan.TheVariants.{Router};
ghost use Rattle.tva_plan.specs.Valid.{IsConfig};
ghost use Rattle.tva_rows.specs.declared.rows.Row.{Row};
ghost use Rattle.tva_rows.specs.Valid.{AreTraceRows};
ghost use Rattle.tva_run.specs.declared.kinds.Input.{Input};
ghost use Rattle.tva_run.specs.Sites.{IsSite, Site, site_of};
ghost use Rattle.tva_run.specs.Entries.{Entry};
ghost use Rattle.tva_run.specs.NodeLog.{IsNodeLog, starts};
ghost use Rattle.tva_run.specs.Reaching.{Logs, log_at, site_at};
ghost use Rattle.tva_run.specs.Run.{IsRunTo};
ghost use Rattle.tva_laws.specs.Sizes.{IsSizedEntry, IsSizedInput};
ghost use Rattle.tva_laws.specs.Fates.{IsFate};
ghost use Rattle.tva_laws.specs.Promises.{KeepsPromises};

/// What a router refuses is never regular: a fate with a cause, such as that of a list over its grant's
/// units, has another class.
pub fn refused_is_not_regular()
    ensures { (plan : RouterPlan) (h : List Charge) (logs : router.PortLogs) (now : ℕ) (from : Option ℕ) (p : PacketData)
        (fate : Fate) (onward : PacketData) (cause : Cause) → IsFate plan h logs now from p fate onward
        → fate.cause ≡ Some cause → fate.class ≢ Regular }
{}

/// What a link of a router starts, over one and the same log, depends neither on the router's restarts nor
/// on the changes of its routes: what was queued before one goes on as if there were none. Times are in
/// nanoseconds.
pub fn queued_before_a_restart()
    ensures { (number : ℕ) (plan : RouterPlan) (links : List (ℕ × LinkPlan)) (restarts : List (Time × List ℕ))
        (reroutes : List (Time × Prefix × ℕ)) (log : List Entry) (link now : ℕ)
        → starts (site_of number (Router (record plan { restarts = restarts; reroutes = reroutes })) links) log link now
        ≡ starts (site_of number (Router plan) links) log link now }
{}

/// Whatever reaches a node, within the sizes of a network and up to a time of at most 10^15 nanoseconds,
/// its log keeps its promises, and what its links send is within those sizes. The budget of a grant is
/// TVA's; it is counted for each router and each of its boots.
pub fn nodes_keep_promises()
    ensures kept { (site : Site) (inputs : List Input) (until : ℕ) (log : List Entry) → IsSite site
        → until ≤ 1000000000000001 → AllByRecursion IsSizedInput inputs → IsNodeLog site inputs until log
        → KeepsPromises site until log }
    ensures sized { (site : Site) (inputs : List Input) (until : ℕ) (log : List Entry) → IsSite site
        → until ≤ 1000000000000001 → AllByRecursion IsSizedInput inputs → IsNodeLog site inputs until log
        → AllByRecursion IsSizedEntry log }
{}

/// In every run up to a time, in nanoseconds, of a configuration and the rows of a trace, the log of each node keeps
/// its promises.
pub fn runs_keep_promises()
    ensures { (config : Config) (rows : List Row) (until : ℕ) (logs : Logs) → IsConfig config
        → AreTraceRows config rows → IsRunTo config rows until logs
        → (node : ℕ) (site : Site) → site_at config node ≡ Some site
        → KeepsPromises site until (log_at logs node) }
{}
