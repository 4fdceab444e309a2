// What a sender that keeps to the rules can rely on.
ghost use Rattle.std.specs.Prelude.{◌≡◌, ℕ, true, List, []};
ghost use Rattle.tva_base.specs.Clock.{router_second};
ghost use Rattle.tva_base.specs.declared.plan.HostPlan.{HostPlan};
ghost use Rattle.tva_base.specs.declared.plan.RouterPlan.{RouterPlan};
ghost use Rattle.tva_flow.specs.Charges.{Charge};
ghost use Rattle.tva_sender.specs.declared.shape.Shape.{Shape};
ghost use Rattle.tva_plan.specs.declared.config.Config.{Config};
ghost use Rattle.tva_plan.specs.Valid.{IsConfig};
ghost use Rattle.tva_rows.specs.declared.rows.Row.{Row};
ghost use Rattle.tva_rows.specs.Valid.{AreTraceRows};
ghost use Rattle.tva_run.specs.Reaching.{Logs};
ghost use Rattle.tva_run.specs.Run.{IsRunTo};
ghost use Rattle.tva_laws.specs.Deals.{Deal, Coming};
ghost use Rattle.tva_laws.specs.Paths.{AreHonestRegular, IsSteadyPath, LieInBoot, charged_since, comings_at};
ghost use Rattle.tva_laws.specs.Paths.{shows_nonce, since_noticed};
ghost use Rattle.tva_laws.specs.Narrow.{AreNarrowSteady};
ghost use Rattle.tva_laws.specs.Whole.{AreWholeSteady};
ghost use Rattle.tva_laws.specs.Walk.{walk_before_list, walk_before_nonce, walk_before_renewal, walk_cap, walk_config};
ghost use Rattle.tva_laws.specs.Walk.{walk_flow, walk_list, walk_list_comes, walk_logs, walk_nonce, walk_nonce_comes};
ghost use Rattle.tva_laws.specs.Walk.{walk_precap, walk_renewal, walk_renewal_comes, walk_rows, walk_until};
ghost use Rattle.tva_laws.specs.Walk.{IsListWhole, IsSteadyBehind};
ghost use Rattle.tva_laws.specs.Miles.{Mile};
ghost use Rattle.tva_laws.specs.SteadyMiles.{Way, IsSteady, IsNarrow, IsTaken};

/// On a steady path each packet that shows a grant is authorised by it, whatever else the router charges:
/// a list and a renewal by the check of their capability and by the grant's verdict, a nonce alone by the
/// nonce's verdict. Times are in nanoseconds, each by one clock for all; a router's own clock may be ahead.
/// That senders who keep to their grants are not demoted is what TVA promises; the rules of the sender and
/// the words of this law are this project's own.
pub fn honest_senders_are_authorised()
    ensures steady { (w : Way) (h : List Charge) (miles : List Mile) (sent : ℕ) (s : Shape) (bytes at : ℕ)
        → IsSteady w h miles sent s bytes at → IsTaken w h miles s bytes at }
    ensures narrow { (w : Way) (h : List Charge) (miles : List Mile) (sent : ℕ) (s : Shape) (bytes at : ℕ)
        → IsNarrow w h miles sent s bytes at → IsTaken w h miles s bytes at }
{}

/// In every run up to a time, in nanoseconds, of a configuration and the rows of a trace, each packet that
/// shows a grant is charged at a router to the last grant that its host took, and goes on as regular, where
/// the path from its host is steady up to it. That senders who keep to their grants are not demoted is what
/// TVA promises; the rules of the sender and the words of this law are this project's own.
pub fn honest_senders_are_regular()
    ensures { (config : Config) (rows : List Row) (until : ℕ) (logs : Logs) → IsConfig config
        → AreTraceRows config rows → IsRunTo config rows until logs → AreHonestRegular config logs }
{}

/// In each such run what is steady in narrower words is steady: where each packet that was charged in the boot came as
/// the path asks of those under the last grant, the asks of all grants came in time, and all that shows the last one was
/// charged. In these words the promise was made first. Times are in nanoseconds.
pub fn narrow_paths_are_steady()
    ensures { (config : Config) (rows : List Row) (until : ℕ) (logs : Logs) → IsConfig config
        → AreTraceRows config rows → IsRunTo config rows until logs → AreNarrowSteady config logs }
{}

/// In each such run a path that the whole flow keeps to is steady: where up to the packet each unmarked packet of the flow
/// was prepared by the host and came in time, those that show a grant in order; the last ask of each grant came before all
/// that was prepared behind the taking, and what shows the grant came with the capability minted for that ask; all that shows
/// the packet's own grant was charged; and the router didn't restart since the first of these asks came. Times are in
/// nanoseconds.
pub fn whole_paths_are_steady()
    ensures { (config : Config) (rows : List Row) (until : ℕ) (logs : Logs) → IsConfig config
        → AreTraceRows config rows → IsRunTo config rows until logs → AreWholeSteady config logs }
{}

/// A restart ends a path for nonces alone: where it is steady up to one, all packets that were prepared before it since
/// its grant, or since the first notice on that, and show the grant came to the router in the same boot, and were charged
/// there. Times are in nanoseconds.
pub fn paths_lie_in_a_boot()
    ensures { (host : HostPlan) (router : RouterPlan) (delay : ℕ) (own : List Deal) (seen : List Coming) (charged : List Charge)
        (x : Coming) (steady : IsSteadyPath host router delay own seen charged x) → shows_nonce x.packet.carried ≡ true
        → LieInBoot router
        (charged_since (router_second router.clock_offset steady.ask.time) (comings_at router x.time seen)) x.time
        (since_noticed steady.last.in_time.before) }
{}

/// The logs of a worked walk, in nanoseconds, are a run: of the network of `examples/walk.toml` with a horizon of
/// ten seconds, and its trace with two more rows, up to just past the time at which a renewal comes to the router.
pub fn worked_walk_is_a_run()
    ensures valid { IsConfig walk_config }
    ensures traced { AreTraceRows walk_config walk_rows }
    ensures run { IsRunTo walk_config walk_rows walk_until walk_logs }
{}

/// Some paths are steady, by the logs of a run: those of the worked walk up to its list, up to its nonce alone, which
/// comes behind a packet without a shim that another node sends as its host's, and up to its renewal. And up to its list
/// the whole flow keeps to the path.
pub fn worked_walk_comes_steadily()
    ensures list { IsSteadyBehind walk_before_list walk_list_comes (walk_list 0 0) (walk_list 1 1) }
    ensures nonce { IsSteadyBehind walk_before_nonce walk_nonce_comes (walk_nonce 0) (walk_nonce 1) }
    ensures renewal { IsSteadyBehind walk_before_renewal walk_renewal_comes (walk_renewal 0 0 (walk_cap walk_flow))
        (walk_renewal 1 1 (walk_precap walk_flow 6)) }
    ensures whole { IsListWhole }
{}
