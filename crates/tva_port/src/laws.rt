// What holds of every log that the port of a link can have, at each of its places.
ghost use Rattle.std.specs.Prelude.{◌≡◌, ℕ, ◌≤◌, ◌<◌, false, List, ◌∷◌, [], ◌++◌};
ghost use Rattle.tva_base.specs.declared.limits.LinkLimits.{LinkLimits};
ghost use Rattle.tva_base.specs.Plan.{AreLinkLimits};
ghost use Rattle.tva_port.specs.Log.{Entry, NoneLater, free_after};
ghost use Rattle.tva_port.specs.Waiting.{waiting_after};
ghost use Rattle.tva_port.specs.Decide.{decision, after_decision, is_start, RestsAt, MissesNone, NoneDueBefore};
ghost use Rattle.tva_port.specs.Legal.{Follows, IsLegal};
ghost use Rattle.tva_port.specs.Keeps.{IsWithinRate, start_times, AreRising, IsWithinLimits};

/// The entries before any place of a port's log are themselves a log that the port can have, and the
/// entry at that place follows them: a packet that had its place, or the decision of a free link.
pub fn logs_have_places()
    ensures before { (l : LinkLimits) (before rest : List Entry) → IsLegal l (before ++ rest)
        → IsLegal l before }
    ensures next { (l : LinkLimits) (before : List Entry) (e : Entry) (rest : List Entry)
        → IsLegal l (before ++ e ∷ rest) → Follows l before e }
{}

/// Whatever packets came, at each place of a port's log the requests that started so far from one time
/// to another cost at most what a burst costs and the time between, in nanoseconds.
pub fn requests_keep_their_rate()
    ensures rate { (l : LinkLimits) (before rest : List Entry) → IsLegal l (before ++ rest)
        → IsWithinRate l before }
{}

/// Whatever packets came, at each place of a port's log each start is later than all starts before it.
pub fn starts_rise()
    ensures rising { (l : LinkLimits) (before rest : List Entry) → AreLinkLimits l
        → IsLegal l (before ++ rest) → AreRising (start_times before) }
{}

/// Whatever packets came, at each place of a port's log no more packets and bytes wait than each class
/// has room for.
pub fn queues_keep_limits()
    ensures room { (l : LinkLimits) (before rest : List Entry) → AreLinkLimits l
        → IsLegal l (before ++ rest) → IsWithinLimits l (waiting_after l before) }
{}

/// After the decision of a free link at a time nothing starts again at that time, nor before the next
/// decision is due: while a packet that started occupies the link, while a request waits, or for good
/// where nothing waits. Until then a link that started nothing would decide the same again.
pub fn links_rest()
    ensures again { (l : LinkLimits) (log : List Entry) (now : ℕ) → AreLinkLimits l
        → RestsAt l (after_decision l log now) now }
    ensures rests { (l : LinkLimits) (log : List Entry) (now until time : ℕ) → IsLegal l log
        → NoneLater now log → NoneDueBefore (decision l log now) (free_after l (after_decision l log now)) until
        → now ≤ time → time < until → RestsAt l (after_decision l log now) time }
    ensures missed { (l : LinkLimits) (log : List Entry) (now until : ℕ) → IsLegal l log
        → NoneLater now log → NoneDueBefore (decision l log now) (free_after l (after_decision l log now)) until
        → MissesNone l now log → MissesNone l until (after_decision l log now) }
    ensures steady { (l : LinkLimits) (log : List Entry) (now until time : ℕ) → AreLinkLimits l → IsLegal l log
        → NoneLater now log → NoneDueBefore (decision l log now) (free_after l (after_decision l log now)) until
        → is_start (decision l log now) ≡ false → now ≤ time → time < until
        → decision l log time ≡ decision l log now }
{}
