// How an audit follows a run.
ghost use Rattle.std.specs.Prelude.{◌≡◌, ◌++◌, ◌∷◌, [], ℕ, List, All, IfOk, OnOk, is_some, length, map};
ghost use Rattle.tva_base.specs.declared.event.Event.{Event};
ghost use Rattle.tva_base.specs.Printable.{IsLine};
ghost use Rattle.tva_plan.specs.Valid.{IsConfig};
ghost use Rattle.tva_lines.specs.Lines.{HasEvent, text_of_event, text_of_totals};
ghost use Rattle.tva_run.specs.Report.{lines_of};
ghost use Rattle.tva_report.specs.Compared as compared;
ghost use Rattle.tva_report.specs.Ahead.{bad_ahead};
ghost use Rattle.tva_audit.specs.Deciding.{IsDecided, refusal};
ghost use Rattle.tva_audit.specs.Followed.{Follows, HasFollowed, left};
ghost use Rattle.tva_audit.specs.Tallies.{AreReady, sums_among};

use crate::audits::{AuditError, Audited};
use crate::lines::shown;
use crate::tallies::{first_tallies, sums_of, tell_each};
use arrayvec::ArrayString;
use std::alloc::{AllocError, Global};
use tva_base::{Event, Totals};
use tva_lines::summary_text;
use tva_plan::Config;
use tva_report::{Comparison, Tally};

/// A report that is compared with the lines of a run as they come, and what each router let through so
/// far in that run.
#[derive(Drop)]
pub struct Followed<'a> {
    comparison: Comparison<'a>,
    tallies: Vec<Tally>,
}

impl<'a> Followed<'a> {
    /// Nothing happened yet.
    pub fn new(alloc: Global, config: &Config, report: &'a [u8]) -> Result<Followed<'a>, AllocError>
        ensures { IfOk result (Follows config.now report.now []) }
    {
        Ok(Followed {
            comparison: Comparison::new(report),
            tallies: first_tallies(alloc, config)?,
        })
    }

    /// Whether there is a difference: then no line is compared any more.
    pub fn differs(&self) -> bool
        ensures { result ≡ is_some self.now.comparison.wanted }
    {
        self.comparison.differs()
    }

    /// What happens next, and the lines of what is left of that to be compared, where there was memory to put
    /// them.
    pub fn follow(
        &mut self,
        config: &Config,
        events: &[Event],
        put: Result<(), AllocError>,
        text: &[u8],
    ) -> Result<(), AllocError>
        requires config { IsConfig config.now }
        requires known { All (HasEvent config.now) events.now }
        requires lines { OnOk put (text.now ≡ lines_of config.now (left self.old events.now)) }
        requires printable { OnOk put (All (λ e. IsLine (text_of_event config.now e)) (left self.old events.now)) }
        requires ready { AreReady config.now (length events.now) self.old.tallies.items }
        ensures { (report : List ℕ) (told : List Event) → Follows config.now report told self.old
            → HasFollowed config.now report (told ++ events.now) result self.new }
    {
        put?;
        let count = shown(events, self.differs()).len();
        self.comparison.feed(text, count as u64);
        tell_each(config, events, self.tallies.as_mut_slice())
    }

    /// Why an audit comes to nothing: for a bad line of the report rather than for this.
    pub fn refusal(&self, error: AuditError) -> AuditError
        ensures { result ≡ refusal (bad_ahead self.now.comparison.ahead) error }
    {
        first_of(self.comparison.first_bad(), error)
    }

    /// What an audit answers where nothing more happens, and these are the sums of all that did.
    pub fn answered(
        self,
        alloc: Global,
        config: &Config,
        totals: &Totals,
    ) -> Result<Audited, AuditError>
        requires config { IsConfig config.now }
        requires count { length self.tallies.items ≡ length config.now.nodes }
        ensures last { IsLine (text_of_totals totals.now) }
        ensures decided { (report : List ℕ) (told : List Event) → Follows config.now report told self.entry
            → IsDecided (map (text_of_event config.now) told ++ text_of_totals totals.now ∷ []) report (sums_among config.now told) result }
    {
        let Followed {
            mut comparison,
            tallies,
        } = self;
        feed_total(totals, &mut comparison);
        match comparison.finish() {
            Ok(None) => {}
            Ok(Some(finding)) => return Ok(Audited::Differs(finding)),
            Err(line) => return Err(AuditError::BadReport(line)),
        }
        match sums_of(alloc, config, tallies.as_slice()) {
            Ok(sums) => Ok(Audited::Same(sums)),
            Err(_) => Err(AuditError::OutOfMemory),
        }
    }
}

/// A bad line comes first.
pub fn first_of(bad: Option<u64>, error: AuditError) -> AuditError
    ensures { result ≡ refusal bad error }
{
    match bad {
        Some(line) => AuditError::BadReport(line),
        None => error,
    }
}

// The total line is expected next.
fn feed_total(totals: &Totals, comparison: &mut Comparison)
    ensures line { IsLine (text_of_totals totals.now) }
    ensures fed { (report : List ℕ) (fed : List (List ℕ)) → compared.StandsFor comparison.old report fed
        → compared.StandsFor comparison.new report (fed ++ text_of_totals totals.now ∷ []) }
{
    let mut line = ArrayString::new();
    summary_text(totals, &mut line);
    comparison.feed(line.as_bytes(), 1);
}
