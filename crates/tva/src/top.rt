// The top call.
ghost use Rattle.std.specs.Prelude.{◌≡◌, ◌≤◌, ◌⊎◌, ◌↔◌, ℕ, IfSome, IsSomeAnd, None, Some};
ghost use Rattle.tva_outside.specs.Held.{HeldByName};
ghost use Rattle.tva_outside.specs.Faults.{Rose};
ghost use Rattle.tva_config_entries.specs.declared.faults.ConfigFault.{ConfigFault};
ghost use Rattle.tva_report.specs.declared.differences.Finding.{Finding};
ghost use Rattle.tva_trace.specs.declared.rows.TraceFault.{TraceFault};
ghost use Rattle.tva.specs.Command.{command_of, texts};
ghost use Rattle.tva.specs.Expected.{refuses};
ghost use Rattle.tva.specs.Answer.{HasFound, IsRefusal, NeedsNoFile, WroteAll, WroteLines, WrotePart};
ghost use Rattle.tva.specs.Given.{files_of, IsTold, WasTaken, WereAsked};
ghost use Rattle.tva.specs.Network.{AreSumsBelow, EachKeepsFiles, EachKeepsPromises, EachTakesHonest, OfRows};
ghost use Rattle.tva.specs.Wanted.{wanted, OfWanted, HasOneEnd, Settles, SettlesRefusal};

use crate::command::parse;
use crate::commands::run_command;
use crate::status::Status;
use std::alloc::Global;
use std::thread::Threads;
use tva_outside::{Gate, Shelf, Sink};

/// Does what the words ask for, over the files of the shelf, and writes to the sink. Refusals come
/// in this order: words that are no command; then, file by file, a file that can't be loaded or is
/// too large, and a fault of the configuration or of the trace, or a bad line of the report; then, window
/// by window, more events than the configuration allows, and failing writes. A line of an audited report
/// that differs is told where the run ends.
#[tactic(auto, using(crate::proofs::Given::taken_none, crate::proofs::Given::asked_none, crate::proofs::Given::told_none))]
pub fn run<R: Threads + Sync, S: Shelf, W: Sink, G: Gate>(
    rt: &R,
    alloc: Global,
    words: &[String],
    shelf: &mut S,
    out: &mut W,
    gate: &G,
) -> Status
    // When each answer comes.
    ensures usage { result ≡ Status.Usage ↔ (command_of (texts words.now) ≡ None) }
    ensures read_fault { result ≡ Status.ReadFault → Rose (S.faults shelf.old) (S.faults shelf.new)
        ⊎ IsSomeAnd (S.held shelf.old) (λ files. wanted files (texts words.now) ≡ Some (refuses Status.ReadFault)) }
    ensures missing { result ≡ Status.ReadFault →
        OfWanted (S.gave shelf.old) (S.gave shelf.new) (texts words.now) (λ x. x ≡ refuses Status.ReadFault) }
    ensures write_fault { result ≡ Status.WriteFault → Rose (W.faults out.old) (W.faults out.new) }
    ensures too_large { (k : ℕ) → result ≡ Status.TooLarge k →
        OfWanted (S.gave shelf.old) (S.gave shelf.new) (texts words.now) (λ x. x ≡ refuses (Status.TooLarge k)) }
    ensures bad_config { (fault : ConfigFault) → result ≡ Status.BadConfig fault →
        OfWanted (S.gave shelf.old) (S.gave shelf.new) (texts words.now) (λ x. x ≡ refuses (Status.BadConfig fault)) }
    ensures bad_trace { (fault : TraceFault) → result ≡ Status.BadTrace fault →
        OfWanted (S.gave shelf.old) (S.gave shelf.new) (texts words.now) (λ x. x ≡ refuses (Status.BadTrace fault)) }
    ensures bad_report { (line : ℕ) → result ≡ Status.BadReport line →
        OfWanted (S.gave shelf.old) (S.gave shelf.new) (texts words.now) (λ x. x ≡ refuses (Status.BadReport line)) }
    ensures found { (finding : Finding) → result ≡ Status.Found finding →
        OfWanted (S.gave shelf.old) (S.gave shelf.new) (texts words.now) (HasFound finding) }

    // What is written: the whole text, of a replay the report of the run, and of an audit, whose report
    // is that of the run, what its routers let through; with the event limit the lines of all windows
    // before the one that passes it, and nothing by an audit; and always nothing or the first bytes of a
    // text that is to be written, of a replay the report of the run. That there is no other report is
    // a law (`what_is_written_is_of_each_run`).
    ensures done { result ≡ Status.Done →
        OfWanted (S.gave shelf.old) (S.gave shelf.new) (texts words.now) (WroteAll (W.took out.old) (W.took out.new)) }
    ensures event_limit { (most : ℕ) → result ≡ Status.EventLimit most →
        OfWanted (S.gave shelf.old) (S.gave shelf.new) (texts words.now) (WroteLines most (W.took out.old) (W.took out.new)) }
    ensures front { OfWanted (S.gave shelf.old) (S.gave shelf.new) (texts words.now) (WrotePart (W.took out.old) (W.took out.new)) }
    ensures nothing { IsRefusal result → out.new ≡ out.old }
    ensures written { WasTaken (W.written out.old) (W.written out.new) (W.took out.old) (W.took out.new) }

    // Where the sink's count doesn't rise it comes to what is wanted, unless memory runs out; and to each
    // refusal of what is read. A file that can't be read is as one that isn't there.
    ensures complete { ¬ Rose (W.faults out.old) (W.faults out.new) →
        OfWanted (S.gave shelf.old) (S.gave shelf.new) (texts words.now) (Settles result) }
    ensures refused { OfWanted (S.gave shelf.old) (S.gave shelf.new) (texts words.now) (SettlesRefusal result) }

    // Of any files, whatever shelf and sink tell, and whatever the answer. There is just one way in
    // which the words are to end over them: a trace that is to be replayed has rows, and their run is
    // within its number of events, or passes it. An audited report is that of the run, or has a first
    // line that differs.
    ensures one_end { (files : HeldByName) → IfSome (wanted files (texts words.now)) HasOneEnd }

    // The network: in every run of a trace that is to be replayed, or whose report is audited, up to any
    // time, the log of each node keeps its promises at each of its places. Budgets are counted for each
    // router, each of its boots and each grant.
    ensures network { (files : HeldByName) → IfSome (wanted files (texts words.now)) (OfRows EachKeepsPromises) }

    // Honest senders, in each such run: what shows a grant is charged and regular at each router to
    // which the path of its host is steady, in a boot of that router.
    ensures honest { (files : HeldByName) → IfSome (wanted files (texts words.now)) (OfRows EachTakesHonest) }

    // Files, in each such run: whatever is lost, dropped, demoted, repeated or late, a receiver delivers
    // each range of a transfer once and in order, and its sender never believes more than was delivered.
    ensures delivered { (files : HeldByName) → IfSome (wanted files (texts words.now)) (OfRows EachKeepsFiles) }

    // Sums: in each whole run of an audited trace no router let a grant have twice its units in one boot.
    ensures limits { (files : HeldByName) → IfSome (wanted files (texts words.now)) AreSumsBelow }

    // What is read: the first of the command's files, all or some or none, each once and in order. What the
    // shelf tells that it holds agrees with what it gave. With `Done` no load and no write failed.
    ensures in_order { WereAsked (S.gave shelf.old) (S.gave shelf.new) (files_of (command_of (texts words.now))) }
    ensures told { IsTold (S.held shelf.old) (S.gave shelf.old) (S.gave shelf.new)
        (Rose (S.faults shelf.old) (S.faults shelf.new)) result }
    ensures all_read { result ≡ Status.Done → S.faults shelf.new ≡ S.faults shelf.old }
    ensures all_written { result ≡ Status.Done → W.faults out.new ≡ W.faults out.old }

    // What stays. Words that need no file leave the shelf as it was, whatever it is.
    ensures held { S.held shelf.new ≡ S.held shelf.old }
    ensures reads { S.faults shelf.old ≤ S.faults shelf.new }
    ensures writes { W.faults out.old ≤ W.faults out.new }
    ensures unread { NeedsNoFile (command_of (texts words.now)) → shelf.new ≡ shelf.old }
{
    match parse(words) {
        Some(command) => run_command(rt, alloc, &command, shelf, out, gate),
        None => Status::Usage,
    }
}
