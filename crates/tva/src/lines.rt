// The lines of a report.
ghost use Rattle.std.specs.Prelude.{◌≡◌, ◌≤◌, ℕ, List, OnOk};
ghost use Rattle.tva_outside.specs.Faults.{Rose};
ghost use Rattle.tva_lines.specs.Lines.{summary_of};
ghost use Rattle.tva.specs.Given.{WasTaken};
ghost use Rattle.tva.specs.Parts.{IsWritten};
ghost use Rattle.tva.specs.Answer.{IsRefusal};

use crate::parts::send;
use crate::status::Status;
use arrayvec::ArrayString;
use std::alloc::AllocError;
use tva_base::Totals;
use tva_lines::summary_text;
use tva_outside::Sink;

/// Writes the lines in `text`, where there was memory to put them there.
#[tactic(auto, using(crate::proofs::Replays::cut_of_nothing, crate::proofs::Given::taken_none))]
pub fn send_lines<W: Sink>(put: Result<(), AllocError>, text: &[u8], out: &mut W) -> Status
    ensures never_falls { W.faults out.old ≤ W.faults out.new }
    ensures written { WasTaken (W.written out.old) (W.written out.new) (W.took out.old) (W.took out.new) }
    ensures unfailed { result ≡ Status.Done → W.faults out.new ≡ W.faults out.old }
    ensures no_refusal { ¬ IsRefusal result }
    ensures answer { (lines : List ℕ) → OnOk put (text.now ≡ lines)
        → IsWritten (W.took out.old) (W.took out.new) (Rose (W.faults out.old) (W.faults out.new)) lines result }
{
    match put {
        Ok(()) => send(out, text),
        Err(_) => Status::OutOfMemory,
    }
}

/// Writes the total line.
pub fn send_total<W: Sink>(totals: &Totals, out: &mut W) -> Status
    ensures never_falls { W.faults out.old ≤ W.faults out.new }
    ensures written { WasTaken (W.written out.old) (W.written out.new) (W.took out.old) (W.took out.new) }
    ensures unfailed { result ≡ Status.Done → W.faults out.new ≡ W.faults out.old }
    ensures no_refusal { ¬ IsRefusal result }
    ensures answer { IsWritten (W.took out.old) (W.took out.new) (Rose (W.faults out.old) (W.faults out.new))
        (summary_of totals.now) result }
{
    let mut line = ArrayString::new();
    summary_text(totals, &mut line);
    send(out, line.as_bytes())
}
