// How a run ends.
ghost use Rattle.std.specs.Prelude.{◌≡◌, [], ◌++◌, codes};
ghost use Rattle.tva.specs.Status.{number_of, text_of_status, config_fault_words};

use arrayvec::ArrayString;
use itoa::Buffer;
use tva_config::ConfigFault;
use tva_report::Finding;
use tva_trace::TraceFault;

/// How a run ends: with the whole text written, or with the reason why it isn't. `Found` has the first
/// line in which an audited report differs, `TooLarge` the limit of the file and one, `EventLimit` the
/// greatest number of events, and `BadReport` the number of a report's first bad line.
#[derive(Debug, Drop)]
pub enum Status {
    Done,
    Found(Finding),
    Usage,
    ReadFault,
    WriteFault,
    TooLarge(u64),
    BadConfig(ConfigFault),
    BadTrace(TraceFault),
    EventLimit(u64),
    OutOfMemory,
    BadReport(u64),
}

impl Status {
    /// The number that the program ends with.
    pub fn number(&self) -> u8
        ensures { result ≡ number_of self.now }
    {
        match self {
            Status::Done => 0,
            Status::Found(_) => 1,
            Status::Usage => 2,
            Status::ReadFault => 3,
            Status::WriteFault => 4,
            Status::TooLarge(_) => 5,
            Status::BadConfig(_) => 6,
            Status::BadTrace(_) => 7,
            Status::EventLimit(_) => 8,
            Status::OutOfMemory => 9,
            Status::BadReport(_) => 10,
        }
    }
}

/// Leaves the text of the status in `text`, and nothing else.
pub fn status_text(status: &Status, text: &mut ArrayString<128>)
    ensures { text.new.bytes ≡ text_of_status status.now }
{
    text.clear();
    match status {
        Status::Done => {}
        Status::Found(finding) => {
            text.push_str("found: line ");
            text.push_str(Buffer::new().format(finding.line));
        }
        Status::Usage => text.push_str(
            "usage: tva replay CONFIG TRACE, check CONFIG, shim HEX, gen SEED COUNT CONFIG, audit CONFIG TRACE REPORT",
        ),
        Status::ReadFault => text.push_str("read fault"),
        Status::WriteFault => text.push_str("write fault"),
        Status::TooLarge(size) => {
            text.push_str("too large: ");
            text.push_str(Buffer::new().format(*size));
        }
        Status::BadConfig(fault) => put_config_fault(fault, text),
        Status::BadTrace(fault) => {
            text.push_str("bad trace: record ");
            text.push_str(Buffer::new().format(fault.row));
            text.push_str(": ");
            text.push_str(fault.rule.word());
        }
        Status::EventLimit(most) => {
            text.push_str("more than ");
            text.push_str(Buffer::new().format(*most));
            text.push_str(" events");
        }
        Status::OutOfMemory => text.push_str("out of memory"),
        Status::BadReport(line) => {
            text.push_str("bad report: line ");
            text.push_str(Buffer::new().format(*line));
        }
    }
}

// The rule, the table, the entry and the key of a fault.
fn put_config_fault(fault: &ConfigFault, text: &mut ArrayString<128>)
    requires { text.old.bytes ≡ [] }
    ensures { text.new.bytes ≡ text.old.bytes ++ codes "bad config: " ++ config_fault_words fault.now }
{
    text.push_str("bad config: ");
    text.push_str(fault.rule.word());
    text.push_str(" ");
    text.push_str(fault.table.word());
    text.push_str(" ");
    text.push_str(Buffer::new().format(fault.entry));
    text.push_str(" ");
    text.push_str(fault.key.as_str());
}
