// What is wrong with a trace.
ghost use Rattle.std.specs.Prelude.{◌≡◌, Some};
ghost use Rattle.tva_trace.specs.Words.{rule_word};

use std::fmt;
use std::fmt::{Display, Formatter, Write};

/// The rules of a trace, in the order in which they are checked.
#[derive(Clone, Copy, Debug, PartialEq, Eq)]
pub enum TraceRule {
    Header,
    Rows,
    Fields,
    Time,
    Order,
    Node,
    Kind,
    Src,
    Dst,
    Payload,
    Shim,
}

/// The first record that breaks a rule, numbered from 1 for the header, and the first rule that it
/// breaks. The number is 1 where there is no record.
#[derive(Clone, Copy, Debug, PartialEq, Eq)]
pub struct TraceFault {
    pub row: u64,
    pub rule: TraceRule,
}

/// Why a trace isn't given.
#[derive(Debug, Drop)]
pub enum TraceError {
    Fault(TraceFault),
    OutOfMemory,
}

/// The kind of a row.
#[derive(Clone, Copy, Debug, PartialEq, Eq)]
pub enum RowKind {
    Send,
    Raw,
    List,
    Renew,
    Nonce,
    File,
    Tick,
}

impl TraceRule {
    /// The rule's name in the text of a fault.
    pub fn word(self) -> &'static str
        ensures { result.now ≡ rule_word self }
    {
        match self {
            TraceRule::Header => "header",
            TraceRule::Rows => "rows",
            TraceRule::Fields => "fields",
            TraceRule::Time => "time",
            TraceRule::Order => "order",
            TraceRule::Node => "node",
            TraceRule::Kind => "kind",
            TraceRule::Src => "src",
            TraceRule::Dst => "dst",
            TraceRule::Payload => "payload",
            TraceRule::Shim => "shim",
        }
    }
}

impl Display for TraceRule {
    ghost output = { λ rule. Some (rule_word rule) };

    fn fmt<W: Write>(&self, f: &mut Formatter<W>) -> fmt::Result {
        f.write_str(self.word())
    }
}
