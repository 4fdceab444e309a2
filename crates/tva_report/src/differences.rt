// The first line in which a report differs from what was expected.
ghost use Rattle.std.specs.Prelude.{◌≡◌, ◌&&◌, ◌==◌, ℕ, ◌++◌, [], ◌∷◌, List, None, Some, IfErr, IfOk, MatchOption, false, is_some, length, true};
ghost use Rattle.std.specs.Option.{option_map_or};
ghost use Rattle.std.specs.Str.{bytes_eq};
ghost use Rattle.tva_report.specs.Lines.{first_bad, is_line, report_lines};
ghost use Rattle.tva_report.specs.Differences.{finding, first_difference};
ghost use Rattle.tva_report.specs.Ahead.{bad_ahead, line_there};
ghost use Rattle.tva_report.specs.Compared.{FitsLine, Leads, StandsFor, found_there};

use crate::pieces::{Piece, Pieces};
use std::marker::Model;
use tva_base::Line;

/// A line, by its number from 1, as it was expected and as it was found. A line that isn't there is
/// empty.
#[derive(Debug, Drop)]
pub struct Finding {
    pub line: u64,
    pub expected: Line,
    pub found: Line,
}

/// A report, compared with lines as they come, up to the first difference: the line that is wanted there is
/// kept, and nothing behind it is read. Contracts see what is ahead in the report and that line.
#[derive(Drop)]
pub struct Comparison<'a> {
    ahead: Pieces<'a>,
    wanted: Option<Line>,
}

impl<'a> Model for Comparison<'a> {
    ghost use Rattle.tva_report.specs.Compared.{Compared, compared};

    ghost Value = { Compared };

    ghost view = { λ c. compared c.ahead c.wanted };
}

impl<'a> Comparison<'a> {
    /// A report of which nothing was compared yet.
    pub fn new(report: &'a [u8]) -> Comparison<'a>
        ensures { StandsFor result report.now [] }
    {
        Comparison {
            ahead: Pieces::new(report),
            wanted: None,
        }
    }

    /// Whether there is a difference: then no line is compared any more.
    pub fn differs(&self) -> bool
        ensures { result ≡ is_some self.now.wanted }
    {
        self.wanted.is_some()
    }

    /// The lines that are expected next: a text without a bad line, and how many it has. What is ahead is
    /// gone through line by line only where it doesn't begin with the text.
    pub fn feed(&mut self, text: &[u8], count: u64)
        requires good { first_bad text.now ≡ None }
        requires count { count ≡ length (report_lines text.now) }
        ensures { (report : List ℕ) (fed : List (List ℕ)) → StandsFor self.old report fed → StandsFor self.new report (fed ++ report_lines text.now) }
    {
        if !self.passes(text, count) {
            self.each_line(text);
        }
    }

    // Goes on behind the text, where what is ahead begins with it or there is a difference already.
    fn passes(&mut self, text: &[u8], count: u64) -> bool
        requires good { first_bad text.now ≡ None }
        requires count { count ≡ length (report_lines text.now) }
        ensures passed { result ≡ true → Leads self.old (report_lines text.now) self.new [] }
        ensures not { result ≡ false → self.new ≡ self.old }
    {
        if self.wanted.is_some() {
            return true;
        }
        self.ahead.pass(text, count)
    }

    // Compares one line after another.
    fn each_line(&mut self, text: &[u8])
        requires { first_bad text.now ≡ None }
        ensures { Leads self.old (report_lines text.now) self.new [] }
    {
        let mut lines = Pieces::new(text);
        while let Some(line) = lines.next() {
            self.line(line.text);
        }
    }

    // One more line that is expected. Where another stands there, or none, it is kept.
    fn line(&mut self, expected: &[u8])
        requires { is_line expected.now ≡ true }
        ensures { Leads self.old (expected.now ∷ []) self.new [] }
    {
        if self.differs() {
            return;
        }
        let mut after = self.ahead.again();
        let piece = after.next();
        if is_the_line(&piece, expected) {
            self.ahead = after;
        } else {
            self.wanted = Some(Line::new(expected));
        }
    }

    /// The first bad line of the report. What was passed has none.
    pub fn first_bad(&self) -> Option<u64>
        ensures { result ≡ bad_ahead self.now.ahead }
    {
        self.ahead.first_bad()
    }

    /// Where nothing more is expected, the first difference. The error is the first bad line.
    pub fn finish(self) -> Result<Option<Finding>, u64>
        ensures bad { IfErr result (λ line. (report : List ℕ) (fed : List (List ℕ)) → StandsFor self.entry report fed → first_bad report ≡ Some line) }
        ensures found { IfOk result (λ found. (report : List ℕ) (fed : List (List ℕ)) → StandsFor self.entry report fed
            → (first_bad report ≡ None) × (found ≡ first_difference fed (report_lines report))) }
    {
        if let Some(line) = self.first_bad() {
            return Err(line);
        }
        let Comparison { mut ahead, wanted } = self;
        let number = ahead.number();
        let piece = ahead.next();
        Ok(difference(number, wanted, &piece))
    }
}

// The piece is this line, and a line feed ends it.
fn is_the_line(piece: &Option<Piece>, line: &[u8]) -> bool
    ensures { result ≡ option_map_or (λ p. p.ended && bytes_eq line.now p.text.now) piece.now false }
{
    match piece {
        Some(piece) => piece.ended && line == piece.text,
        None => false,
    }
}

// What a line with that number should be, where there is a difference, and is.
fn difference(number: u64, wanted: Option<Line>, piece: &Option<Piece>) -> Option<Finding>
    requires { FitsLine (line_there piece.now) }
    ensures { result ≡ found_there number wanted piece.now }
{
    match (wanted, piece) {
        (Some(line), Some(piece)) => Some(told(number, line, piece.text)),
        (Some(line), None) => Some(told(number, line, b"")),
        (None, Some(piece)) => Some(told(number, Line::new(b""), piece.text)),
        (None, None) => None,
    }
}

fn told(number: u64, expected: Line, found: &[u8]) -> Finding
    requires { FitsLine found.now }
    ensures { result ≡ finding number expected found.now }
{
    Finding {
        line: number,
        expected,
        found: Line::new(found),
    }
}
