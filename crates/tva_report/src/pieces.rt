// A text in pieces, each a line with the line feed that ends it.
ghost use Rattle.std.specs.Prelude.{◌≡◌, ◌≤◌, ◌==◌, MatchOption, None, false, length, position, true};
ghost use Rattle.std.specs.List.{list_all, starts_with};
ghost use Rattle.tva_report.specs.Lines.{first_bad, is_feed, is_line, is_printable, report_lines};
ghost use Rattle.tva_report.specs.Ahead.{ahead, bad_ahead, IsNext, IsOver, IsPast};

use std::marker::Model;

/// A piece of a text, by its number from 1: its bytes without the line feed, and whether a line feed
/// ends it, as it does each but the last.
#[derive(Clone, Copy)]
pub struct Piece<'a> {
    pub number: u64,
    pub text: &'a [u8],
    pub ended: bool,
}

/// The pieces of a text that are still to come. Contracts see the rest of the text and the number of
/// its first piece.
#[derive(Drop)]
pub struct Pieces<'a> {
    rest: &'a [u8],
    number: u64,
}

impl<'a> Model for Pieces<'a> {
    ghost use Rattle.std.specs.Prelude.{◌+◌, ◌≤◌, ◌^◌, length};
    ghost use Rattle.tva_report.specs.Ahead.{Ahead, ahead};

    ghost Value = { Ahead };

    ghost view = { λ p. ahead p.rest.now p.number };

    ghost invariant = { λ p. p.number + length p.rest.now ≤ 2 ^ 63 };
}

impl<'a> Pieces<'a> {
    /// All pieces of a text.
    pub fn new(text: &'a [u8]) -> Pieces<'a>
        ensures { result ≡ ahead text.now 1 }
    {
        Pieces {
            rest: text,
            number: 1,
        }
    }

    /// The number of the next piece.
    pub fn number(&self) -> u64
        ensures { result ≡ self.now.number }
    {
        self.number
    }

    /// Passes so many pieces, which are this text, where the rest begins with it.
    pub fn pass(&mut self, text: &[u8], count: u64) -> bool
        requires { count ≤ length text.now }
        ensures passed { result ≡ true → IsPast self.old text.now count self.new }
        ensures not { result ≡ false → self.new ≡ self.old }
    {
        let rest = self.rest;
        if begins_with(rest, text) {
            self.rest = &rest[text.len()..];
            self.number += count;
            true
        } else {
            false
        }
    }

    /// The same once more.
    pub fn again(&self) -> Pieces<'a>
        ensures { result ≡ self.now }
    {
        Pieces {
            rest: self.rest,
            number: self.number,
        }
    }

    /// The number of the first piece that is no line, or that no line feed ends.
    pub fn first_bad(&self) -> Option<u64>
        ensures { result ≡ bad_ahead self.now }
    {
        let mut pieces = self.again();
        while let Some(piece) = pieces.next() {
            if !piece.ended || !is_line(piece.text) {
                return Some(piece.number);
            }
        }
        None
    }

    /// The next piece, where there is one.
    pub fn next(&mut self) -> Option<Piece<'a>>
        ensures { MatchOption result (IsOver self.old self.new) (λ piece. IsNext self.old piece self.new) }
    {
        let rest = self.rest;
        if rest.is_empty() {
            return None;
        }
        let number = self.number;
        self.number += 1;
        match feed_in(rest) {
            Some(end) => {
                self.rest = &rest[end + 1..];
                Some(Piece {
                    number,
                    text: &rest[..end],
                    ended: true,
                })
            }
            None => {
                self.rest = &rest[rest.len()..];
                Some(Piece {
                    number,
                    text: rest,
                    ended: false,
                })
            }
        }
    }
}

// A text stands in front of the rest of another.
fn begins_with(rest: &[u8], text: &[u8]) -> bool
    ensures { result ≡ starts_with ◌==◌ rest.now text.now }
{
    rest.starts_with(text)
}

// The place of the first line feed.
fn feed_in(text: &[u8]) -> Option<usize>
    ensures { result ≡ position is_feed text.now }
{
    text.iter().position(|byte| *byte == b'\n')
}

/// A text may be a line of a report: it has 1 to 255 bytes, each from the blank to `~`.
pub fn is_line(text: &[u8]) -> bool
    ensures { result ≡ is_line text.now }
{
    !text.is_empty() && text.len() <= 255 && are_printable(text)
}

fn are_printable(text: &[u8]) -> bool
    ensures { result ≡ list_all is_printable text.now }
{
    text.iter().all(|byte| is_printable(*byte))
}

fn is_printable(byte: u8) -> bool
    ensures { result ≡ is_printable byte }
{
    byte >= b' ' && byte <= b'~'
}

/// The number, from 1, of the first line of a text that is none: it is empty, has over 255 bytes or
/// one that isn't from the blank to `~`, or no line feed ends it.
pub fn first_bad(text: &[u8]) -> Option<u64>
    ensures { result ≡ first_bad text.now }
{
    Pieces::new(text).first_bad()
}

/// How many lines a text without a bad line has: as many as it has line feeds.
pub fn line_count(text: &[u8]) -> u64
    requires { first_bad text.now ≡ None }
    ensures { result ≡ length (report_lines text.now) }
{
    let mut count = 0;
    for byte in text {
        count += u64::from(*byte == b'\n');
    }
    count
}
