// Short texts that contracts see as the lists of their bytes.
ghost use Rattle.std.specs.Prelude.{◌≡◌, ◌≤◌, length, All};
ghost use Rattle.tva_base.specs.Printable.{IsPrintable};

use arrayvec::ArrayString;
use std::marker::Model;

/// The name of a node.
#[derive(Debug, Drop)]
pub struct Name(ArrayString<16>);

impl Model for Name {
    ghost use Rattle.std.specs.Prelude.{List, ℕ, ◌≤◌, length};

    ghost Value = { List ℕ };

    ghost view = { λ name. name.0.bytes };

    ghost invariant = { λ name. length name.0.bytes ≤ 16 };
}

impl Name {
    pub fn new(text: &str) -> Name
        requires { length text.now ≤ 16 }
        ensures { result ≡ text.now }
    {
        let mut name = ArrayString::new();
        name.push_str(text);
        Name(name)
    }

    pub fn as_str(&self) -> &str
        ensures bytes { result.now ≡ self.now }
        ensures short { length self.now ≤ 16 }
    {
        self.0.as_str()
    }
}

/// A key of a configuration.
#[derive(Debug, Drop)]
pub struct Key(ArrayString<24>);

impl Model for Key {
    ghost use Rattle.std.specs.Prelude.{List, ℕ, ◌≤◌, length};

    ghost Value = { List ℕ };

    ghost view = { λ key. key.0.bytes };

    ghost invariant = { λ key. length key.0.bytes ≤ 24 };
}

impl Key {
    pub fn new(text: &str) -> Key
        requires { length text.now ≤ 24 }
        ensures { result ≡ text.now }
    {
        let mut key = ArrayString::new();
        key.push_str(text);
        Key(key)
    }

    pub fn as_str(&self) -> &str
        ensures bytes { result.now ≡ self.now }
        ensures short { length self.now ≤ 24 }
    {
        self.0.as_str()
    }
}

/// A line of a report, without its line feed: at most 255 bytes from the blank to `~`. An empty one
/// stands where a text has no such line.
#[derive(Debug, Drop)]
pub struct Line(ArrayString<256>);

impl Model for Line {
    ghost use Rattle.std.specs.Prelude.{List, ℕ, ◌≤◌, length, All};
    ghost use Rattle.tva_base.specs.Printable.{IsPrintable};

    ghost Value = { List ℕ };

    ghost view = { λ line. line.0.bytes };

    ghost invariant = { λ line. (length line.0.bytes ≤ 255) × All IsPrintable line.0.bytes };
}

impl Line {
    pub fn new(text: &[u8]) -> Line
        requires short { length text.now ≤ 255 }
        requires printable { All IsPrintable text.now }
        ensures { result ≡ text.now }
    {
        let mut line = ArrayString::new();
        for byte in text {
            line.push(char::from(*byte));
        }
        Line(line)
    }

    pub fn as_str(&self) -> &str
        ensures bytes { result.now ≡ self.now }
        ensures short { length self.now ≤ 255 }
        ensures printable { All IsPrintable self.now }
    {
        self.0.as_str()
    }
}
