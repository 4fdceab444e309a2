// The fields of a record.
ghost use Rattle.std.specs.Prelude.{◌≡◌, IfSome};
ghost use Rattle.std.specs.Str.{bytes_eq};
ghost use Rattle.csv.specs.Records.{fields_of};
ghost use Rattle.tva_trace.specs.Rows.{allowed, field, is_empty, is_header, kind_at, row_kind};

use crate::rows::RowKind;
use csv::ByteRecord;

/// The field at a place, empty where there is none.
pub fn field(row: &ByteRecord, place: usize) -> &[u8]
    ensures { result.now ≡ field (fields_of row.now) place }
{
    match row.get(place) {
        Some(field) => field,
        None => b"",
    }
}

pub fn is_empty(text: &[u8]) -> bool
    ensures { result ≡ is_empty text.now }
{
    text.is_empty()
}

fn is_word(text: &[u8], word: &str) -> bool
    ensures { result ≡ bytes_eq text.now word.now }
{
    text == word.as_bytes()
}

/// Whether a record names the fields of a trace.
pub fn is_header(row: &ByteRecord) -> bool
    ensures { result ≡ is_header (fields_of row.now) }
{
    if row.len() != 7 {
        return false;
    }
    is_word(field(row, 0), "time")
        && is_word(field(row, 1), "node")
        && is_word(field(row, 2), "kind")
        && is_word(field(row, 3), "src")
        && is_word(field(row, 4), "dst")
        && is_word(field(row, 5), "payload")
        && is_word(field(row, 6), "shim")
}

/// The kind that a word names.
#[tactic(auto, unfolding(crate::specs::Rows::row_kind))]
pub fn kind_of(word: &[u8]) -> Option<RowKind>
    ensures { result ≡ row_kind word.now }
{
    if is_word(word, "send") {
        return Some(RowKind::Send);
    }
    if is_word(word, "raw") {
        return Some(RowKind::Raw);
    }
    if is_word(word, "list") {
        return Some(RowKind::List);
    }
    if is_word(word, "renew") {
        return Some(RowKind::Renew);
    }
    if is_word(word, "nonce") {
        return Some(RowKind::Nonce);
    }
    if is_word(word, "file") {
        return Some(RowKind::File);
    }
    if is_word(word, "tick") {
        return Some(RowKind::Tick);
    }
    None
}

/// Whether a row of a kind may stand at a node, which is a host or not, and has room for one transfer
/// more or not.
pub fn allowed(at_host: bool, room: bool, kind: RowKind) -> Option<RowKind>
    ensures { result ≡ allowed at_host room kind }
{
    match kind {
        RowKind::Send | RowKind::Tick if !at_host => None,
        RowKind::File if !(at_host && room) => None,
        kind => Some(kind),
    }
}
