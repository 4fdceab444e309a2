// Reads a trace.
ghost use Rattle.std.specs.Prelude.{◌≡◌, ◌≤◌, ◌==◌, List, IfOk, IfSome, OnOk, length};
ghost use Rattle.csv.specs.Records.{fields_of};
ghost use Rattle.tva_rows.specs.declared.rows.Row.{Row};
ghost use Rattle.tva_trace.specs.declared.rows.TraceError.TheVariants as error;
ghost use Rattle.tva_trace.specs.{Files.Counts, Files.FindsRoom, Files.counted, Files.filed_in, Packed.AnswersPacked};
ghost use Rattle.tva_trace.specs.Meaning.{Answers, AreRows, IsPut};
ghost use Rattle.tva_plan.specs.Numbers.{Numbers};
ghost use Rattle.tva_trace.specs.{Left.row_where, Left.told_by, Rows.said_by, Shortage.IsShortage};
ghost use Rattle.tva_rows.specs.Valid.{AreTraceRows};

use crate::fields::is_header;
use crate::files::{FileCounts, count_file};
use crate::judge::row_into;
use crate::pushed::push_said;
use crate::rows::{TraceError, TraceFault, TraceRule};
use crate::said::{SaidRow, SaidWhat};
use crate::secrets::KeptSecrets;
use csv::{ByteRecord, ErrorKind, ReaderBuilder};
use std::alloc::{AllocError, Global};
use std::collections::HashMap;
use tva_base::{Address, Time};
use tva_plan::{Config, node_numbers};
use tva_rows::{PackedRows, Row};

// The bytes of the shortest row, `0,A,send,,0.0.0.0,0,`.
const SHORTEST_ROW: usize = 20;

/// The rows of a trace, or the first record that breaks a rule with the first rule that it breaks.
/// The configuration has at most 65,536 nodes, as each that was read has. Rows stand in the order
/// of their times, up to the horizon; only hosts send, begin transfers and tick, and each begins at most
/// 65,536 of them; payloads are at most 1,600 bytes, malformed shims at most 400, files have 1 to
/// 100,000,000 bytes, and their segments 1 to 1,500.
pub fn read_trace(alloc: Global, text: &[u8], config: &Config) -> Result<Vec<Row>, TraceError>
    requires { length config.now.nodes ≤ 65536 }
    ensures answer { Answers config.now text.now result }
    ensures only { IfOk result (λ rows. (other : List Row) → AreRows config.now text.now other → other ≡ rows.items) }
    ensures valid { IfOk result (λ rows. AreTraceRows config.now rows.items) }
{
    let rows = read_packed(alloc, text, config)?;
    match rows.to_rows(alloc) {
        Ok(rows) => Ok(rows),
        Err(_) => Err(TraceError::OutOfMemory),
    }
}

/// The same rows, or the same fault, in little memory.
pub fn read_packed(alloc: Global, text: &[u8], config: &Config) -> Result<PackedRows, TraceError>
    requires { length config.now.nodes ≤ 65536 }
    ensures answer { AnswersPacked config.now text.now result }
    ensures only { IfOk result (λ rows. (other : List Row) → AreRows config.now text.now other → other ≡ rows) }
    ensures valid { IfOk result (λ rows. AreTraceRows config.now rows) }
{
    match node_numbers(alloc, config.nodes.as_slice()) {
        Ok(numbers) => read_rows(alloc, text, config, &numbers),
        Err(_) => Err(TraceError::OutOfMemory),
    }
}

/// The same with the numbers of the nodes by their names.
fn read_rows(
    alloc: Global,
    text: &[u8],
    config: &Config,
    numbers: &HashMap<&[u8], u16>,
) -> Result<PackedRows, TraceError>
    requires { Numbers config.now.nodes numbers.now }
    ensures { AnswersPacked config.now text.now result }
{
    let mut rows = PackedRows::new(alloc);
    let room = room_for_rows(text);
    let mut secrets = KeptSecrets::new();
    let mut files = HashMap::new(alloc);
    let mut number = 1u64;
    let mut last = 0u64;
    let mut reader = ReaderBuilder::new()
        .has_headers(false)
        .flexible(true)
        .from_reader(alloc, text);
    let mut record = ByteRecord::new(alloc);
    let mut said = nothing_said();
    'records: loop {
        let found = match reader.read_byte_record(&mut record) {
            Ok(found) => found,
            Err(error) => return Err(shortage(error.kind())),
        };
        if !found {
            if number == 1 {
                return Err(TraceError::Fault(TraceFault {
                    row: 1,
                    rule: TraceRule::Header,
                }));
            }
            return Ok(rows);
        }
        let is_row = match said_into(
            config,
            numbers,
            &mut secrets,
            &files,
            number,
            last,
            &record,
            &mut said,
        ) {
            Ok(is_row) => is_row,
            Err(rule) => return Err(TraceError::Fault(TraceFault { row: number, rule })),
        };
        let Ok(time) = put_row(&mut rows, &mut files, room, last, is_row, &said) else {
            return Err(TraceError::OutOfMemory);
        };
        last = time;
        number += 1;
    }
}

/// How many rows there are at most, by the length of the shortest, and no more than a trace may have.
fn room_for_rows(text: &[u8]) -> usize {
    (text.len() / SHORTEST_ROW).min(1_000_000)
}

/// A reader of bytes in memory that takes any number of fields lacks nothing but memory.
fn shortage(kind: &ErrorKind) -> TraceError
    requires { IsShortage kind.now }
    ensures { result ≡ error.OutOfMemory }
{
    match kind {
        ErrorKind::OutOfMemory | ErrorKind::Io(_) => TraceError::OutOfMemory,
        _ => unreachable!(),
    }
}

/// A place for what a row says.
fn nothing_said() -> SaidRow {
    SaidRow {
        time: Time(0),
        node: 0,
        what: SaidWhat::Tick { dst: Address(0) },
    }
}

/// Puts a row last, if one is said, counts it where it begins a transfer, and answers the last row's
/// time. Where there is none, that is behind the header, room is made for so many.
fn put_row(
    rows: &mut PackedRows,
    files: &mut FileCounts,
    room: usize,
    last: u64,
    is_row: bool,
    said: &SaidRow,
) -> Result<u64, AllocError>
    requires { IfSome (row_where is_row said.now) (λ row. FindsRoom (counted files.old) row.node row.what) }
    ensures put { IfOk result (λ time. IsPut rows.old rows.new last time (row_where is_row said.now)) }
    ensures counts { OnOk result (Counts (counted files.old) (counted files.new) (filed_in (row_where is_row said.now))) }
{
    if !is_row {
        rows.reserve(room)?;
        return Ok(last);
    }
    count_file(files, said.node, &said.what)?;
    push_said(rows, said)?;
    Ok(said.time.0)
}

/// Whether the record of that number says a row, and not the names of the fields, as the first does: a row is put in
/// a place that the caller lends. It stands behind a row of that time, and behind rows of which so many
/// begin a transfer at each node.
fn said_into(
    config: &Config,
    numbers: &HashMap<&[u8], u16>,
    secrets: &mut KeptSecrets,
    files: &FileCounts,
    number: u64,
    last: u64,
    row: &ByteRecord,
    said: &mut SaidRow,
) -> Result<bool, TraceRule>
    requires { Numbers config.now.nodes numbers.now }
    ensures said { told_by said.new result ≡ said_by (number == 1) config.now number last (counted files.now) (fields_of row.now) }
    ensures few { OnOk result (number ≤ 1000001) }
{
    if number != 1 {
        row_into(config, numbers, secrets, files, number, last, row, said)?;
        return Ok(true);
    }
    if is_header(row) {
        Ok(false)
    } else {
        Err(TraceRule::Header)
    }
}
