// What a record says, or the first rule that it breaks.
ghost use Rattle.std.specs.Prelude.{◌≡◌, ◌<◌, ◌≤◌, IfSome, OnOk, length};
ghost use Rattle.csv.specs.Records.{fields_of};
ghost use Rattle.tva_plan.specs.Numbers.{Numbers};
ghost use Rattle.tva_base.specs.Decimal.{decimal_of};
ghost use Rattle.tva_trace.specs.{Files.counted, Left.left_in};
ghost use Rattle.tva_trace.specs.Rows.{filing_of, hold, injection_of, kind_at, positive, row_of, sending_of, ticking_of, what_of};

use crate::fields::{allowed, field, is_empty, kind_of};
use crate::files::{FileCounts, has_room};
use crate::items::shim_of;
use crate::rows::{RowKind, TraceRule};
use crate::said::{SaidRow, SaidWhat};
use crate::secrets::KeptSecrets;
use csv::ByteRecord;
use std::collections::HashMap;
use tva_base::{Flow, Time, address, decimal};
use tva_plan::{Config, NodePlan, is_host, number_of};
use tva_shim::PAYLOAD_MAX;

/// The most bytes of a segment.
const SEGMENT_MAX: u64 = 1500;

/// The most bytes of a file.
const FILE_MAX: u64 = 100_000_000;

/// A rule that a test meets.
fn hold(rule: TraceRule, test: bool) -> Result<(), TraceRule>
    ensures { result ≡ hold rule test }
{
    if test { Ok(()) } else { Err(rule) }
}

/// The kind of a row at a node.
#[tactic(auto, unfolding(crate::specs::Rows::kind_at))]
fn kind_at(plans: &[NodePlan], files: &FileCounts, node: u16, word: &[u8]) -> Option<RowKind>
    requires { node < length plans.now }
    ensures { result ≡ kind_at plans.now (counted files.now) node word.now }
{
    let kind = kind_of(word)?;
    // no other row asks how many files there are
    let room = match kind {
        RowKind::File => has_room(files, node),
        _ => true,
    };
    allowed(is_host(plans, node), room, kind)
}

/// What a row that sends says.
#[tactic(auto, unfolding(crate::specs::Rows::sending_of))]
fn sending_of(row: &ByteRecord) -> Result<SaidWhat, TraceRule>
    ensures { result ≡ sending_of (fields_of row.now) }
{
    hold(TraceRule::Src, is_empty(field(row, 3)))?;
    let dst = address(field(row, 4)).ok_or(TraceRule::Dst)?;
    let payload = decimal(field(row, 5), u64::from(PAYLOAD_MAX)).ok_or(TraceRule::Payload)?;
    hold(TraceRule::Shim, is_empty(field(row, 6)))?;
    Ok(SaidWhat::Send {
        dst,
        payload: payload as u16,
    })
}

/// A number that isn't 0, and is at most that one.
fn positive(text: &[u8], most: u64) -> Option<u64>
    ensures value { result ≡ positive (decimal_of text.now most) }
    ensures within { IfSome result (λ n. n ≤ most) }
{
    let number = decimal(text, most)?;
    if number > 0 { Some(number) } else { None }
}

/// What a row that begins a transfer says.
#[tactic(auto, unfolding(crate::specs::Rows::filing_of))]
fn filing_of(row: &ByteRecord) -> Result<SaidWhat, TraceRule>
    ensures { result ≡ filing_of (fields_of row.now) }
{
    hold(TraceRule::Src, is_empty(field(row, 3)))?;
    let dst = address(field(row, 4)).ok_or(TraceRule::Dst)?;
    let segment = positive(field(row, 5), SEGMENT_MAX).ok_or(TraceRule::Payload)?;
    let size = positive(field(row, 6), FILE_MAX).ok_or(TraceRule::Shim)?;
    Ok(SaidWhat::File {
        dst,
        size: size as u32,
        segment: segment as u16,
    })
}

/// What a tick says.
#[tactic(auto, unfolding(crate::specs::Rows::ticking_of))]
fn ticking_of(row: &ByteRecord) -> Result<SaidWhat, TraceRule>
    ensures { result ≡ ticking_of (fields_of row.now) }
{
    hold(TraceRule::Src, is_empty(field(row, 3)))?;
    let dst = address(field(row, 4)).ok_or(TraceRule::Dst)?;
    decimal(field(row, 5), 0).ok_or(TraceRule::Payload)?;
    hold(TraceRule::Shim, is_empty(field(row, 6)))?;
    Ok(SaidWhat::Tick { dst })
}

/// What a row that injects a packet says, put in a place that the caller lends, since a shim is large.
#[tactic(auto, unfolding(crate::specs::Rows::injection_of))]
fn injection_into(
    plans: &[NodePlan],
    numbers: &HashMap<&[u8], u16>,
    secrets: &mut KeptSecrets,
    kind: RowKind,
    row: &ByteRecord,
    said: &mut SaidWhat,
) -> Result<(), TraceRule>
    requires { Numbers plans.now numbers.now }
    ensures { left_in said.new result ≡ injection_of plans.now kind (fields_of row.now) }
{
    let src = address(field(row, 3)).ok_or(TraceRule::Src)?;
    let dst = address(field(row, 4)).ok_or(TraceRule::Dst)?;
    let payload = decimal(field(row, 5), u64::from(PAYLOAD_MAX)).ok_or(TraceRule::Payload)?;
    let flow = Flow { src, dst };
    match shim_of(plans, numbers, secrets, kind, flow, field(row, 6)) {
        Some(shim) => {
            *said = SaidWhat::Inject {
                flow,
                payload: payload as u16,
                shim,
            };
            Ok(())
        }
        None => Err(TraceRule::Shim),
    }
}

fn what_into(
    plans: &[NodePlan],
    numbers: &HashMap<&[u8], u16>,
    secrets: &mut KeptSecrets,
    kind: RowKind,
    row: &ByteRecord,
    said: &mut SaidWhat,
) -> Result<(), TraceRule>
    requires { Numbers plans.now numbers.now }
    ensures { left_in said.new result ≡ what_of plans.now kind (fields_of row.now) }
{
    match kind {
        RowKind::Send => *said = sending_of(row)?,
        RowKind::File => *said = filing_of(row)?,
        RowKind::Tick => *said = ticking_of(row)?,
        kind => return injection_into(plans, numbers, secrets, kind, row, said),
    }
    Ok(())
}

/// What the record of that number says, behind a row of that time, and behind rows of which so many
/// begin a transfer at each node. It is put in a place that the caller lends.
#[tactic(auto, unfolding(crate::specs::Rows::row_of))]
pub fn row_into(
    config: &Config,
    numbers: &HashMap<&[u8], u16>,
    secrets: &mut KeptSecrets,
    files: &FileCounts,
    number: u64,
    last: u64,
    row: &ByteRecord,
    said: &mut SaidRow,
) -> Result<(), TraceRule>
    requires { Numbers config.now.nodes numbers.now }
    ensures said { left_in said.new result ≡ row_of config.now number last (counted files.now) (fields_of row.now) }
    ensures few { OnOk result (number ≤ 1000001) }
{
    let plans = config.nodes.as_slice();
    hold(TraceRule::Rows, number <= 1_000_001)?;
    hold(TraceRule::Fields, row.len() == 7)?;
    let time = decimal(field(row, 0), config.horizon.0).ok_or(TraceRule::Time)?;
    hold(TraceRule::Order, last <= time)?;
    let node = number_of(plans, numbers, field(row, 1)).ok_or(TraceRule::Node)?;
    let kind = kind_at(plans, files, node, field(row, 2)).ok_or(TraceRule::Kind)?;
    what_into(plans, numbers, secrets, kind, row, &mut said.what)?;
    said.time = Time(time);
    said.node = node;
    Ok(())
}
