// What a row asks, in little memory: a shim is its layout, among those of all others.
ghost use Rattle.std.specs.Prelude.{◌≡◌, ◌≤◌, ◌++◌, IfOk, OnErr, length};
ghost use Rattle.tva_shim.specs.declared.packets.Carried.TheVariants as carried;
ghost use Rattle.tva_rows.specs.declared.rows.RowWhat.TheVariants as says;
ghost use Rattle.tva_rows.specs.Raw.{IsRaw};
ghost use Rattle.tva_rows.specs.Brief.{Grows, IsLayoutAt, IsWhatHeld, part, shim_in, what_in};

use crate::rows::RowWhat;
use arrayvec::ArrayVec;
use std::alloc::AllocError;
use std::mem::size_of;
use tva_base::{Address, Flow, Time};
use tva_shim::{Carried, Shim, decode, encode};

/// What a row asks: of a shim where its layout begins, and how many bytes it has. Short numbers stand
/// first, so that nothing is left between them. Payloads, sizes, segments and lengths of shims are in
/// bytes.
#[derive(Clone, Copy)]
pub enum BriefWhat {
    Send {
        payload: u16,
        dst: Address,
    },
    File {
        segment: u16,
        dst: Address,
        size: u32,
    },
    Tick {
        dst: Address,
    },
    Bare {
        payload: u16,
        flow: Flow,
    },
    Malformed {
        payload: u16,
        bytes: u16,
        flow: Flow,
    },
    Shim {
        payload: u16,
        bytes: u16,
        flow: Flow,
        start: u32,
    },
}

/// A row: its time in nanoseconds, what it asks, and the number of its node.
#[derive(Clone, Copy)]
pub struct BriefRow {
    pub time: Time,
    pub what: BriefWhat,
    pub node: u16,
}

// A million rows take at most 32 MB, beside the layouts of their shims.
const _: () = prove!(size_of::<BriefRow>() <= 32);

/// The brief form of what a row asks. The layout of its shim is put behind the others; an error leaves
/// them as they were.
pub fn brief_of(layouts: &mut Vec<u8>, what: &RowWhat) -> Result<BriefWhat, AllocError>
    ensures grows { IfOk result (λ brief. Grows layouts.old.items layouts.new.items) }
    ensures held { IfOk result (λ brief. IsWhatHeld layouts.new.items brief) }
    ensures same { IfOk result (λ brief. what_in layouts.new.items brief ≡ what.now) }
    ensures err { OnErr result (layouts.new.items ≡ layouts.old.items) }
{
    match what {
        RowWhat::Send { dst, payload } => Ok(BriefWhat::Send {
            payload: *payload,
            dst: *dst,
        }),
        RowWhat::File { dst, size, segment } => Ok(BriefWhat::File {
            segment: *segment,
            dst: *dst,
            size: *size,
        }),
        RowWhat::Tick { dst } => Ok(BriefWhat::Tick { dst: *dst }),
        RowWhat::Inject {
            flow,
            payload,
            carried,
        } => brief_carried(layouts, *flow, *payload, carried),
    }
}

/// The brief form of a row that injects a packet with these bytes in place of a shim: where they are the layout of
/// one, they are put behind the others as they stand. An error leaves the layouts as they were.
pub(crate) fn brief_raw(
    layouts: &mut Vec<u8>,
    flow: Flow,
    payload: u16,
    bytes: &[u8],
) -> Result<BriefWhat, AllocError>
    requires { length bytes.now ≤ 400 }
    ensures grows { IfOk result (λ brief. Grows layouts.old.items layouts.new.items) }
    ensures held { IfOk result (λ brief. IsWhatHeld layouts.new.items brief) }
    ensures means { IfOk result (λ brief. IsRaw flow payload bytes.now (what_in layouts.new.items brief)) }
    ensures err { OnErr result (layouts.new.items ≡ layouts.old.items) }
{
    if bytes.is_empty() {
        return Ok(BriefWhat::Bare { payload, flow });
    }
    let count = bytes.len() as u16;
    if decode(bytes).is_none() {
        return Ok(BriefWhat::Malformed {
            payload,
            bytes: count,
            flow,
        });
    }
    let start = put_bytes(layouts, bytes)?;
    Ok(BriefWhat::Shim {
        payload,
        bytes: count,
        flow,
        start,
    })
}

/// The brief form of a row that injects a packet with a shim. An error leaves the layouts as they were.
pub(crate) fn brief_shim(
    layouts: &mut Vec<u8>,
    flow: Flow,
    payload: u16,
    shim: &Shim,
) -> Result<BriefWhat, AllocError>
    ensures grows { IfOk result (λ brief. Grows layouts.old.items layouts.new.items) }
    ensures held { IfOk result (λ brief. IsWhatHeld layouts.new.items brief) }
    ensures same { IfOk result (λ brief. what_in layouts.new.items brief ≡ says.Inject flow payload (carried.Shim shim.now)) }
    ensures err { OnErr result (layouts.new.items ≡ layouts.old.items) }
{
    let (start, bytes) = put_layout(layouts, shim)?;
    Ok(BriefWhat::Shim {
        payload,
        bytes,
        flow,
        start,
    })
}

// The brief form of a row that injects a packet.
fn brief_carried(
    layouts: &mut Vec<u8>,
    flow: Flow,
    payload: u16,
    carried: &Carried,
) -> Result<BriefWhat, AllocError>
    ensures grows { IfOk result (λ brief. Grows layouts.old.items layouts.new.items) }
    ensures held { IfOk result (λ brief. IsWhatHeld layouts.new.items brief) }
    ensures same { IfOk result (λ brief. what_in layouts.new.items brief ≡ says.Inject flow payload carried.now) }
    ensures err { OnErr result (layouts.new.items ≡ layouts.old.items) }
{
    match carried {
        Carried::Nothing => Ok(BriefWhat::Bare { payload, flow }),
        Carried::Malformed(bytes) => Ok(BriefWhat::Malformed {
            payload,
            bytes: *bytes,
            flow,
        }),
        Carried::Shim(shim) => brief_shim(layouts, flow, payload, shim),
    }
}

// Puts the layout of a shim last, and answers where it begins and how many bytes it has. The error is
// want of memory.
fn put_layout(layouts: &mut Vec<u8>, shim: &Shim) -> Result<(u32, u16), AllocError>
    ensures grows { IfOk result (λ place. Grows layouts.old.items layouts.new.items) }
    ensures held { IfOk result (λ place. IsLayoutAt layouts.new.items place.0 place.1) }
    ensures same { IfOk result (λ place. shim_in (part layouts.new.items place.0 place.1) ≡ carried.Shim shim.now) }
    ensures err { OnErr result (layouts.new.items ≡ layouts.old.items) }
{
    let mut bytes = ArrayVec::new();
    encode(shim, &mut bytes);
    let start = put_bytes(layouts, bytes.as_slice())?;
    Ok((start, bytes.len() as u16))
}

// Puts bytes last, and answers where they begin. The error is want of memory, of which layouts may take 4 GB.
fn put_bytes(layouts: &mut Vec<u8>, bytes: &[u8]) -> Result<u32, AllocError>
    ensures grows { IfOk result (λ start. layouts.new.items ≡ layouts.old.items ++ bytes.now) }
    ensures start { IfOk result (λ start. start ≡ length layouts.old.items) }
    ensures err { OnErr result (layouts.new.items ≡ layouts.old.items) }
{
    let Ok(start) = u32::try_from(layouts.len()) else {
        return Err(AllocError);
    };
    layouts.extend_from_slice(bytes)?;
    Ok(start)
}

/// The same over other layouts: the layout of its shim is put behind them. An error, which is want of memory,
/// leaves them as they were.
pub(crate) fn brief_beside(
    layouts: &mut Vec<u8>,
    others: &[u8],
    brief: BriefWhat,
) -> Result<BriefWhat, AllocError>
    requires { IsWhatHeld others.now brief }
    ensures grows { IfOk result (λ brief. Grows layouts.old.items layouts.new.items) }
    ensures held { IfOk result (λ brief. IsWhatHeld layouts.new.items brief) }
    ensures same { IfOk result (λ here. what_in layouts.new.items here ≡ what_in others.now brief) }
    ensures err { OnErr result (layouts.new.items ≡ layouts.old.items) }
{
    match brief {
        BriefWhat::Shim {
            payload,
            bytes,
            flow,
            start,
        } => {
            let start = put_part(layouts, others, start, bytes)?;
            Ok(BriefWhat::Shim {
                payload,
                bytes,
                flow,
                start,
            })
        }
        brief => Ok(brief),
    }
}

// Puts the layout that stands there among others last, and answers where it begins.
fn put_part(layouts: &mut Vec<u8>, others: &[u8], start: u32, bytes: u16) -> Result<u32, AllocError>
    requires { IsLayoutAt others.now start bytes }
    ensures grows { IfOk result (λ place. Grows layouts.old.items layouts.new.items) }
    ensures held { IfOk result (λ place. IsLayoutAt layouts.new.items place bytes) }
    ensures same { IfOk result (λ place. part layouts.new.items place bytes ≡ part others.now start bytes) }
    ensures err { OnErr result (layouts.new.items ≡ layouts.old.items) }
{
    let from = start as usize;
    let until = from + usize::from(bytes);
    put_bytes(layouts, &others[from..until])
}

/// What a brief form says over the layouts.
pub fn what_from(layouts: &[u8], brief: BriefWhat) -> RowWhat
    requires { IsWhatHeld layouts.now brief }
    ensures { result ≡ what_in layouts.now brief }
{
    match brief {
        BriefWhat::Send { payload, dst } => RowWhat::Send { dst, payload },
        BriefWhat::File { segment, dst, size } => RowWhat::File { dst, size, segment },
        BriefWhat::Tick { dst } => RowWhat::Tick { dst },
        BriefWhat::Bare { payload, flow } => RowWhat::Inject {
            flow,
            payload,
            carried: Carried::Nothing,
        },
        BriefWhat::Malformed {
            payload,
            bytes,
            flow,
        } => RowWhat::Inject {
            flow,
            payload,
            carried: Carried::Malformed(bytes),
        },
        BriefWhat::Shim {
            payload,
            bytes,
            flow,
            start,
        } => RowWhat::Inject {
            flow,
            payload,
            carried: Carried::Shim(shim_at(layouts, start, bytes)),
        },
    }
}

// The shim whose layout stands there.
fn shim_at(layouts: &[u8], start: u32, bytes: u16) -> Shim
    requires { IsLayoutAt layouts.now start bytes }
    ensures { shim_in (part layouts.now start bytes) ≡ carried.Shim result }
{
    let from = start as usize;
    let until = from + usize::from(bytes);
    match decode(&layouts[from..until]) {
        Some(shim) => shim,
        None => unreachable!(),
    }
}
