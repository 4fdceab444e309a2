// What a packet carries by its shape.
ghost use Rattle.std.specs.Prelude.{◌≡◌, ℕ};
ghost use Rattle.tva_base.specs.Versions.{IsVersion};
ghost use Rattle.tva_shim.specs.{Shims.IsKind, Shims.IsShown, Shims.IsReturn, Packets.IsCarried};
ghost use Rattle.tva_sender.specs.Showable.{IsShowable, IsShowableHeld};
ghost use Rattle.tva_host.specs.Sending.{kind_shown_of, is_legacy, held_shown, kind_of, shim_of, carried_by};

use tva_base::ShapeKind;
use tva_sender::{Held, Shape};
use tva_shim::{Carried, Entries, Kind, ReturnInfo, Shim, Shown};

/// The protocol byte of the packets that hosts make: TCP's number.
const PROTOCOL: u8 = 6;

/// What is told of a shape.
pub fn kind_shown_of(shape: &Shape) -> ShapeKind
    ensures { result ≡ kind_shown_of shape.now }
{
    match shape {
        Shape::Request => ShapeKind::Request,
        Shape::List(_) => ShapeKind::List,
        Shape::NonceOnly(_) => ShapeKind::Nonce,
        Shape::Renewal(_) => ShapeKind::Renewal,
        Shape::Legacy => ShapeKind::Legacy,
    }
}

fn is_legacy(shape: &Shape) -> bool
    ensures { result ≡ is_legacy shape.now }
{
    match shape {
        Shape::Legacy => true,
        Shape::Request | Shape::List(_) | Shape::NonceOnly(_) | Shape::Renewal(_) => false,
    }
}

fn shown_of(held: Held) -> Shown
    ensures shown { result ≡ held_shown held }
    ensures fits { (version : ℕ) → IsShowableHeld version held → IsShown version result }
{
    let Held {
        nonce,
        rights,
        caps,
    } = held;
    Shown {
        nonce,
        pointer: 0,
        rights,
        caps,
    }
}

// The kind of a packet in that shape. A request has no entries yet.
fn kind_of(shape: Shape) -> Kind
    ensures kind { result ≡ kind_of shape }
    ensures fits { (version : ℕ) → IsShowable version shape → IsKind version result }
{
    match shape {
        Shape::Request | Shape::Legacy => Kind::Request(Entries::new()),
        Shape::List(held) => Kind::List(shown_of(held)),
        Shape::NonceOnly(nonce) => Kind::Nonce(nonce),
        Shape::Renewal(held) => Kind::Renewal(shown_of(held)),
    }
}

/// The shim of that version of a packet in that shape with return info. It is marked where the shape
/// shows nothing.
pub fn shim_of(version: u8, shape: Shape, back: ReturnInfo) -> Shim
    requires version { IsVersion version }
    requires shape { IsShowable version shape }
    requires back { IsReturn version back }
    ensures { result ≡ shim_of version shape back }
{
    let demoted = is_legacy(&shape);
    Shim::new(version, demoted, PROTOCOL, kind_of(shape), back)
}

/// What a packet in that shape carries that is no reply.
pub fn carried_by(version: u8, shape: Shape) -> Carried
    requires version { IsVersion version }
    requires shape { IsShowable version shape }
    ensures carried { result ≡ carried_by version shape }
    ensures fits { IsCarried result }
{
    if is_legacy(&shape) {
        return Carried::Nothing;
    }
    Carried::Shim(shim_of(version, shape, ReturnInfo::Nothing))
}
