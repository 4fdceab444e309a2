// The words of a report.
ghost use Rattle.std.specs.Prelude.{◌≡◌, ◌≤◌, length};
ghost use Rattle.tva_lines.specs.Words.{back_word, cause_word, class_word, drop_word, shape_word, what_word};

use tva_base::{BackKind, Cause, Class, DropCause, ShapeKind, WhatKind};

pub fn class_word(class: Class) -> &'static str
    ensures word { result.now ≡ class_word class }
    ensures short { length result.now ≤ 7 }
{
    match class {
        Class::Request => "request",
        Class::Regular => "regular",
        Class::Legacy => "legacy",
    }
}

pub fn cause_word(cause: Cause) -> &'static str
    ensures word { result.now ≡ cause_word cause }
    ensures short { length result.now ≤ 13 }
{
    match cause {
        Cause::NoCapability => "no-capability",
        Cause::Expired => "expired",
        Cause::BadHash => "bad-hash",
        Cause::Superseded => "superseded",
        Cause::OverN => "over-n",
        Cause::CacheFull => "cache-full",
        Cause::UnknownNonce => "unknown-nonce",
        Cause::PathFull => "path-full",
        Cause::Malformed => "malformed",
    }
}

pub fn drop_word(why: DropCause) -> &'static str
    ensures word { result.now ≡ drop_word why }
    ensures short { length result.now ≤ 10 }
{
    match why {
        DropCause::HopLimit => "hop-limit",
        DropCause::NoRoute => "no-route",
        DropCause::NoQueue => "no-queue",
        DropCause::QueueFull => "queue-full",
    }
}

pub fn shape_word(shape: ShapeKind) -> &'static str
    ensures word { result.now ≡ shape_word shape }
    ensures short { length result.now ≤ 7 }
{
    match shape {
        ShapeKind::Request => "request",
        ShapeKind::List => "list",
        ShapeKind::Nonce => "nonce",
        ShapeKind::Renewal => "renewal",
        ShapeKind::Legacy => "legacy",
        ShapeKind::Trace => "trace",
    }
}

pub fn what_word(what: WhatKind) -> &'static str
    ensures word { result.now ≡ what_word what }
    ensures short { length result.now ≤ 7 }
{
    match what {
        WhatKind::Stray => "stray",
        WhatKind::Demoted => "demoted",
        WhatKind::Request => "request",
        WhatKind::Renewal => "renewal",
        WhatKind::Regular => "regular",
        WhatKind::Legacy => "legacy",
    }
}

pub fn back_word(back: BackKind) -> &'static str
    ensures word { result.now ≡ back_word back }
    ensures short { length result.now ≤ 7 }
{
    match back {
        BackKind::Nothing => "-",
        BackKind::Notice => "notice",
        BackKind::Grant => "grant",
        BackKind::Ignored => "ignored",
    }
}
