// The lines of a report.
ghost use Rattle.std.specs.Prelude.{◌≡◌, ◌≤◌, ◌+◌, ◌∷◌, [], ◌++◌, codes, decimal, length};
ghost use Rattle.std.specs.List.{join_with_byte};
ghost use Rattle.tva_lines.specs.Words.{back_word, class_word, shape_word, what_word};
ghost use Rattle.tva_lines.specs.Lines.{HasEvent, HasHappened, HasLink, HasNode, HasOutcome, HasReply, HasSource, LinksJoinNodes, cause_or_dash, from_word, happened_words, id_word, line_of, name_behind, name_before, outcome_word, range_words, reply_word, summary_of, text_of_event, text_of_totals};
ghost use Rattle.tva_base.specs.Printable.{IsLine};
ghost use Rattle.tva_plan.specs.Valid.{IsConfig};

use crate::parts::{
    cause_or_dash, name_before, name_behind, node_name, put_id, put_length, put_number,
    put_outcome, put_range, put_reply, source_word,
};
use crate::words::{back_word, class_word, shape_word, what_word};
use arrayvec::ArrayString;
use tva_base::{
    BackKind, Class, DataLine, Event, Fate, Happened, Outcome, PacketId, ReplyLine, ShapeKind,
    Time, Totals, WhatKind,
};
use tva_plan::Config;

/// Leaves the event's line in `line`, with its line feed and nothing else. No line is longer than
/// 255 bytes: names have at most 16 bytes, times and numbers of packets at most 20 digits, lengths of
/// packets and places in a file at most ten, and numbers of transfers and lengths of ranges at most five.
/// The longest line of an event, that of a receipt with a reply and a range, has 242 bytes then.
/// Under a valid configuration each byte before the line feed is from the blank to `~`.
pub fn line_text(config: &Config, event: &Event, line: &mut ArrayString<256>)
    requires ends { LinksJoinNodes config.now }
    requires known { HasEvent config.now event.now }
    ensures line { line.new.bytes ≡ line_of config.now event.now }
    ensures short { length line.new.bytes ≤ 255 }
    ensures printable { IsConfig config.now → IsLine (text_of_event config.now event.now) }
{
    put_event(config, event, line);
    line.push_str("\n");
}

/// Leaves the last line of a report in `line`, with its line feed and nothing else. It has at most
/// 238 bytes.
pub fn summary_text(totals: &Totals, line: &mut ArrayString<256>)
    ensures line { line.new.bytes ≡ summary_of totals.now }
    ensures short { length line.new.bytes ≤ 255 }
    ensures printable { IsLine (text_of_totals totals.now) }
{
    put_totals(totals, line);
    line.push_str("\n");
}

/// The text of an event, and nothing else.
fn put_event(config: &Config, event: &Event, line: &mut ArrayString<256>)
    requires ends { LinksJoinNodes config.now }
    requires known { HasEvent config.now event.now }
    ensures text { line.new.bytes ≡ text_of_event config.now event.now }
    ensures short { length line.new.bytes ≤ 242 }
{
    line.clear();
    put_number(line, event.time.0);
    line.push_str(" ");
    line.push_str(node_name(config, event.node));
    line.push_str(" ");
    put_happened(config, &event.happened, line);
}

/// The text of the sums, and nothing else.
fn put_totals(totals: &Totals, line: &mut ArrayString<256>)
    ensures text { line.new.bytes ≡ text_of_totals totals.now }
    ensures short { length line.new.bytes ≤ 238 }
{
    line.clear();
    put_work(totals, line);
    line.push_str(" ");
    put_traffic(totals, line);
}

/// The words of what happened.
fn put_happened(config: &Config, happened: &Happened, line: &mut ArrayString<256>)
    requires ends { LinksJoinNodes config.now }
    requires known { HasHappened config.now happened.now }
    requires room { length line.old.bytes ≤ 38 }
    ensures bytes { line.new.bytes ≡ line.old.bytes ++ join_with_byte 32 (happened_words config.now happened.now) }
    ensures short { length line.new.bytes ≤ length line.old.bytes + 204 }
{
    match happened {
        Happened::Arrived {
            id,
            length,
            from,
            fate,
        } => {
            put_head(config, "in", *id, *length, line);
            put_arrival(config, *from, fate, line);
        }
        Happened::Sent {
            id,
            length,
            shape,
            outcome,
        } => {
            put_head(config, "send", *id, *length, line);
            put_sending(config, *shape, *outcome, line);
        }
        Happened::Received {
            id,
            length,
            from,
            payload: _,
            what,
            back,
            reply,
            range,
        } => {
            put_head(config, "recv", *id, *length, line);
            put_receipt(config, *from, *what, *back, reply, range, line);
        }
        Happened::Started {
            id,
            length,
            link,
            class,
            end,
        } => {
            put_head(config, "start", *id, *length, line);
            put_start(config, *link, *class, *end, line);
        }
        Happened::Ticked => line.push_str("tick"),
    }
}

/// The three words with which an event of a packet begins: what happened, the packet and its length.
fn put_head(config: &Config, word: &str, id: PacketId, bytes: u32, line: &mut ArrayString<256>)
    requires known { HasNode config.now id.node }
    requires word { length word.now ≤ 5 }
    requires room { length line.old.bytes ≤ 38 }
    ensures bytes { line.new.bytes ≡ line.old.bytes ++ join_with_byte 32 (word.now ∷ id_word config.now id ∷ decimal bytes ∷ []) }
    ensures short { length line.new.bytes ≤ length line.old.bytes + 54 }
{
    line.push_str(word);
    line.push_str(" ");
    put_id(config, id, line);
    line.push_str(" ");
    put_length(line, bytes);
}

/// What else a line says of an arrival at a router.
fn put_arrival(config: &Config, from: Option<u16>, fate: &Fate, line: &mut ArrayString<256>)
    requires ends { LinksJoinNodes config.now }
    requires source { HasSource config.now from }
    requires outcome { HasOutcome config.now fate.now.outcome }
    requires room { length line.old.bytes ≤ 92 }
    ensures bytes { line.new.bytes ≡ line.old.bytes ++ 32 ∷ join_with_byte 32 (from_word config.now from ∷ class_word fate.now.class ∷ cause_or_dash fate.now.cause ∷ outcome_word config.now fate.now.outcome ∷ []) }
    ensures short { length line.new.bytes ≤ length line.old.bytes + 63 }
{
    line.push_str(" ");
    line.push_str(source_word(config, from));
    line.push_str(" ");
    line.push_str(class_word(fate.class));
    line.push_str(" ");
    line.push_str(cause_or_dash(fate.cause));
    line.push_str(" ");
    put_outcome(config, fate.outcome, line);
}

/// What else a line says of a row at a host.
fn put_sending(config: &Config, shape: ShapeKind, outcome: Outcome, line: &mut ArrayString<256>)
    requires ends { LinksJoinNodes config.now }
    requires known { HasOutcome config.now outcome }
    requires room { length line.old.bytes ≤ 92 }
    ensures bytes { line.new.bytes ≡ line.old.bytes ++ 32 ∷ join_with_byte 32 (shape_word shape ∷ outcome_word config.now outcome ∷ []) }
    ensures short { length line.new.bytes ≤ length line.old.bytes + 32 }
{
    line.push_str(" ");
    line.push_str(shape_word(shape));
    line.push_str(" ");
    put_outcome(config, outcome, line);
}

/// What else a line says of a receipt at a host.
fn put_receipt(
    config: &Config,
    from: u16,
    what: WhatKind,
    back: BackKind,
    reply: &Option<ReplyLine>,
    range: &Option<DataLine>,
    line: &mut ArrayString<256>,
)
    requires ends { LinksJoinNodes config.now }
    requires source { HasLink config.now from }
    requires reply { HasReply config.now reply.now }
    requires room { length line.old.bytes ≤ 92 }
    ensures bytes { line.new.bytes ≡ line.old.bytes ++ 32 ∷ join_with_byte 32 (name_before config.now from ∷ what_word what ∷ back_word back ∷ reply_word config.now reply.now ∷ range_words range.now) }
    ensures short { length line.new.bytes ≤ length line.old.bytes + 150 }
{
    line.push_str(" ");
    line.push_str(name_before(config, from));
    line.push_str(" ");
    line.push_str(what_word(what));
    line.push_str(" ");
    line.push_str(back_word(back));
    line.push_str(" ");
    put_reply_and_range(config, reply, range, line);
}

/// With what a line of a receipt ends: the reply, and the range that was delivered, if one was.
fn put_reply_and_range(
    config: &Config,
    reply: &Option<ReplyLine>,
    range: &Option<DataLine>,
    line: &mut ArrayString<256>,
)
    requires ends { LinksJoinNodes config.now }
    requires reply { HasReply config.now reply.now }
    requires room { length line.old.bytes ≤ 126 }
    ensures bytes { line.new.bytes ≡ line.old.bytes ++ join_with_byte 32 (reply_word config.now reply.now ∷ range_words range.now) }
    ensures short { length line.new.bytes ≤ length line.old.bytes + 116 }
{
    put_reply(config, reply, line);
    match range {
        None => {}
        Some(range) => {
            line.push_str(" ");
            put_range(range, line);
        }
    }
}

/// What else a line says of a start on a link.
fn put_start(config: &Config, link: u16, class: Class, end: Time, line: &mut ArrayString<256>)
    requires ends { LinksJoinNodes config.now }
    requires known { HasLink config.now link }
    requires room { length line.old.bytes ≤ 92 }
    ensures bytes { line.new.bytes ≡ line.old.bytes ++ 32 ∷ join_with_byte 32 (name_behind config.now link ∷ class_word class ∷ decimal end.0 ∷ []) }
    ensures short { length line.new.bytes ≤ length line.old.bytes + 46 }
{
    line.push_str(" ");
    line.push_str(name_behind(config, link));
    line.push_str(" ");
    line.push_str(class_word(class));
    line.push_str(" ");
    put_number(line, end.0);
}

/// The sums of what routers did, after the first word.
fn put_work(totals: &Totals, line: &mut ArrayString<256>)
    requires room { length line.old.bytes ≡ 0 }
    ensures bytes { line.new.bytes ≡ join_with_byte 32 (codes "total" ∷ (codes "events=" ++ decimal totals.now.events) ∷ (codes "routed=" ++ decimal totals.now.routed) ∷ (codes "authorised=" ++ decimal totals.now.authorised) ∷ (codes "demoted=" ++ decimal totals.now.demoted) ∷ []) }
    ensures short { length line.new.bytes ≤ 123 }
{
    line.push_str("total");
    line.push_str(" events=");
    put_number(line, totals.events);
    line.push_str(" routed=");
    put_number(line, totals.routed);
    line.push_str(" authorised=");
    put_number(line, totals.authorised);
    line.push_str(" demoted=");
    put_number(line, totals.demoted);
}

/// The sums of drops, starts and receipts.
fn put_traffic(totals: &Totals, line: &mut ArrayString<256>)
    requires room { length line.old.bytes ≤ 124 }
    ensures bytes { line.new.bytes ≡ line.old.bytes ++ join_with_byte 32 ((codes "dropped=" ++ decimal totals.now.dropped) ∷ (codes "started=" ++ decimal totals.now.started) ∷ (codes "received=" ++ decimal totals.now.received) ∷ (codes "bytes=" ++ decimal totals.now.bytes) ∷ []) }
    ensures short { length line.new.bytes ≤ length line.old.bytes + 114 }
{
    line.push_str("dropped=");
    put_number(line, totals.dropped);
    line.push_str(" started=");
    put_number(line, totals.started);
    line.push_str(" received=");
    put_number(line, totals.received);
    line.push_str(" bytes=");
    put_number(line, totals.bytes);
}
