// The parts of a report's line, each put at the end of a text that has room for it.
ghost use Rattle.std.specs.Prelude.{◌≡◌, ◌≤◌, ◌+◌, ◌∷◌, [], ◌++◌, codes, decimal, length};
ghost use Rattle.std.specs.List.{join_with_byte};
ghost use Rattle.tva_lines.specs.Words.{shape_word};
ghost use Rattle.tva_lines.specs.Lines.{HasLink, HasNode, HasOutcome, HasReply, HasSource, LinksJoinNodes, cause_or_dash, from_word, id_word, name_behind, name_before, name_of_node, outcome_word, reply_word};

use crate::words::{back_word, cause_word, drop_word, shape_word};
use arrayvec::ArrayString;
use itoa::Buffer;
use tva_base::{Cause, DataLine, Outcome, PacketId, ReplyLine};
use tva_plan::{Config, NodePlan};

/// A number, in at most 20 digits.
pub fn put_number(line: &mut ArrayString<256>, number: u64)
    requires { length line.old.bytes ≤ 236 }
    ensures bytes { line.new.bytes ≡ line.old.bytes ++ decimal number }
    ensures short { length line.new.bytes ≤ length line.old.bytes + 20 }
{
    line.push_str(Buffer::new().format(number));
}

/// A length or a place in bytes, in at most ten digits.
pub fn put_length(line: &mut ArrayString<256>, bytes: u32)
    requires { length line.old.bytes ≤ 246 }
    ensures bytes { line.new.bytes ≡ line.old.bytes ++ decimal bytes }
    ensures short { length line.new.bytes ≤ length line.old.bytes + 10 }
{
    line.push_str(Buffer::new().format(bytes));
}

/// A number of a transfer, or a length of a range in bytes, in at most five digits.
fn put_short(line: &mut ArrayString<256>, number: u16)
    requires { length line.old.bytes ≤ 251 }
    ensures bytes { line.new.bytes ≡ line.old.bytes ++ decimal number }
    ensures short { length line.new.bytes ≤ length line.old.bytes + 5 }
{
    line.push_str(Buffer::new().format(number));
}

/// The name of a node.
pub fn node_name(config: &Config, node: u16) -> &str
    requires { HasNode config.now node }
    ensures name { result.now ≡ name_of_node config.now node }
    ensures short { length result.now ≤ 16 }
{
    match &config.nodes.as_slice()[usize::from(node)] {
        NodePlan::Router(plan) => plan.name.as_str(),
        NodePlan::Host(plan) => plan.name.as_str(),
    }
}

/// The name of the node before a link.
pub fn name_before(config: &Config, link: u16) -> &str
    requires ends { LinksJoinNodes config.now }
    requires known { HasLink config.now link }
    ensures name { result.now ≡ name_before config.now link }
    ensures short { length result.now ≤ 16 }
{
    let plan = config.links.as_slice()[usize::from(link)];
    node_name(config, plan.from)
}

/// The name of the node behind a link.
pub fn name_behind(config: &Config, link: u16) -> &str
    requires ends { LinksJoinNodes config.now }
    requires known { HasLink config.now link }
    ensures name { result.now ≡ name_behind config.now link }
    ensures short { length result.now ≤ 16 }
{
    let plan = config.links.as_slice()[usize::from(link)];
    node_name(config, plan.to)
}

/// Where a packet came from.
pub fn source_word(config: &Config, from: Option<u16>) -> &str
    requires ends { LinksJoinNodes config.now }
    requires known { HasSource config.now from }
    ensures word { result.now ≡ from_word config.now from }
    ensures short { length result.now ≤ 16 }
{
    match from {
        None => "trace",
        Some(link) => name_before(config, link),
    }
}

/// The cause of an arrival's demotion, or a dash.
pub fn cause_or_dash(cause: Option<Cause>) -> &'static str
    ensures word { result.now ≡ cause_or_dash cause }
    ensures short { length result.now ≤ 13 }
{
    match cause {
        None => "-",
        Some(why) => cause_word(why),
    }
}

/// A packet's name.
pub fn put_id(config: &Config, id: PacketId, line: &mut ArrayString<256>)
    requires known { HasNode config.now id.node }
    requires room { length line.old.bytes ≤ 219 }
    ensures bytes { line.new.bytes ≡ line.old.bytes ++ id_word config.now id }
    ensures short { length line.new.bytes ≤ length line.old.bytes + 37 }
{
    line.push_str(node_name(config, id.node));
    line.push_str("#");
    put_number(line, id.ordinal);
}

/// What became of a packet that was to be queued.
pub fn put_outcome(config: &Config, outcome: Outcome, line: &mut ArrayString<256>)
    requires ends { LinksJoinNodes config.now }
    requires known { HasOutcome config.now outcome }
    requires room { length line.old.bytes ≤ 233 }
    ensures bytes { line.new.bytes ≡ line.old.bytes ++ outcome_word config.now outcome }
    ensures short { length line.new.bytes ≤ length line.old.bytes + 23 }
{
    match outcome {
        Outcome::Queued(link) => {
            line.push_str("queued:");
            line.push_str(name_behind(config, link));
        }
        Outcome::Dropped(why) => {
            line.push_str("dropped:");
            line.push_str(drop_word(why));
        }
    }
}

/// A reply, or a dash.
pub fn put_reply(config: &Config, reply: &Option<ReplyLine>, line: &mut ArrayString<256>)
    requires ends { LinksJoinNodes config.now }
    requires known { HasReply config.now reply.now }
    requires room { length line.old.bytes ≤ 150 }
    ensures bytes { line.new.bytes ≡ line.old.bytes ++ reply_word config.now reply.now }
    ensures short { length line.new.bytes ≤ length line.old.bytes + 88 }
{
    match reply {
        None => line.push_str("-"),
        Some(reply) => put_answer(config, reply, line),
    }
}

/// A reply that was made, as one word.
fn put_answer(config: &Config, reply: &ReplyLine, line: &mut ArrayString<256>)
    requires ends { LinksJoinNodes config.now }
    requires known { HasReply config.now (Some reply.now) }
    requires room { length line.old.bytes ≤ 150 }
    ensures bytes { line.new.bytes ≡ line.old.bytes ++ reply_word config.now (Some reply.now) }
    ensures short { length line.new.bytes ≤ length line.old.bytes + 88 }
{
    put_made(config, reply, line);
    line.push_str("/");
    line.push_str(back_word(reply.back));
    line.push_str("/");
    put_outcome(config, reply.outcome, line);
}

/// Which packet a reply is, its length and its shape.
fn put_made(config: &Config, reply: &ReplyLine, line: &mut ArrayString<256>)
    requires known { HasNode config.now reply.now.id.node }
    requires room { length line.old.bytes ≤ 150 }
    ensures bytes { line.new.bytes ≡ line.old.bytes ++ join_with_byte 47 (id_word config.now reply.now.id ∷ decimal reply.now.length ∷ shape_word reply.now.shape ∷ []) }
    ensures short { length line.new.bytes ≤ length line.old.bytes + 56 }
{
    put_id(config, reply.id, line);
    line.push_str("/");
    put_length(line, reply.length);
    line.push_str("/");
    line.push_str(shape_word(reply.shape));
}

/// A range that was delivered, as one word.
pub fn put_range(range: &DataLine, line: &mut ArrayString<256>)
    requires room { length line.old.bytes ≤ 229 }
    ensures bytes { line.new.bytes ≡ line.old.bytes ++ join_with_byte 58 (codes "data" ∷ decimal range.now.transfer ∷ decimal range.now.first ∷ decimal range.now.bytes ∷ []) }
    ensures short { length line.new.bytes ≤ length line.old.bytes + 27 }
{
    line.push_str("data:");
    put_short(line, range.transfer);
    line.push_str(":");
    put_length(line, range.first);
    line.push_str(":");
    put_short(line, range.bytes);
}
