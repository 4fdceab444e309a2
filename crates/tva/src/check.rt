// The line of the command `check`.
ghost use Rattle.std.specs.Prelude.{◌≡◌, ◌≤◌, ◌+◌, ◌++◌, decimal, length};
ghost use Rattle.tva_plan.specs.Valid.{IsConfig};
ghost use Rattle.tva.specs.Check.{check_line};

use arrayvec::ArrayString;
use itoa::Buffer;
use tva_plan::{Config, link_count, node_count, route_count, slot_count};

/// Leaves what the configuration holds in `line`, with its line feed and nothing else.
#[tactic(auto, unfolding(crate::specs::Check::check_line))]
pub fn put_check_line(config: &Config, line: &mut ArrayString<256>)
    requires { IsConfig config.now }
    ensures { line.new.bytes ≡ check_line config.now }
{
    line.clear();
    put_count(line, "config nodes=", node_count(config) as u64);
    put_count(line, " links=", link_count(config) as u64);
    put_count(line, " routes=", route_count(config) as u64);
    put_count(line, " slots=", slot_count(config) as u64);
    line.push_str("\n");
}

// A word and a number.
fn put_count(line: &mut ArrayString<256>, word: &str, count: u64)
    requires room { length line.old.bytes ≤ 200 }
    requires word { length word.now ≤ 13 }
    ensures bytes { line.new.bytes ≡ line.old.bytes ++ word.now ++ decimal count }
    ensures short { length line.new.bytes ≤ length line.old.bytes + 33 }
{
    line.push_str(word);
    line.push_str(Buffer::new().format(count));
}
