// The rows of a generated trace.
ghost use Rattle.std.specs.Prelude.{◌≡◌, ◌<◌, ◌++◌, ◌∷◌, OnOk, decimal, length, map};
ghost use Rattle.tva_gen.specs.Hosts.{address_text};
ghost use Rattle.tva_gen.specs.Rows.{row_line, raw_fields, drawn_rows, send_fields, joined};

use crate::draw::{RowWords, draw, is_raw, later, payload};
use crate::hosts::{host_at, put_address, put_number};
use rand_pcg::Lcg64Xsh32;
use std::alloc::AllocError;
use tva_base::HostPlan;

/// Puts so many rows behind a text, the first of which is drawn from the generator's state.
pub fn put_rows(
    text: &mut Vec<u8>,
    horizon: u64,
    hosts: &[&HostPlan],
    count: u32,
    words: &mut Lcg64Xsh32,
) -> Result<(), AllocError>
    requires { 0 < length hosts.now }
    ensures { OnOk result (text.new.items ≡ text.old.items ++ drawn_rows horizon (map (λ h. h.now) hosts.now) count 0 words.old) }
{
    let mut time = 0;
    let mut left = count;
    while left > 0 {
        let draw = draw(words);
        time = later(horizon, time, draw);
        put_line(text, hosts, time, draw)?;
        left -= 1;
    }
    Ok(())
}

/// Puts the line of a row.
#[tactic(auto, unfolding(crate::specs::Rows::row_line))]
fn put_line(
    text: &mut Vec<u8>,
    hosts: &[&HostPlan],
    time: u64,
    draw: RowWords,
) -> Result<(), AllocError>
    requires { 0 < length hosts.now }
    ensures { OnOk result (text.new.items ≡ text.old.items ++ row_line (map (λ h. h.now) hosts.now) time draw) }
{
    let from = host_at(hosts, draw.from);
    let to = host_at(hosts, draw.to);
    if is_raw(draw) {
        put_raw(text, time, from, to, payload(draw))
    } else {
        put_send(text, time, from, to, payload(draw))
    }
}

/// Puts the line of a row that gives the bytes of a shim.
fn put_raw(
    text: &mut Vec<u8>,
    time: u64,
    from: &HostPlan,
    to: &HostPlan,
    payload: u32,
) -> Result<(), AllocError>
    ensures { OnOk result (text.new.items ≡ text.old.items ++ joined (raw_fields time from.now to.now payload)) }
{
    put_head(text, time, from)?;
    text.extend_from_slice(b",raw,")?;
    put_address(text, from.address)?;
    text.push(b',')?;
    put_goal(text, to, payload)?;
    text.extend_from_slice(b",100600\n")
}

/// Puts the line of a row at which its host sends.
fn put_send(
    text: &mut Vec<u8>,
    time: u64,
    from: &HostPlan,
    to: &HostPlan,
    payload: u32,
) -> Result<(), AllocError>
    ensures { OnOk result (text.new.items ≡ text.old.items ++ joined (send_fields time from.now to.now payload)) }
{
    put_head(text, time, from)?;
    text.extend_from_slice(b",send,,")?;
    put_goal(text, to, payload)?;
    text.extend_from_slice(b",\n")
}

/// Puts a time and a host's name, with a comma between them.
fn put_head(text: &mut Vec<u8>, time: u64, from: &HostPlan) -> Result<(), AllocError>
    ensures { OnOk result (text.new.items ≡ text.old.items ++ decimal time ++ 44 ∷ from.now.name) }
{
    put_number(text, time)?;
    text.push(b',')?;
    text.extend_from_slice(from.name.as_str().as_bytes())
}

/// Puts a destination and a payload, with a comma between them.
fn put_goal(text: &mut Vec<u8>, to: &HostPlan, payload: u32) -> Result<(), AllocError>
    ensures { OnOk result (text.new.items ≡ text.old.items ++ address_text to.now.address ++ 44 ∷ decimal payload) }
{
    put_address(text, to.address)?;
    text.push(b',')?;
    put_number(text, u64::from(payload))
}
