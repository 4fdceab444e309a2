// A whole generated trace.
ghost use Rattle.std.specs.Prelude.{◌≡◌, IfOk};
ghost use Rattle.tva_gen.specs.Text.{generated};

use crate::hosts::hosts_in;
use crate::rows::put_rows;
use rand_pcg::Lcg64Xsh32;
use std::alloc::{AllocError, Global};
use tva_plan::Config;

const HEADER: &[u8] = b"time,node,kind,src,dst,payload,shim\n";

/// The trace of a seed: its header line and `count` rows at the hosts of the configuration, or the
/// header line alone where it has no host. The words are those of the generator PCG (XSH RR 64/32)
/// that is started with `seed` and stream 1. The rows' times, in nanoseconds, never fall and stop
/// at the horizon; payloads are at most 1,000 bytes. An `Err` means that memory is wanting.
#[tactic(auto, unfolding(crate::specs::Text::generated))]
pub fn generate(
    alloc: Global,
    seed: u64,
    count: u32,
    config: &Config,
) -> Result<Vec<u8>, AllocError>
    ensures { IfOk result (λ text. text.items ≡ generated config.now seed count) }
{
    let mut text = Vec::from_slice(alloc, HEADER)?;
    let hosts = hosts_in(alloc, config.nodes.as_slice())?;
    if hosts.is_empty() {
        return Ok(text);
    }
    let mut words = Lcg64Xsh32::new(seed, 1);
    put_rows(
        &mut text,
        config.horizon.0,
        hosts.as_slice(),
        count,
        &mut words,
    )?;
    Ok(text)
}
