// What no run of the program shows of nodes and networks: that nodes are worked at once, that the gate is
// told of a node before its work, what memory holds of their past, and calls that the program doesn't make.
// Whole runs, texts and audits are shown by `tests/replays` and `tests/audits`.
ghost use Rattle.std.specs.Prelude.{IfOk};
ghost use Rattle.tva_plan.specs.Valid.{IsConfig};

mod at_once;
mod calls;
mod keeping;
mod kept;
mod watch;

use std::alloc::Global;
use std::test::Fail;
use tva_config::read_config;
use tva_net::{Memory, Net};
use tva_plan::Config;
use tva_trace::{read_packed, read_trace};

// The walk of two hosts and a router between them, with one event less than happen in it, and its rows.
const WALK: &str =
    "horizon_ns = 1000000000\nmax_events = 17\n[[router]]\nname = \"R1\"\nmaster = \"000102030405060708090a0b0c0d0e0f101112131415161718191a1b1c1d1e1f\"\nslots = 8\n[[host]]\nname = \"A\"\naddress = \"10.0.0.1\"\npolicy = \"client\"\n[[host]]\nname = \"B\"\naddress = \"10.0.1.1\"\npolicy = \"server\"\n[[link]]\nfrom = \"A\"\nto = \"R1\"\nns_per_byte = 10\ndelay_ns = 1000000\ntag = 1\n[[link]]\nfrom = \"R1\"\nto = \"A\"\nns_per_byte = 10\ndelay_ns = 1000000\n[[link]]\nfrom = \"R1\"\nto = \"B\"\nns_per_byte = 10\ndelay_ns = 1000000\n[[link]]\nfrom = \"B\"\nto = \"R1\"\nns_per_byte = 10\ndelay_ns = 1000000\ntag = 2\n[[route]]\nrouter = \"R1\"\nprefix = \"10.0.0.0/24\"\nvia = \"A\"\n[[route]]\nrouter = \"R1\"\nprefix = \"10.0.1.0/24\"\nvia = \"B\"\n";

const STEPS: &str =
    "time,node,kind,src,dst,payload,shim\n0,A,send,,10.0.1.1,77,\n10000000,A,send,,10.0.1.1,1000,\n";

// A configuration as it is read.
fn config(alloc: Global, text: &str) -> Result<Config, Fail>
    ensures { IfOk result (λ config. IsConfig config) }
{
    match read_config(alloc, text.as_bytes()) {
        Ok(config) => Ok(config),
        Err(_) => Err(Fail::from("no configuration")),
    }
}

// The network of a configuration and a trace, of whose past memory keeps so much.
fn network(alloc: Global, text: &str, trace: &str, keeps: Memory) -> Result<Net, Fail> {
    let config = config(alloc, text)?;
    let net = if keeps == Memory::All {
        let rows = read_trace(alloc, trace.as_bytes(), &config)?;
        Net::build(alloc, &config, rows)?
    } else {
        let rows = read_packed(alloc, trace.as_bytes(), &config)?;
        Net::build_keeping(alloc, &config, rows, keeps)?
    };
    Ok(net)
}
