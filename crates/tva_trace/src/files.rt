// How many rows of each node begin a transfer.
ghost use Rattle.std.specs.Prelude.{◌≡◌, ◌<◌, [], ◌∷◌, OnOk};
ghost use Rattle.tva_trace.specs.{Files.Counts, Files.FindsRoom, Files.counted, Rows.filed_by, Rows.has_room};

use crate::said::SaidWhat;
use std::alloc::AllocError;
use std::collections::HashMap;

/// How many rows of a node begin a transfer, by the node's number.
pub type FileCounts = HashMap<u16, u32>;

/// How many transfers a node may have.
const FILES_MAX: u32 = 65_536;

/// Whether a node may have one transfer more.
pub fn has_room(files: &FileCounts, node: u16) -> bool
    ensures { result ≡ has_room (counted files.now) node }
{
    files.get(&node).copied().unwrap_or(0) < FILES_MAX
}

/// Counts what is said at a node, where it begins a transfer.
pub fn count_file(files: &mut FileCounts, node: u16, said: &SaidWhat) -> Result<(), AllocError>
    requires { FindsRoom (counted files.old) node said.now }
    ensures { OnOk result (Counts (counted files.old) (counted files.new) (filed_by node said.now)) }
{
    match said {
        SaidWhat::File { .. } => count_one(files, node),
        _ => Ok(()),
    }
}

/// Counts one transfer more at a node.
fn count_one(files: &mut FileCounts, node: u16) -> Result<(), AllocError>
    requires { counted files.old node < 65536 }
    ensures { OnOk result (Counts (counted files.old) (counted files.new) (node ∷ [])) }
{
    *files.entry(node)?.or_insert(0) += 1;
    Ok(())
}
