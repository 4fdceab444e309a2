// A row that is said is put behind others.
ghost use Rattle.std.specs.Prelude.{◌≡◌, [], ◌∷◌, ◌++◌, OnErr, OnOk};
ghost use Rattle.tva_rows.specs.declared.rows.Row.{Row};
ghost use Rattle.tva_trace.specs.Meaning.{Means};

use crate::said::{SaidRow, SaidShim, SaidWhat};
use std::alloc::AllocError;
use tva_rows::{PackedRows, Row, RowWhat};

/// Puts the row last that is meant by what is said. An error is want of memory, and changes nothing.
pub fn push_said(rows: &mut PackedRows, said: &SaidRow) -> Result<(), AllocError>
    ensures ok { OnOk result ((row : Row) × Means said.now row × (rows.new ≡ rows.old ++ row ∷ [])) }
    ensures err { OnErr result (rows.new ≡ rows.old) }
{
    let (time, node) = (said.time, said.node);
    let what = match &said.what {
        SaidWhat::Send { dst, payload } => RowWhat::Send {
            dst: *dst,
            payload: *payload,
        },
        SaidWhat::File { dst, size, segment } => RowWhat::File {
            dst: *dst,
            size: *size,
            segment: *segment,
        },
        SaidWhat::Tick { dst } => RowWhat::Tick { dst: *dst },
        SaidWhat::Inject {
            flow,
            payload,
            shim,
        } => {
            return match shim {
                SaidShim::Bytes(bytes) => rows.push_raw(
                    time,
                    node,
                    *flow,
                    *payload,
                    bytes.as_slice(),
                ),
                SaidShim::Built(shim) => rows.push_shim(time, node, *flow, *payload, shim),
            };
        }
    };
    rows.push(Row { time, node, what })
}
