//! Traces. Its contract promises that a trace is read to its rows, which are the only ones, or to the
//! first rule that its first bad record breaks. Rows, the lines of reports and the text of a shim, which it hands on,
//! stand in `tva_rows`, `tva_lines` and `tva_shim_text`.
#![tactic(auto)]

mod fields;
mod files;
mod items;
mod judge;
mod laws;
mod names;
mod pushed;
mod read;
mod rows;
mod said;
mod secrets;

pub use laws::{rows_are_there, texts_have_one_meaning, transfers_are_few};
pub use read::{read_packed, read_trace};
pub use rows::{TraceError, TraceFault, TraceRule};
pub use tva_lines::{line_text, lines_are_printable, summary_text};
pub use tva_rows::{PackedRows, Row, RowWhat};
pub use tva_shim_text::{bytes_have_one_text, shim_text};
