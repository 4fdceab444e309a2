//! Rows of a trace. Its contract promises that rows which are held in little memory (`PackedRows`, or one by one
//! their brief forms) are the rows that were put there. What a text's rows are is read in `tva_trace`.
#![tactic(auto)]

mod brief;
mod packed;
mod rows;

pub use brief::{BriefWhat, brief_of, what_from};
pub use packed::PackedRows;
pub use rows::{Row, RowWhat};
