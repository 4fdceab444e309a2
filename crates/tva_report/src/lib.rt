//! What is told of a report. Its lines: which one is bad, and which is the first that differs from what was
//! expected, also where the report is compared with lines as they come. And what a router let through: how many
//! grants were charged, how often and with how many bytes, and which of them came nearest to twice its units. Its
//! contracts promise that a text without a bad line is a text of lines and no other, that the first bad line and
//! the first difference are the definitions', and that the sums are those over the router's events and restarts.
#![tactic(auto)]

mod charged;
mod differences;
mod laws;
mod pairs;
mod pieces;
mod sums;
mod sums_laws;

pub use charged::{Charged, charged_in};
pub use differences::{Comparison, Finding};
pub use laws::{
    difference_is_the_first, good_texts_are_lines, lines_are_read_back, lines_pass_their_test,
    report_is_what_is_expected,
};
pub use pairs::Pair;
pub use pieces::{Piece, Pieces, first_bad, is_line, line_count};
pub use sums::{Sums, Tally, limit, router_sums};
pub use sums_laws::{boots_are_a_plans, the_worst_is_the_worst};
