// Values that come from outside, and that no run of the program shows. What runs show stands in
// `tests/faults` and `tests/audits.txt`.
mod differences;
mod lines;
mod plans;

use std::alloc::Global;
use std::test::Fail;
use tva_config::read_config;
use tva_plan::Config;

/// The configuration of a text that is one.
pub fn config_of(alloc: Global, text: &str) -> Result<Config, Fail> {
    match read_config(alloc, text.as_bytes()) {
        Ok(config) => Ok(config),
        Err(_) => Err(Fail::from("the text is no configuration")),
    }
}
