// Where in a configuration a fault stands.
ghost use Rattle.std.specs.Prelude.{◌≡◌};
ghost use Rattle.tva_config_entries.specs.Faults.{at};

use crate::faults::ConfigTable;

/// An entry of a table, numbered from 0.
#[derive(Clone, Copy)]
pub struct Place {
    pub table: ConfigTable,
    pub entry: u32,
}

impl Place {
    /// The place of that entry among those of a table.
    pub fn new(table: ConfigTable, entry: u32) -> Place
        ensures { result ≡ at table entry }
    {
        Place { table, entry }
    }
}
