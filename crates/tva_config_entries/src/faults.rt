// What is wrong with a configuration.
ghost use Rattle.std.specs.Prelude.{◌≡◌, Some};
ghost use Rattle.tva_config_entries.specs.Words.{table_word, rule_word};
ghost use Rattle.tva_config_entries.specs.declared.faults.ConfigError.TheVariants.{Fault, OutOfMemory};

use std::alloc::{AllocError, AllocFailed};
use std::fmt;
use std::fmt::{Display, Formatter, Write};
use tva_base::Key;

/// The part of a configuration that a fault stands in.
#[derive(Clone, Copy, Debug)]
pub enum ConfigTable {
    Top,
    Router,
    Host,
    Link,
    Route,
    Restart,
    Reroute,
}

/// The rule that a fault breaks.
#[derive(Clone, Copy, Debug)]
pub enum ConfigRule {
    Syntax,
    Unknown,
    Missing,
    Value,
    Count,
    Names,
    Addresses,
    Retry,
    Ends,
    Pair,
    Uplink,
    Owner,
    Via,
    Prefix,
    Slots,
    Rings,
    Times,
}

/// A fault: the rule that is broken, the table and the number of its entry (from 0; 0 for the top),
/// and the key, `-` where none is meant.
#[derive(Debug, Drop)]
pub struct ConfigFault {
    pub rule: ConfigRule,
    pub table: ConfigTable,
    pub entry: u32,
    pub key: Key,
}

/// Why a configuration isn't given.
#[derive(Drop)]
pub enum ConfigError {
    Fault(ConfigFault),
    OutOfMemory,
}

impl From<ConfigFault> for ConfigError {
    ghost from_gives = { λ fault error. error ≡ Fault fault };

    fn from(fault: ConfigFault) -> ConfigError {
        ConfigError::Fault(fault)
    }
}

impl From<AllocError> for ConfigError {
    ghost from_gives = { λ _ error. error ≡ OutOfMemory };

    fn from(_error: AllocError) -> ConfigError {
        ConfigError::OutOfMemory
    }
}

impl<T: Drop> From<AllocFailed<T>> for ConfigError {
    ghost from_gives = { λ _ error. error ≡ OutOfMemory };

    fn from(_error: AllocFailed<T>) -> ConfigError {
        ConfigError::OutOfMemory
    }
}

impl ConfigTable {
    /// The table's name in the text of a fault.
    pub fn word(self) -> &'static str
        ensures { result.now ≡ table_word self }
    {
        match self {
            ConfigTable::Top => "top",
            ConfigTable::Router => "router",
            ConfigTable::Host => "host",
            ConfigTable::Link => "link",
            ConfigTable::Route => "route",
            ConfigTable::Restart => "restart",
            ConfigTable::Reroute => "reroute",
        }
    }
}

impl ConfigRule {
    /// The rule's name in the text of a fault.
    pub fn word(self) -> &'static str
        ensures { result.now ≡ rule_word self }
    {
        match self {
            ConfigRule::Syntax => "syntax",
            ConfigRule::Unknown => "unknown",
            ConfigRule::Missing => "missing",
            ConfigRule::Value => "value",
            ConfigRule::Count => "count",
            ConfigRule::Names => "names",
            ConfigRule::Addresses => "addresses",
            ConfigRule::Retry => "retry",
            ConfigRule::Ends => "ends",
            ConfigRule::Pair => "pair",
            ConfigRule::Uplink => "uplink",
            ConfigRule::Owner => "owner",
            ConfigRule::Via => "via",
            ConfigRule::Prefix => "prefix",
            ConfigRule::Slots => "slots",
            ConfigRule::Rings => "rings",
            ConfigRule::Times => "times",
        }
    }
}

impl Display for ConfigTable {
    ghost output = { λ table. Some (table_word table) };

    fn fmt<W: Write>(&self, f: &mut Formatter<W>) -> fmt::Result {
        f.write_str(self.word())
    }
}

impl Display for ConfigRule {
    ghost output = { λ rule. Some (rule_word rule) };

    fn fmt<W: Write>(&self, f: &mut Formatter<W>) -> fmt::Result {
        f.write_str(self.word())
    }
}
