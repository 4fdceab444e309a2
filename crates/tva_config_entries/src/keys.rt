// What stands at the keys of an entry.
ghost use Rattle.std.specs.Prelude.{◌≡◌, ◌≤◌, [], length, map, option_map, string_bytes};
ghost use Rattle.std.specs.{List.list_all, BTreeMap.keys};
ghost use Rattle.toml.specs.{Data.get_member, View.table_view, View.view};
ghost use Rattle.tva_config_entries.specs.declared.faults.ConfigRule.TheVariants as rule;
ghost use Rattle.tva_config_entries.specs.Faults.{fault_at, found, Answers, AnswersBy};
ghost use Rattle.tva_config_entries.specs.Keys.{is_listed, are_listed, only_listed, required, optional};
ghost use Rattle.tva_config_entries.specs.Values as kind;

use crate::faults::{ConfigError, ConfigFault, ConfigRule};
use crate::place::Place;
use crate::values::{Kind, Number};
use crate::{arrays, values};
use std::alloc::Global;
use toml::{Table, Value};
use tva_base::{Key, Listed};

/// A fault at an entry.
pub fn fault(place: Place, rule: ConfigRule, key: &str) -> ConfigFault
    requires { length key.now ≤ 24 }
    ensures { result ≡ fault_at place rule key.now }
{
    ConfigFault {
        rule,
        table: place.table,
        entry: place.entry,
        key: Key::new(key),
    }
}

// A key that isn't there.
fn missing(place: Place, key: &str) -> ConfigFault
    requires { length key.now ≤ 24 }
    ensures { result ≡ fault_at place rule.Missing key.now }
{
    fault(place, ConfigRule::Missing, key)
}

/// Refuses a table that has another key than these.
#[tactic(auto, unfolding(crate::specs::Keys::only_listed))]
pub fn only_listed(place: Place, table: &Table, listed: &[&str]) -> Result<(), ConfigFault>
    ensures { result ≡ only_listed place (map (λ key. key.now) listed.now) (table_view table.now) }
{
    if are_listed(table, listed) {
        return Ok(());
    }
    Err(fault(place, ConfigRule::Unknown, "-"))
}

fn are_listed(table: &Table, listed: &[&str]) -> bool
    ensures { result ≡ are_listed (map (λ key. key.now) listed.now) (table_view table.now) }
{
    have_all(table, listed)
}

fn have_all(table: &Table, listed: &[&str]) -> bool
    ensures { result ≡ list_all (λ name. is_listed (map (λ key. key.now) listed.now) (string_bytes name)) (keys table.now) }
{
    table.keys().all(|name| is_listed(listed, name.as_str()))
}

fn is_listed(listed: &[&str], name: &str) -> bool
    ensures { result ≡ is_listed (map (λ key. key.now) listed.now) name.now }
{
    listed.contains(&name)
}

/// The value of a key, where it is there.
pub fn value_at<'a>(table: &'a Table, key: &str) -> Option<&'a Value>
    ensures { option_map (λ value. view value.now) result ≡ get_member key.now (table_view table.now) }
{
    table.get(key)
}

/// A value of the kind, or a fault.
pub fn value_or_fault<T: Drop>(place: Place, key: &str, given: Option<T>) -> Result<T, ConfigFault>
    requires { length key.now ≤ 24 }
    ensures { result ≡ found given (fault_at place rule.Value key.now) }
{
    match given {
        Some(value) => Ok(value),
        None => Err(fault(place, ConfigRule::Value, key)),
    }
}

/// A value of a kind, which must be there.
#[tactic(auto, unfolding(crate::specs::Keys::required))]
pub fn required<T: Kind>(place: Place, table: &Table, key: &str) -> Result<T, ConfigFault>
    requires { length key.now ≤ 24 }
    ensures { result ≡ required place (table_view table.now) key.now T.kind }
{
    match value_at(table, key) {
        None => Err(missing(place, key)),
        Some(value) => value_or_fault(place, key, T::of(value)),
    }
}

/// A value of a kind, or the default.
#[tactic(auto, unfolding(crate::specs::Keys::optional))]
pub fn optional<T: Kind>(
    place: Place,
    table: &Table,
    key: &str,
    default: T,
) -> Result<T, ConfigFault>
    requires { length key.now ≤ 24 }
    ensures { result ≡ optional place (table_view table.now) key.now T.kind default }
{
    match value_at(table, key) {
        None => Ok(default),
        Some(value) => value_or_fault(place, key, T::of(value)),
    }
}

/// An array of at most 1,024 values of a kind, or none.
#[tactic(auto, unfolding(crate::specs::Keys::optional))]
pub fn few_items<T: Kind>(
    alloc: Global,
    place: Place,
    table: &Table,
    key: &str,
) -> Result<Listed<T>, ConfigError>
    requires { length key.now ≤ 24 }
    ensures { Answers (optional place (table_view table.now) key.now (kind.few_items T.kind) []) result }
{
    match value_at(table, key) {
        None => Ok(Listed::new(Vec::new(alloc))),
        Some(value) => {
            let found = value_or_fault(place, key, arrays::few_items(alloc, value)?)?;
            Ok(Listed::new(found))
        }
    }
}

/// A number that must be there, from `low` to `high`.
#[tactic(auto, unfolding(crate::specs::Keys::required))]
pub fn number<T: Number>(
    place: Place,
    table: &Table,
    key: &str,
    low: T,
    high: T,
) -> Result<T, ConfigFault>
    requires { length key.now ≤ 24 }
    ensures { result ≡ required place (table_view table.now) key.now (T.range low high) }
{
    match value_at(table, key) {
        None => Err(missing(place, key)),
        Some(value) => value_or_fault(place, key, T::within(value, low, high)),
    }
}

/// A number from `low` to `high`, or the default.
#[tactic(auto, unfolding(crate::specs::Keys::optional))]
pub fn number_or<T: Number>(
    place: Place,
    table: &Table,
    key: &str,
    low: T,
    high: T,
    default: T,
) -> Result<T, ConfigFault>
    requires { length key.now ≤ 24 }
    ensures { result ≡ optional place (table_view table.now) key.now (T.range low high) default }
{
    match value_at(table, key) {
        None => Ok(default),
        Some(value) => value_or_fault(place, key, T::within(value, low, high)),
    }
}

/// A nonce, or the default.
#[tactic(auto, unfolding(crate::specs::Keys::optional))]
pub fn nonce_or(place: Place, table: &Table, key: &str, default: u64) -> Result<u64, ConfigFault>
    requires { length key.now ≤ 24 }
    ensures { result ≡ optional place (table_view table.now) key.now (kind.written kind.hex_nonce_of) default }
{
    match value_at(table, key) {
        None => Ok(default),
        Some(value) => value_or_fault(place, key, values::nonce(value)),
    }
}

/// An array of tables, or none.
#[tactic(auto, unfolding(crate::specs::Keys::optional))]
pub fn tables<'a>(
    alloc: Global,
    place: Place,
    table: &'a Table,
    key: &str,
) -> Result<Vec<&'a Table>, ConfigError>
    requires { length key.now ≤ 24 }
    ensures { AnswersBy (λ found. map (λ t. table_view t.now) found.items) (optional place (table_view table.now) key.now kind.tables []) result }
{
    match value_at(table, key) {
        None => Ok(Vec::new(alloc)),
        Some(value) => Ok(value_or_fault(place, key, arrays::tables(alloc, value)?)?),
    }
}
