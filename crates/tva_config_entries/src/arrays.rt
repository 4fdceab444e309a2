// Values that are arrays, of one kind or of tables.
ghost use Rattle.std.specs.Prelude.{◌≡◌, IfOk, map, option_map, option_and_then};
ghost use Rattle.toml.specs.{Data.as_table, View.view, View.array_view, View.table_view};
ghost use Rattle.tva_config_entries.specs.Values.{items, short_array, few_items, tables};

use crate::values::Kind;
use std::alloc::{AllocError, Global};
use toml::value::Array;
use toml::{Table, Value};

/// The greatest number of denied addresses, and that of denied tags.
const FEW: usize = 1024;

/// An array of at most 1,024 values of a kind.
pub fn few_items<T: Kind>(alloc: Global, value: &Value) -> Result<Option<Vec<T>>, AllocError>
    ensures { IfOk result (λ found. option_map (λ v. v.items) found ≡ few_items T.kind (view value.now)) }
{
    match value.as_array() {
        Some(array) => Ok(few(each(alloc, array)?)),
        None => Ok(None),
    }
}

fn each<T: Kind>(alloc: Global, array: &Array) -> Result<Option<Vec<T>>, AllocError>
    ensures { IfOk result (λ found. option_map (λ v. v.items) found ≡ items T.kind (array_view array.now)) }
{
    let mut found = Vec::new(alloc);
    for value in array {
        match T::of(value) {
            Some(item) => found.push(item)?,
            None => return Ok(None),
        }
    }
    Ok(Some(found))
}

// A list that isn't too long.
fn few<T: Drop>(found: Option<Vec<T>>) -> Option<Vec<T>>
    ensures { option_map (λ v. v.items) result ≡ option_and_then short_array (option_map (λ v. v.items) found) }
{
    match found {
        Some(list) if list.len() <= FEW => Some(list),
        _ => None,
    }
}

/// An array of tables.
pub fn tables(alloc: Global, value: &Value) -> Result<Option<Vec<&Table>>, AllocError>
    ensures { IfOk result (λ found. option_map (λ v. map (λ t. table_view t.now) v.items) found ≡ tables (view value.now)) }
{
    match value.as_array() {
        Some(array) => each_table(alloc, array),
        None => Ok(None),
    }
}

fn each_table(alloc: Global, array: &Array) -> Result<Option<Vec<&Table>>, AllocError>
    ensures { IfOk result (λ found. option_map (λ v. map (λ t. table_view t.now) v.items) found ≡ items as_table (array_view array.now)) }
{
    let mut found = Vec::new(alloc);
    for value in array {
        match value.as_table() {
            Some(table) => found.push(table)?,
            None => return Ok(None),
        }
    }
    Ok(Some(found))
}
