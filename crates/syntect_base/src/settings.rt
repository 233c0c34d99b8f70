//! Values of JSON, as files of themes and of metadata hold them.
ghost use Rattle.std.specs.Prelude.{◌≡◌, ◌≢◌, IfOk, IfErr};
ghost use Rattle.serde_json.specs.Data.{Data};
ghost use Rattle.serde_json.specs.View.{view, items_view, members_view};
ghost use Rattle.serde_json.specs.Written.{has_float, items_have_float, members_have_float};
ghost use Rattle.syntect_base.specs.Settings.{IsSettings};
ghost use Rattle.syntect_base.specs.declared.loading.SettingsError.TheVariants.{Memory};

use crate::loading::SettingsError;
use serde_json::{Map, Value};
use std::alloc::Global;

/// A value of JSON.
pub type Settings = Value;

/// Whether a number in the value is a float.
#[cycle(holds)]
pub fn holds_float(value: &Value) -> bool
    ensures { result ≡ has_float (view value.now) }
{
    match value {
        Value::Null | Value::Bool(_) | Value::String(_) => false,
        Value::Number(number) => number.is_f64(),
        Value::Array(items) => items_hold_float(items),
        Value::Object(members) => members_hold_float(members),
    }
}

#[cycle(holds)]
fn items_hold_float(items: &Vec<Value>) -> bool
    ensures { result ≡ items_have_float (items_view items.now.items) }
{
    for item in items {
        if holds_float(item) {
            return true;
        }
    }
    false
}

#[cycle(holds)]
fn members_hold_float(members: &Map<String, Value>) -> bool
    ensures { result ≡ members_have_float (members_view members.now.entries) }
{
    for (_key, member) in members.iter() {
        if holds_float(member) {
            return true;
        }
    }
    false
}

/// The value that bytes are as JSON. Bytes that are no JSON, or in which a number is a float (as
/// one with a fraction or an exponent is), are `Json`.
pub fn settings_of(alloc: Global, bytes: &[u8]) -> Result<Settings, SettingsError>
    ensures ok { IfOk result (λ settings. IsSettings bytes.now (view settings)) }
    ensures err { IfErr result (λ e. e ≢ Memory → (d : Data) → ¬ (IsSettings bytes.now d)) }
{
    match Value::from_slice(alloc, bytes) {
        Ok(value) => {
            if holds_float(&value) {
                Err(SettingsError::Json)
            } else {
                Ok(value)
            }
        }
        Err(e) => Err(if e.is_memory() {
            SettingsError::Memory
        } else {
            SettingsError::Json
        }),
    }
}
