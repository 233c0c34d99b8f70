//! Values of JSON that are taken apart, and members put into maps.
ghost use Rattle.std.specs.Prelude.{◌≡◌, string_bytes, option_map, OnOk};
ghost use Rattle.serde_json.specs.Data.{put};
ghost use Rattle.serde_json.specs.Find.{get};
ghost use Rattle.serde_json.specs.View.{view, members_view};

use serde_json::{Map, Value};
use std::alloc::AllocError;

/// The value of a member of an object, if there is one of this key.
#[tactic(auto, using(crate::proofs::ValueLaws::taken))]
pub(crate) fn member_of(value: Value, key: &str) -> Option<Value>
    ensures { option_map view result ≡ get key.now (view value) }
{
    match value {
        Value::Object(mut members) => members.remove(key),
        _other => None,
    }
}

/// Puts a value at a key, in place of the one that is there.
#[tactic(auto, using(crate::proofs::ValueLaws::inserted))]
pub(crate) fn put(
    members: &mut Map<String, Value>,
    key: String,
    value: Value,
) -> Result<(), AllocError>
    ensures { OnOk result (members_view members.new.entries
        ≡ put (string_bytes key) (view value) (members_view members.old.entries)) }
{
    match members.insert(key, value) {
        Ok(_) => Ok(()),
        Err(_) => Err(AllocError),
    }
}
