//! What the laws say of a call.
ghost use Rattle.std.specs.Prelude.{◌≡◌, Some, option_map, IfOk, IsErrOf};
ghost use Rattle.syntect_yaml.specs.Node.{Node};
ghost use Rattle.syntect_yaml.specs.View.{view};
ghost use Rattle.syntect_laws.specs.YamlLaws.{IsTextOf};

use std::alloc::Global;
use syntect_yaml::error::ReadError;
use syntect_yaml::read::read;
use syntect_yaml::value::Yaml;

/// Reads a text. One that a printer writes of a value is read as that value, unless memory runs
/// out.
pub fn read_back(alloc: Global, text: &str) -> Result<Option<Yaml>, ReadError>
    ensures ok { (v : Node) → IsTextOf text.now v
        → IfOk result (λ r. option_map view r ≡ Some v) }
    ensures memory { (v : Node) → IsTextOf text.now v → IsErrOf result ReadError.NoValue → ⊥ }
{
    read(alloc, text)
}
