// What the names of an expression stand for.
ghost use Rattle.std.specs.Prelude.{◌≡◌, option_map};
ghost use Rattle.json_tree.specs.Json.{get_member, members_of};
ghost use Rattle.jexl_value.specs.Value.{as_json};

use crate::value::{NamedValues, Value};

/// The attributes of a client, each with its value, in order by name.
#[derive(Drop)]
pub struct Attributes {
    pub pairs: NamedValues,
}

impl Attributes {
    /// The value of the attribute of this name, where there is one. It takes no memory.
    pub fn get(&self, name: &str) -> Option<&Value>
        ensures { option_map (λ v. as_json v.now) result ≡ get_member name.now (members_of self.now.pairs) }
    {
        self.pairs.get(name)
    }
}
