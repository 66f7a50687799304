// Names that get values.
ghost use Rattle.std.specs.Prelude.{◌≡◌, ◌≤◌, ◌∷◌, [], Some, pos, OnOk, OnErr, option_map, codes};
ghost use Rattle.json_tree.specs.Json.{text, whole};
ghost use Rattle.uuid.specs.Text.{hyphenated_text, lower};
ghost use Rattle.enrol_states.specs.State.{last_moment};
ghost use Rattle.jexl_value.specs.Names.{with_member};
ghost use Rattle.jexl_value.specs.Value.{as_json};
ghost use Rattle.app_context.specs.Attributes.{entered};

use jexl_value::{NamedValues, Value};
use sequences::Text;
use std::alloc::{AllocError, Global};
use uuid::Uuid;

/// Gives the name a value. Want of memory leaves the names as they were.
pub(crate) fn enter(
    alloc: Global,
    pairs: &mut NamedValues,
    name: &str,
    value: Value,
) -> Result<(), AllocError>
    ensures ok { OnOk result (pairs.new ≡ with_member name.now (as_json value) pairs.old) }
    ensures err { OnErr result (pairs.new ≡ pairs.old) }
{
    pairs.insert(Text::new(alloc, name)?, value)
}

/// Gives the name a text, where there is one.
pub(crate) fn enter_text(
    alloc: Global,
    pairs: &mut NamedValues,
    name: &str,
    value: Option<&str>,
) -> Result<(), AllocError>
    ensures { OnOk result (pairs.new ≡ entered ((name.now, option_map (λ t. text t.now) value.entry) ∷ []) pairs.old) }
{
    match value {
        Some(value) => enter(alloc, pairs, name, Value::Text(Text::new(alloc, value)?)),
        None => Ok(()),
    }
}

/// Gives the name a number.
pub(crate) fn enter_whole(
    alloc: Global,
    pairs: &mut NamedValues,
    name: &str,
    number: u64,
) -> Result<(), AllocError>
    requires { number ≤ last_moment }
    ensures { OnOk result (pairs.new ≡ with_member name.now (whole (pos number)) pairs.old) }
{
    enter(alloc, pairs, name, Value::Whole(number as i64))
}

/// Gives the id its text, in lower case and with hyphens (RFC 9562).
pub(crate) fn enter_id(alloc: Global, pairs: &mut NamedValues, id: Uuid) -> Result<(), AllocError>
    ensures { OnOk result (pairs.new ≡ entered ((codes "nimbus_id", Some (text (hyphenated_text lower id))) ∷ []) pairs.old) }
{
    let mut buffer = Uuid::encode_buffer();
    let text = id.hyphenated().encode_lower(&mut buffer);
    enter_text(alloc, pairs, "nimbus_id", Some(text))
}
