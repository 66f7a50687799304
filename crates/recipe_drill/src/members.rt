// Members of objects, written as compact JSON: each a name and a value of one token.
ghost use Rattle.std.specs.Prelude.{◌≡◌, OnOk, decimal};
ghost use Rattle.json.specs.Token.{string, boolean, number};
ghost use Rattle.recipe_drill.specs.Members as spec;

use json::Writer;
use std::alloc::AllocError;

pub(crate) fn write_text(writer: &mut Writer, name: &str, value: &str) -> Result<(), AllocError>
    ensures before { writer.new.before ≡ writer.old.before }
    ensures tokens { OnOk result (spec.HasMember writer.old writer.new name.now (string value.now)) }
{
    writer.key(name)?;
    writer.string(value)
}

pub(crate) fn write_truth(writer: &mut Writer, name: &str, value: bool) -> Result<(), AllocError>
    ensures before { writer.new.before ≡ writer.old.before }
    ensures tokens { OnOk result (spec.HasMember writer.old writer.new name.now (boolean value)) }
{
    writer.key(name)?;
    writer.boolean(value)
}

pub(crate) fn write_number(writer: &mut Writer, name: &str, value: u32) -> Result<(), AllocError>
    ensures before { writer.new.before ≡ writer.old.before }
    ensures tokens { OnOk result (spec.HasMember writer.old writer.new name.now (number (decimal value))) }
{
    writer.key(name)?;
    writer.u64(u64::from(value))
}
