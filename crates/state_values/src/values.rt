// What the values of rows say, and what stands in their keys behind the letter.
ghost use Rattle.std.specs.Prelude.{◌≡◌, IfOk};
ghost use Rattle.recipe_reader.specs.Records.{IsValid};
ghost use Rattle.state_values.specs.Outcome.{Gives};
ghost use Rattle.state_values.specs.Reading.{slug_in, text_in, number_in, flag_in, id_in, recipe_in};

use crate::fault::CodecFault;
use json_tree::{TreeFault, read};
use plain_text::{Slug, SlugFault, slug_of};
use recipe_reader::{Recipe, RecordFault, read_record};
use sequences::Text;
use std::alloc::Global;
use std::str;
use uuid::Uuid;

/// The slug that the bytes are. `NotAState` comes where they are none.
#[tactic(auto, unfolding(crate::specs::Reading::slug_in))]
pub fn slug_in(alloc: Global, bytes: &[u8]) -> Result<Slug, CodecFault>
    ensures { Gives (λ s. s) result (slug_in bytes.now) }
{
    match slug_of(alloc, bytes) {
        Ok(slug) => Ok(slug),
        Err(SlugFault::BadSlug(_)) => Err(CodecFault::NotAState),
        Err(SlugFault::OutOfMemory) => Err(CodecFault::OutOfMemory),
    }
}

/// The text that the bytes are. `NotAState` comes where they aren't in UTF-8.
#[tactic(auto, unfolding(crate::specs::Reading::text_in))]
pub fn text_in(alloc: Global, bytes: &[u8]) -> Result<Text, CodecFault>
    ensures { Gives (λ t. t) result (text_in bytes.now) }
{
    match str::from_utf8(bytes) {
        Ok(text) => Ok(Text::new(alloc, text)?),
        Err(_) => Err(CodecFault::NotAState),
    }
}

/// The number of eight bytes, the highest first. `NotAState` comes where they are more or fewer.
#[tactic(auto, unfolding(crate::specs::Reading::number_in))]
pub fn number_in(bytes: &[u8]) -> Result<u64, CodecFault>
    ensures { Gives (λ n. n) result (number_in bytes.now) }
{
    if bytes.len() != 8 {
        return Err(CodecFault::NotAState);
    }
    let mut number = [0; 8];
    number.copy_from_slice(bytes);
    Ok(u64::from_be_bytes(number))
}

/// Whether the bytes are a set flag, which is the byte 1. Whether they are a flag at all shows when the state is encoded again.
#[tactic(auto, unfolding(crate::specs::Reading::flag_in))]
pub fn flag_in(bytes: &[u8]) -> bool
    ensures { result ≡ flag_in bytes.now }
{
    bytes == [1].as_slice()
}

/// The id of a text of any form (RFC 9562). Which form it was shows when the state is encoded again. `NotAState` comes where
/// the bytes are no id.
#[tactic(auto, unfolding(crate::specs::Reading::id_in))]
pub fn id_in(bytes: &[u8]) -> Result<Uuid, CodecFault>
    ensures { Gives (λ id. id) result (id_in bytes.now) }
{
    match Uuid::try_parse_ascii(bytes) {
        Ok(id) => Ok(id),
        Err(_) => Err(CodecFault::NotAState),
    }
}

/// The recipe of a record that is at most 64 deep. `NotAState` comes where the bytes are no such record.
#[tactic(auto, unfolding(crate::specs::Reading::recipe_in))]
pub fn recipe_in(alloc: Global, bytes: &[u8]) -> Result<Recipe, CodecFault>
    ensures recipe { Gives (λ r. r) result (recipe_in bytes.now) }
    ensures valid { IfOk result IsValid }
{
    let record = match read(alloc, bytes) {
        Ok(record) => record,
        Err(TreeFault::OutOfMemory) => return Err(CodecFault::OutOfMemory),
        Err(_) => return Err(CodecFault::NotAState),
    };
    match read_record(alloc, &record) {
        Ok(recipe) => Ok(recipe),
        Err(RecordFault::Skip(_)) => Err(CodecFault::NotAState),
        Err(RecordFault::OutOfMemory) => Err(CodecFault::OutOfMemory),
    }
}
