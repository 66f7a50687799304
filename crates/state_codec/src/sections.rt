// What the rows of a kind say.
ghost use Rattle.std.specs.Prelude.{◌≡◌, option_map, IfOk, IfSome, IsTrue, OnOk};
ghost use Rattle.recipe_reader.specs.Payloads.{AreValid};
ghost use Rattle.recipe_reader.specs.Records.{IsValid};
ghost use Rattle.state_values.specs.Reading.{recipe_in};
ghost use Rattle.state_codec.specs.Kinds.{letter};
ghost use Rattle.state_values.specs.Outcome.{Gives};
ghost use Rattle.state_codec.specs.Folds.{with_last};
ghost use Rattle.state_codec.specs.Reading.{after_tag, slug_row, text_row, recipe_row, client_row_in, client_row, slugs_under, texts_under, client_rows_under, inserted, recipes_under, value_under, IsRecordOf, IsValidIf};

use crate::row_kind::RowKind;
use enrol_states::{MAX_RECIPES, Row};
use plain_text::Slug;
use recipe_reader::{Recipe, Recipes, record_length};
use row_batches::StoreRow;
use sequences::{Sequence, Text};
use state_values::{CodecFault, recipe_in, recipe_text, slug_in, status_in, text_in};
use std::alloc::{AllocError, Global};
use std::str;

#[tactic(auto, unfolding(crate::specs::Reading::texts_under))]
pub(crate) fn texts_under(
    alloc: Global,
    kind: RowKind,
    rows: &[StoreRow],
) -> Result<Sequence<Text>, CodecFault>
    ensures { Gives (λ ts. ts) result (texts_under (letter kind) rows.now) }
{
    let mut texts = Sequence::new(alloc);
    for row in rows {
        let text = text_row(alloc, kind, row)?;
        keep(&mut texts, text)?;
    }
    Ok(texts)
}

#[tactic(auto, unfolding(crate::specs::Reading::slugs_under))]
pub(crate) fn slugs_under(
    alloc: Global,
    kind: RowKind,
    rows: &[StoreRow],
) -> Result<Sequence<Slug>, CodecFault>
    ensures { Gives (λ ss. ss) result (slugs_under (letter kind) rows.now) }
{
    let mut slugs = Sequence::new(alloc);
    for row in rows {
        let slug = slug_row(alloc, kind, row)?;
        keep(&mut slugs, slug)?;
    }
    Ok(slugs)
}

#[tactic(auto, unfolding(crate::specs::Reading::client_rows_under))]
pub(crate) fn client_rows_under(
    alloc: Global,
    kind: RowKind,
    rows: &[StoreRow],
) -> Result<Sequence<Row>, CodecFault>
    ensures { Gives (λ rs. rs) result (client_rows_under (letter kind) rows.now) }
{
    let mut client_rows = Sequence::new(alloc);
    for row in rows {
        let client_row = client_row(alloc, kind, row)?;
        keep(&mut client_rows, client_row)?;
    }
    Ok(client_rows)
}

/// The recipes in order by slug, where no two have one slug and they are at most 2,000. The record of a known recipe isn't parsed
/// again.
#[tactic(auto, unfolding(crate::specs::Reading::recipes_under))]
pub(crate) fn recipes_under(
    alloc: Global,
    kind: RowKind,
    rows: &[StoreRow],
    known: &Recipes,
) -> Result<Recipes, CodecFault>
    requires { AreValid known.now }
    ensures recipes { Gives (λ rs. rs) result (recipes_under (letter kind) rows.now) }
    ensures valid { IfOk result AreValid }
{
    let mut recipes = Recipes::new(alloc);
    for row in rows {
        let recipe = recipe_row(alloc, kind, row, known)?;
        insert(&mut recipes, recipe)?;
    }
    Ok(recipes)
}

/// The value of the first row of the kind.
pub(crate) fn value_under(kind: RowKind, rows: &[StoreRow]) -> Result<&[u8], CodecFault>
    ensures { Gives (λ v. v.now) result (value_under (letter kind) rows.now) }
{
    for row in rows {
        if after_letter(kind, row.key.as_slice()).is_some() {
            return Ok(row.value.as_slice());
        }
    }
    Err(CodecFault::NotAState)
}

#[tactic(auto, unfolding(crate::specs::Reading::text_row))]
fn text_row(alloc: Global, kind: RowKind, row: &StoreRow) -> Result<Option<Text>, CodecFault>
    ensures { Gives (λ o. o) result (text_row (letter kind) row.now) }
{
    match after_letter(kind, row.key.as_slice()) {
        Some(rest) => Ok(Some(text_in(alloc, rest)?)),
        None => Ok(None),
    }
}

#[tactic(auto, unfolding(crate::specs::Reading::slug_row))]
fn slug_row(alloc: Global, kind: RowKind, row: &StoreRow) -> Result<Option<Slug>, CodecFault>
    ensures { Gives (λ o. o) result (slug_row (letter kind) row.now) }
{
    match after_letter(kind, row.key.as_slice()) {
        Some(rest) => Ok(Some(slug_in(alloc, rest)?)),
        None => Ok(None),
    }
}

#[tactic(auto, unfolding(crate::specs::Reading::client_row))]
fn client_row(alloc: Global, kind: RowKind, row: &StoreRow) -> Result<Option<Row>, CodecFault>
    ensures { Gives (λ o. o) result (client_row (letter kind) row.now) }
{
    match after_letter(kind, row.key.as_slice()) {
        Some(rest) => Ok(Some(client_row_in(alloc, rest, row.value.as_slice())?)),
        None => Ok(None),
    }
}

#[tactic(auto, unfolding(crate::specs::Reading::client_row_in))]
fn client_row_in(alloc: Global, rest: &[u8], value: &[u8]) -> Result<Row, CodecFault>
    ensures { Gives (λ r. r) result (client_row_in rest.now value.now) }
{
    let slug = slug_in(alloc, rest)?;
    let status = status_in(alloc, value)?;
    Ok(Row { slug, status })
}

#[tactic(auto, unfolding(crate::specs::Reading::recipe_row))]
fn recipe_row(
    alloc: Global,
    kind: RowKind,
    row: &StoreRow,
    known: &Recipes,
) -> Result<Option<Recipe>, CodecFault>
    requires { AreValid known.now }
    ensures recipe { Gives (λ o. o) result (recipe_row (letter kind) row.now) }
    ensures valid { IfOk result IsValidIf }
{
    match after_letter(kind, row.key.as_slice()) {
        Some(slug) => Ok(Some(recipe_of(alloc, slug, row.value.as_slice(), known)?)),
        None => Ok(None),
    }
}

// The recipe of a record, which is parsed unless it is that which is written of the known recipe with the slug.
fn recipe_of(
    alloc: Global,
    slug: &[u8],
    bytes: &[u8],
    known: &Recipes,
) -> Result<Recipe, CodecFault>
    requires { AreValid known.now }
    ensures recipe { Gives (λ r. r) result (recipe_in bytes.now) }
    ensures valid { IfOk result IsValid }
{
    match known_recipe(alloc, slug, bytes, known)? {
        Some(recipe) => Ok(recipe.clone()?),
        None => recipe_in(alloc, bytes),
    }
}

// The known recipe with the slug, where the bytes are its record.
fn known_recipe<'a>(
    alloc: Global,
    slug: &[u8],
    bytes: &[u8],
    known: &'a Recipes,
) -> Result<Option<&'a Recipe>, AllocError>
    requires { AreValid known.now }
    ensures { IfOk result (λ found. IfSome found (λ recipe. IsRecordOf recipe.now bytes.now)) }
{
    let Ok(slug) = str::from_utf8(slug) else {
        return Ok(None);
    };
    let Some(recipe) = known.get(slug) else {
        return Ok(None);
    };
    if has_record(alloc, recipe, bytes)? {
        Ok(Some(recipe))
    } else {
        Ok(None)
    }
}

// Whether the bytes are the record that is written of the recipe. None is written where their lengths differ.
fn has_record(alloc: Global, recipe: &Recipe, bytes: &[u8]) -> Result<bool, AllocError>
    requires { IsValid recipe.now }
    ensures { IfOk result (λ has. IsTrue has → IsRecordOf recipe.now bytes.now) }
{
    if record_length(recipe) != bytes.len() as u128 {
        return Ok(false);
    }
    let text = recipe_text(alloc, recipe)?;
    Ok(text.as_slice() == bytes)
}

// What follows the kind's letter in a key that begins with it.
fn after_letter(kind: RowKind, key: &[u8]) -> Option<&[u8]>
    ensures { option_map (λ rest. rest.now) result ≡ after_tag (letter kind) key.now }
{
    let letter = kind.letter();
    match key {
        [first, rest @ ..] if *first == letter => Some(rest),
        _ => None,
    }
}

// Puts an item at the end, where there is one.
fn keep<T: Drop>(items: &mut Sequence<T>, item: Option<T>) -> Result<(), AllocError>
    ensures { OnOk result (items.new ≡ with_last items.old item) }
{
    if let Some(item) = item {
        items.push(item)?;
    }
    Ok(())
}

// Puts a recipe at its place, where there is one. No recipe that is there may have its slug, and
// fewer than 2,000 may be there.
fn insert(recipes: &mut Recipes, recipe: Option<Recipe>) -> Result<(), CodecFault>
    ensures recipes { Gives (λ _. recipes.new) result (inserted recipes.old recipe) }
    ensures valid { OnOk result (IsValidIf recipe → AreValid recipes.old → AreValid recipes.new) }
{
    let Some(recipe) = recipe else {
        return Ok(());
    };
    if recipes.as_slice().len() >= MAX_RECIPES {
        return Err(CodecFault::NotAState);
    }
    if recipes.insert(recipe)? {
        Ok(())
    } else {
        Err(CodecFault::NotAState)
    }
}
