// How the items of a state's lists stand as rows: the key is the letter of their kind and a text.
ghost use Rattle.std.specs.Prelude.{◌∷◌, [], map, refl, true, ⊤};
ghost use Rattle.recipe_reader.specs.Records.{IsValid};
ghost use Rattle.enrol_states.specs.Statuses.{IsStatus};
ghost use Rattle.state_codec.specs.Kinds.{letter};
ghost use Rattle.state_values.specs.Values.{recipe_text};
ghost use Rattle.state_codec.specs.Encoding.{item_row};
ghost use Rattle.state_values.specs.Statuses.{status_bytes};

use crate::row_kind::RowKind;
use crate::row_making::key_of;
use enrol_states::Row;
use plain_text::Slug;
use recipe_reader::{Recipe, record_length};
use row_batches::RowForm;
use sequences::{Sequence, Text};
use state_values::{push_status, recipe_text};
use std::alloc::{AllocError, Global};
use std::cmp::Ordering;

impl RowForm<Text> for RowKind {
    ghost has_row = { λ kind _. true };

    ghost key = { λ kind text. letter kind ∷ text };

    ghost value = { λ kind _. [] };

    ghost rows = { λ kind items. map (item_row (λ text. text) (λ _. []) (letter kind)) items };

    ghost fits = { λ _. ⊤ };

    ghost none = { λ kind. refl };

    ghost each = { λ kind item items. refl };

    fn has_row(&self, _item: &Text) -> bool {
        true
    }

    #[tactic(auto, using(crate::proofs::Items::tagged))]
    fn key_order(&self, old: &Text, new: &Text) -> Ordering {
        old.as_str().cmp(new.as_str())
    }

    fn has_same_value(&self, _old: &Text, _new: &Text) -> bool {
        true
    }

    fn key(&self, alloc: Global, item: &Text) -> Result<Sequence<u8>, AllocError> {
        key_of(alloc, *self, item.as_str())
    }

    fn value(&self, alloc: Global, _item: &Text) -> Result<Sequence<u8>, AllocError> {
        Ok(Sequence::new(alloc))
    }
}

impl RowForm<Slug> for RowKind {
    ghost has_row = { λ kind _. true };

    ghost key = { λ kind slug. letter kind ∷ slug };

    ghost value = { λ kind _. [] };

    ghost rows = { λ kind items. map (item_row (λ slug. slug) (λ _. []) (letter kind)) items };

    ghost fits = { λ _. ⊤ };

    ghost none = { λ kind. refl };

    ghost each = { λ kind item items. refl };

    fn has_row(&self, _item: &Slug) -> bool {
        true
    }

    #[tactic(auto, using(crate::proofs::Items::tagged))]
    fn key_order(&self, old: &Slug, new: &Slug) -> Ordering {
        old.text().cmp(new.text())
    }

    fn has_same_value(&self, _old: &Slug, _new: &Slug) -> bool {
        true
    }

    fn key(&self, alloc: Global, item: &Slug) -> Result<Sequence<u8>, AllocError> {
        key_of(alloc, *self, item.text())
    }

    fn value(&self, alloc: Global, _item: &Slug) -> Result<Sequence<u8>, AllocError> {
        Ok(Sequence::new(alloc))
    }
}

impl RowForm<Recipe> for RowKind {
    ghost has_row = { λ kind _. true };

    ghost key = { λ kind recipe. letter kind ∷ recipe.slug };

    ghost value = { λ kind recipe. recipe_text recipe };

    ghost rows = { λ kind items. map (item_row (λ recipe. recipe.slug) (λ recipe. recipe_text recipe) (letter kind)) items };

    ghost fits = { λ recipe. IsValid recipe };

    ghost none = { λ kind. refl };

    ghost each = { λ kind item items. refl };

    fn has_row(&self, _item: &Recipe) -> bool {
        true
    }

    #[tactic(auto, using(crate::proofs::Items::tagged))]
    fn key_order(&self, old: &Recipe, new: &Recipe) -> Ordering {
        old.slug.text().cmp(new.slug.text())
    }

    /// Recipes are compared as values. Of those that differ the lengths are counted for what that says of their records.
    fn has_same_value(&self, old: &Recipe, new: &Recipe) -> bool {
        if old == new {
            return true;
        }
        record_length(old);
        record_length(new);
        false
    }

    fn key(&self, alloc: Global, item: &Recipe) -> Result<Sequence<u8>, AllocError> {
        key_of(alloc, *self, item.slug.text())
    }

    fn value(&self, alloc: Global, item: &Recipe) -> Result<Sequence<u8>, AllocError> {
        Ok(Sequence::from_vec(recipe_text(alloc, item)?))
    }
}

impl RowForm<Row> for RowKind {
    ghost has_row = { λ kind _. true };

    ghost key = { λ kind row. letter kind ∷ row.slug };

    ghost value = { λ kind row. status_bytes row.status };

    ghost rows = { λ kind items. map (item_row (λ row. row.slug) (λ row. status_bytes row.status) (letter kind)) items };

    ghost fits = { λ row. IsStatus row.status };

    ghost none = { λ kind. refl };

    ghost each = { λ kind item items. refl };

    fn has_row(&self, _item: &Row) -> bool {
        true
    }

    #[tactic(auto, using(crate::proofs::Items::tagged))]
    fn key_order(&self, old: &Row, new: &Row) -> Ordering {
        old.slug.text().cmp(new.slug.text())
    }

    #[tactic(auto, using(crate::proofs::Items::statuses_told))]
    fn has_same_value(&self, old: &Row, new: &Row) -> bool {
        old.status == new.status
    }

    fn key(&self, alloc: Global, item: &Row) -> Result<Sequence<u8>, AllocError> {
        key_of(alloc, *self, item.slug.text())
    }

    fn value(&self, alloc: Global, item: &Row) -> Result<Sequence<u8>, AllocError> {
        let mut value = Vec::new(alloc);
        push_status(&mut value, &item.status)?;
        Ok(Sequence::from_vec(value))
    }
}
