// How many bytes a state is encoded in.
ghost use Rattle.std.specs.Prelude.{◌≡◌, ◌≤◌, ◌<◌, ◌+◌, ◌^◌, ◌*◌, All, IsTrue, map, codes, length};
ghost use Rattle.plain_text.specs.Names.{is_name};
ghost use Rattle.enrol_states.specs.Consistent.{IsConsistent};
ghost use Rattle.row_batches.specs.Batch.{puts_text};
ghost use Rattle.state_codec.specs.Forms.{old_encoding};
ghost use Rattle.state_codec.specs.RecipeLists.{HasLists};
ghost use Rattle.state_codec.specs.Sizes.{recipes_size, rows_size, slugs_size, IsSizeOf};
ghost use Rattle.state_codec.specs.Encoding.{encoding, key_row, pending_recipes};
ghost use Rattle.state_codec.specs.Sound.{IsSound, HaveRecords, AreRecords};

use crate::changes::pending_recipes;
use crate::recipe_lists::RecipeLists;
use crate::recipe_sizes::{recipes_size, recipes_size_after};
use enrol_states::{Row, State};
use plain_text::Slug;
use sequences::Text;
use state_values::status_len;

/// The bytes of a put beside its key and its value.
pub(crate) const PUT: u128 = 7;

/// The clear, and the rows that a state has one of each: the id, participation, whether recipes are pending, two moments, and
/// the version without its value.
const FRAME: u128 = 103;

/// How many bytes a state is encoded in, and how many of them its lists take.
#[derive(Clone, Copy)]
pub struct StateSizes {
    /// Of the whole encoding.
    pub total: u128,
    /// Of the rows of live recipes.
    pub live: u128,
    /// Of the rows of pending recipes.
    pub pending: u128,
    /// Of the rows of slugs that are opted out.
    pub opted_out: u128,
    /// Of the rows of statuses.
    pub rows: u128,
}

/// How many bytes the state's encoding has, and its old form. It is counted without a text, and takes no memory.
pub fn state_size(state: &State) -> u128
    requires { IsConsistent state.now }
    ensures size { result ≡ length (encoding state.now) }
    ensures old_size { result ≡ length (old_encoding state.now) }
    ensures records { HaveRecords state.now }
{
    sizes_of(state).total
}

/// The sizes of the state. They are counted without a text, and take no memory.
#[tactic(auto, using(crate::proofs::Room::pending_valid, crate::proofs::Room::pending_limit))]
pub fn sizes_of(state: &State) -> StateSizes
    requires { IsConsistent state.now }
    ensures sizes { IsSizeOf state.now result }
    ensures bound { result.total ≤ 2 ^ 100 }
    ensures records { HaveRecords state.now }
{
    let live = recipes_size(state.live.as_slice());
    let pending = recipes_size(pending_recipes(&state.pending));
    let opted_out = slugs_size(state.opted_out.as_slice());
    let rows = client_rows_size(state.rows.as_slice());
    StateSizes {
        total: size_without_lists(state) + live + pending + opted_out + rows,
        live,
        pending,
        opted_out,
        rows,
    }
}

/// The sizes of the new state, by those of the old one. A list of recipes that is as before isn't looked at, and of one that
/// may differ both are walked once, and only recipes that are gone, new or differ are counted. Of the slugs that are opted out and
/// of the rows only the parts are looked at that may differ. It takes no memory.
pub fn sizes_after(before: StateSizes, old: &State, new: &State, recipes: RecipeLists) -> StateSizes
    requires before { IsSizeOf old.now before }
    requires old_state { IsSound old.now }
    requires new_state { IsConsistent new.now }
    requires recipes { HasLists recipes old.now new.now }
    ensures sizes { IsSizeOf new.now result }
    ensures bound { result.total ≤ 2 ^ 100 }
    ensures records { HaveRecords new.now }
{
    let live = live_size(before.live, old, new, recipes);
    let pending = pending_size(before.pending, old, new, recipes);
    let opted_out = opted_out_size(before.opted_out, old, new, recipes);
    let rows = status_rows_size(before.rows, old, new, recipes);
    StateSizes {
        total: size_without_lists(new) + live + pending + opted_out + rows,
        live,
        pending,
        opted_out,
        rows,
    }
}

// The size of the new state's live recipes, by that of the old one's.
#[tactic(auto, using(crate::proofs::Sizes::live_short))]
fn live_size(before: u128, old: &State, new: &State, recipes: RecipeLists) -> u128
    requires before { before ≡ recipes_size old.now.live }
    requires old_state { IsSound old.now }
    requires new_state { IsConsistent new.now }
    requires recipes { HasLists recipes old.now new.now }
    ensures size { result ≡ recipes_size new.now.live }
    ensures bound { result ≤ 2 ^ 92 }
    ensures records { AreRecords new.now.live }
{
    match recipes {
        RecipeLists::AsBefore | RecipeLists::AllBut { .. } | RecipeLists::LiveAsBefore => before,
        RecipeLists::MayDiffer => {
            recipes_size_after(before, old.live.as_slice(), new.live.as_slice())
        }
    }
}

// The size of the new state's pending recipes, by that of the old one's.
#[tactic(auto, using(crate::proofs::Room::pending_valid, crate::proofs::Room::pending_limit, crate::proofs::Sizes::pending_short))]
fn pending_size(before: u128, old: &State, new: &State, recipes: RecipeLists) -> u128
    requires before { before ≡ recipes_size (pending_recipes old.now.pending) }
    requires old_state { IsSound old.now }
    requires new_state { IsConsistent new.now }
    requires recipes { HasLists recipes old.now new.now }
    ensures size { result ≡ recipes_size (pending_recipes new.now.pending) }
    ensures bound { result ≤ 2 ^ 92 }
    ensures records { AreRecords (pending_recipes new.now.pending) }
{
    match recipes {
        RecipeLists::AsBefore | RecipeLists::AllBut { .. } => before,
        RecipeLists::LiveAsBefore | RecipeLists::MayDiffer => recipes_size_after(
            before,
            pending_recipes(&old.pending),
            pending_recipes(&new.pending),
        ),
    }
}

// The size of the rows of the new state's opted-out slugs, by that of the old one's.
#[tactic(auto, using(crate::proofs::Sizes::opted_out_short))]
fn opted_out_size(before: u128, old: &State, new: &State, recipes: RecipeLists) -> u128
    requires before { before ≡ slugs_size old.now.opted_out }
    requires old_state { IsSound old.now }
    requires recipes { HasLists recipes old.now new.now }
    ensures size { result ≡ slugs_size new.now.opted_out }
    ensures bound { result < 2 ^ 80 }
{
    let part = recipes.opted_out_part(old, new);
    let removed = slugs_size(part.of_old(old.opted_out.as_slice()));
    let added = slugs_size(part.of_new(new.opted_out.as_slice()));
    before - removed + added
}

// The size of the rows of the new state's statuses, by that of the old one's.
#[tactic(auto, using(crate::proofs::Sizes::rows_short))]
fn status_rows_size(before: u128, old: &State, new: &State, recipes: RecipeLists) -> u128
    requires before { before ≡ rows_size old.now.rows }
    requires old_state { IsSound old.now }
    requires recipes { HasLists recipes old.now new.now }
    ensures size { result ≡ rows_size new.now.rows }
    ensures bound { result < 2 ^ 80 }
{
    let part = recipes.row_part(old, new);
    let removed = client_rows_size(part.of_old(old.rows.as_slice()));
    let added = client_rows_size(part.of_new(new.rows.as_slice()));
    before - removed + added
}

// How many bytes the encoding has beside the rows of recipes, of opted-out slugs and of statuses.
fn size_without_lists(state: &State) -> u128
    requires { All (λ name. IsTrue (is_name name)) state.now.coenrolling }
    ensures size { length (encoding state.now)
        ≡ result + (recipes_size state.now.live + recipes_size (pending_recipes state.now.pending)) + (slugs_size state.now.opted_out + rows_size state.now.rows) }
    ensures bound { result < 2 ^ 80 }
{
    let features = features_size(state.coenrolling.as_slice());
    let version = state.version.as_str().len() as u128;
    FRAME + features + version
}

fn features_size(features: &[Text]) -> u128
    requires { All (λ name. IsTrue (is_name name)) features.now }
    ensures size { result ≡ length (puts_text (map (key_row (codes "c")) features.now)) }
    ensures bound { result ≤ 88 * length features.now }
    ensures count { length features.now < 2 ^ 64 }
{
    let mut size: u128 = 0;
    for feature in features {
        size += PUT + 1 + feature.as_str().len() as u128;
    }
    size
}

fn slugs_size(slugs: &[Slug]) -> u128
    ensures size { result ≡ slugs_size slugs.now }
    ensures bound { result ≤ 88 * length slugs.now }
    ensures count { length slugs.now < 2 ^ 64 }
{
    let mut size: u128 = 0;
    for slug in slugs {
        size += PUT + 1 + slug.text().len() as u128;
    }
    size
}

fn client_rows_size(rows: &[Row]) -> u128
    ensures size { result ≡ rows_size rows.now }
    ensures bound { result ≤ 177 * length rows.now }
    ensures count { length rows.now < 2 ^ 64 }
{
    let mut size: u128 = 0;
    for row in rows {
        size += PUT + 1 + row.slug.text().len() as u128 + status_len(&row.status) as u128;
    }
    size
}
