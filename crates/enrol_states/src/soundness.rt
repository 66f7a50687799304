// Whether a state is one that a client can have.
ghost use Rattle.std.specs.Prelude.{◌≡◌, ◌↔◌, All, IfOk, IsTrue};
ghost use Rattle.plain_text.specs.Names.{is_name};
ghost use Rattle.recipe_reader.specs.Payloads.{AreValid, has_slug, recipe_with};
ghost use Rattle.enrol_states.specs.Order.{Rise};
ghost use Rattle.enrol_states.specs.State.{slugs_of};
ghost use Rattle.enrol_states.specs.Statuses.{IsSlug};
ghost use Rattle.enrol_states.specs.Participation.{may_take_part};
ghost use Rattle.enrol_states.specs.Recipes.{offers};
ghost use Rattle.enrol_states.specs.Consistent.{IsConsistent, AreKept, ArePending};
ghost use Rattle.enrol_states.specs.SoundParts.{AreValidIf, HasMoments, HasOptOuts, HasFeatures, HasRecipes, IsRowOf, HasRows, MayBeEnrolled};

use crate::exclusive::is_exclusive;
use crate::state::{MAX_OPTED_OUT, MAX_RECIPES, Row, State, id_fits, slug_fits};
use crate::status::Status;
use plain_text::{LAST_MOMENT, Slug, is_name};
use recipe_reader::Recipes;
use sequences::Text;
use std::alloc::{AllocError, Global};

/// Whether the state, whose recipes are valid, is consistent: whether it is one that a client can have.
pub fn is_consistent(alloc: Global, state: &State) -> Result<bool, AllocError>
    requires live { AreValid state.now.live }
    requires pending { AreValidIf state.now.pending }
    ensures { IfOk result (λ b. IsTrue b ↔ IsConsistent state.now) }
{
    id_fits(state.id);
    let _version = state.version.as_str();
    if !has_moments(state) {
        return Ok(false);
    }
    if !has_opt_outs(state) {
        return Ok(false);
    }
    if !has_features(state) {
        return Ok(false);
    }
    if !has_recipes(state) {
        return Ok(false);
    }
    if !has_rows(state) {
        return Ok(false);
    }
    is_exclusive(alloc, state)
}

fn has_moments(state: &State) -> bool
    ensures { IsTrue result ↔ HasMoments state.now }
{
    state.installed <= LAST_MOMENT && state.updated <= LAST_MOMENT
}

fn has_opt_outs(state: &State) -> bool
    ensures { IsTrue result ↔ HasOptOuts state.now }
{
    let slugs = state.opted_out.as_slice();
    slugs_fit(slugs);
    slugs.len() <= MAX_OPTED_OUT && slugs_rise(slugs)
}

fn has_features(state: &State) -> bool
    ensures { IsTrue result ↔ HasFeatures state.now }
{
    let names = state.coenrolling.as_slice();
    are_names(names) && texts_rise(names)
}

fn has_recipes(state: &State) -> bool
    requires live { AreValid state.now.live }
    requires pending { AreValidIf state.now.pending }
    ensures { IsTrue result ↔ HasRecipes state.now }
{
    are_kept(&state.live) && are_pending(&state.pending)
}

fn are_kept(recipes: &Recipes) -> bool
    requires { AreValid recipes.now }
    ensures { IsTrue result ↔ AreKept recipes.now }
{
    recipes.as_slice().len() <= MAX_RECIPES
}

fn are_pending(pending: &Option<Recipes>) -> bool
    requires { AreValidIf pending.now }
    ensures { IsTrue result ↔ ArePending pending.now }
{
    match pending {
        Some(recipes) => are_kept(recipes),
        None => true,
    }
}

fn has_rows(state: &State) -> bool
    requires { Rise state.now.opted_out }
    ensures { IsTrue result ↔ HasRows state.now }
{
    let rows = state.rows.as_slice();
    row_slugs_fit(rows);
    rows_rise(rows) && are_rows_of(state, rows)
}

fn are_rows_of(state: &State, rows: &[Row]) -> bool
    requires { Rise state.now.opted_out }
    ensures { IsTrue result ↔ All (IsRowOf state.now) rows.now }
{
    for row in rows {
        if !is_row_of(state, row) {
            return false;
        }
    }
    true
}

// Whether the row fits the state's recipes, and what the user chose.
fn is_row_of(state: &State, row: &Row) -> bool
    requires { Rise state.now.opted_out }
    ensures { IsTrue result ↔ IsRowOf state.now row.now }
{
    match &row.status {
        Status::Enrolled { branch, .. } => may_be_enrolled(state, &row.slug, branch),
        Status::NotEnrolled { .. } => has_recipe(state, &row.slug),
        Status::Disqualified { branch, .. } => {
            slug_fits(branch);
            has_recipe(state, &row.slug)
        }
        Status::WasEnrolled { branch, ended } => {
            slug_fits(branch);
            *ended <= LAST_MOMENT
        }
        Status::Error { .. } => has_recipe(state, &row.slug),
    }
}

fn may_be_enrolled(state: &State, slug: &Slug, branch: &Slug) -> bool
    requires { Rise state.now.opted_out }
    ensures { IsTrue result ↔ MayBeEnrolled state.now slug.now branch.now }
{
    slug_fits(branch);
    may_take_part(state, slug.text())
        && !state.is_opted_out(slug.text())
        && offers(&state.live, slug.text(), branch.text())
}

// Whether participation of the kind of the slug's recipe is on.
fn may_take_part(state: &State, slug: &str) -> bool
    ensures { result ≡ may_take_part state.now (recipe_with slug.now state.now.live) }
{
    match state.live.get(slug) {
        Some(recipe) => state.takes_part(recipe.kind()),
        None => true,
    }
}

fn has_recipe(state: &State, slug: &Slug) -> bool
    ensures { result ≡ has_slug slug.now state.now.live }
{
    state.live.get(slug.text()).is_some()
}

// Whether the slug has a recipe that has the branch.
fn offers(recipes: &Recipes, slug: &str, branch: &str) -> bool
    ensures { result ≡ offers (recipe_with slug.now recipes.now) branch.now }
{
    match recipes.get(slug) {
        Some(recipe) => recipe.has_branch(branch),
        None => false,
    }
}

// ---- lists

fn are_names(texts: &[Text]) -> bool
    ensures { IsTrue result ↔ All (λ name. IsTrue (is_name name)) texts.now }
{
    for text in texts {
        if !is_name(text.as_str().as_bytes()) {
            return false;
        }
    }
    true
}

fn texts_rise(texts: &[Text]) -> bool
    ensures { IsTrue result ↔ Rise texts.now }
{
    texts.is_sorted_by(|first, second| first < second)
}

fn slugs_rise(slugs: &[Slug]) -> bool
    ensures { IsTrue result ↔ Rise slugs.now }
{
    slugs.is_sorted_by(|first, second| first < second)
}

fn rows_rise(rows: &[Row]) -> bool
    ensures { IsTrue result ↔ Rise (slugs_of rows.now) }
{
    rows.is_sorted_by(|first, second| first.slug < second.slug)
}

// ---- what the types keep

// What the type of slugs says. The call changes nothing.
fn slugs_fit(slugs: &[Slug])
    ensures { All IsSlug slugs.now }
{
    for slug in slugs {
        slug_fits(slug);
    }
}

fn row_slugs_fit(rows: &[Row])
    ensures { All (λ row. IsSlug row.slug) rows.now }
{
    for row in rows {
        slug_fits(&row.slug);
    }
}
