// The targeting attributes of a client.
ghost use Rattle.std.specs.Prelude.{◌≡◌, ◌≤◌, ◌∷◌, [], ℕ, map, IfOk, OnOk, OnErr, option_map};
ghost use Rattle.enrol_states.specs.Order.{Rise};
ghost use Rattle.enrol_states.specs.State.{last_moment, slugs_of, status_of};
ghost use Rattle.enrol_states.specs.Statuses.{is_enrolled_now};
ghost use Rattle.app_context.specs.declared.context.Context.{Context as ContextRecord};
ghost use Rattle.app_context.specs.Attributes as spec;
ghost use Rattle.app_context.specs.Attributes.{shared_attributes, with_enrolled, ArePrepared, entered, text_entry, locale_entries, client_entries, enrolment_entries, days_to};

use crate::context::Context;
use crate::custom::custom_attributes;
use crate::enrolments::{active_experiments, enrollments, enrollments_map};
use crate::entering::{enter, enter_id, enter_text, enter_whole};
use crate::key::{ContextKey, TEXT_KEYS};
use crate::locale::parts_of;
use enrol_states::State;
use jexl_value::{Attributes, NamedValues, Value};
use plain_text::Slug;
use sequences::Text;
use std::alloc::{AllocError, Global};

const SECONDS_A_DAY: u64 = 86_400;

/// The targeting attributes of a client at a moment, for the recipe of a slug.
#[tactic(auto, unfolding(crate::specs::Attributes::attributes))]
pub fn attributes(
    alloc: Global,
    context: &Context,
    state: &State,
    slug: &Slug,
    now: u64,
) -> Result<Attributes, AllocError>
    requires rows { Rise (slugs_of state.now.rows) }
    requires moment { now ≤ last_moment }
    ensures { IfOk result (λ a. a.pairs ≡ spec.attributes context.now state.now slug.now now) }
{
    let mut attributes = shared_attributes(alloc, context, state, now)?;
    set_already_enrolled(alloc, &mut attributes, state, slug)?;
    Ok(attributes)
}

/// The attributes that don't depend on the recipe: all but `is_already_enrolled`.
pub fn shared_attributes(
    alloc: Global,
    context: &Context,
    state: &State,
    now: u64,
) -> Result<Attributes, AllocError>
    requires rows { Rise (slugs_of state.now.rows) }
    requires moment { now ≤ last_moment }
    ensures shared { IfOk result (λ a. a.pairs ≡ shared_attributes context.now state.now now) }
    ensures prepared { IfOk result (λ a. ArePrepared context.now state.now now a.pairs) }
{
    let mut pairs = custom_attributes(alloc, &context.custom)?;
    enter_texts(alloc, &mut pairs, context, &TEXT_KEYS)?;
    enter_locale(alloc, &mut pairs, context.text(ContextKey::Locale))?;
    enter_client(alloc, &mut pairs, state, now)?;
    enter_enrolments(alloc, &mut pairs, state)?;
    Ok(Attributes { pairs })
}

/// Makes of the attributes for one recipe, or of those that don't depend on it, the ones for the
/// recipe of a slug. Want of memory leaves them as they were.
#[tactic(auto, unfolding(crate::specs::Attributes::attributes), using(crate::proofs::Entries::enrolled_again))]
pub fn set_already_enrolled(
    alloc: Global,
    attributes: &mut Attributes,
    state: &State,
    slug: &Slug,
) -> Result<(), AllocError>
    requires { Rise (slugs_of state.now.rows) }
    ensures set { OnOk result (attributes.new.pairs ≡ with_enrolled (is_enrolled_now (status_of slug.now state.now.rows)) attributes.old.pairs) }
    ensures gives { (c : ContextRecord) (now : ℕ) → ArePrepared c state.now now attributes.old.pairs → OnOk result (attributes.new.pairs ≡ spec.attributes c state.now slug.now now) }
    ensures prepared { (c : ContextRecord) (now : ℕ) → ArePrepared c state.now now attributes.old.pairs → OnOk result (ArePrepared c state.now now attributes.new.pairs) }
    ensures err { OnErr result (attributes.new ≡ attributes.old) }
{
    let is_enrolled = is_enrolled(state, slug);
    enter(
        alloc,
        &mut attributes.pairs,
        "is_already_enrolled",
        Value::Truth(is_enrolled),
    )
}

/// Whether the client is enrolled in the recipe of the slug.
fn is_enrolled(state: &State, slug: &Slug) -> bool
    requires { Rise (slugs_of state.now.rows) }
    ensures { result ≡ is_enrolled_now (status_of slug.now state.now.rows) }
{
    match state.status_of(slug.text()) {
        Some(status) => status.is_enrolled(),
        None => false,
    }
}

/// The texts of the context under these keys.
fn enter_texts(
    alloc: Global,
    pairs: &mut NamedValues,
    context: &Context,
    keys: &[ContextKey],
) -> Result<(), AllocError>
    ensures { OnOk result (pairs.new ≡ entered (map (text_entry context.now) keys.now) pairs.old) }
{
    for key in keys {
        enter_text_of(alloc, pairs, context, *key)?;
    }
    Ok(())
}

/// The text of a key, where the context has it.
fn enter_text_of(
    alloc: Global,
    pairs: &mut NamedValues,
    context: &Context,
    key: ContextKey,
) -> Result<(), AllocError>
    ensures { OnOk result (pairs.new ≡ entered (text_entry context.now key ∷ []) pairs.old) }
{
    match context.text(key) {
        Some(text) => enter(alloc, pairs, key.name(), Value::Text(text.clone()?)),
        None => Ok(()),
    }
}

/// What the locale says.
#[tactic(auto, unfolding(crate::specs::Attributes::locale_entries))]
fn enter_locale(
    alloc: Global,
    pairs: &mut NamedValues,
    locale: Option<&Text>,
) -> Result<(), AllocError>
    ensures { OnOk result (pairs.new ≡ entered (locale_entries (option_map (λ t. t.now) locale.entry)) pairs.old) }
{
    let Some(locale) = locale else {
        return Ok(());
    };
    let (language, region) = parts_of(locale.as_str());
    enter_text(alloc, pairs, "language", Some(language))?;
    enter_text(alloc, pairs, "region", region)
}

/// Who the client is and since when.
#[tactic(auto, unfolding(crate::specs::Attributes::client_entries))]
fn enter_client(
    alloc: Global,
    pairs: &mut NamedValues,
    state: &State,
    now: u64,
) -> Result<(), AllocError>
    requires { now ≤ last_moment }
    ensures { OnOk result (pairs.new ≡ entered (client_entries state.now now) pairs.old) }
{
    enter_id(alloc, pairs, state.id)?;
    enter_whole(alloc, pairs, "current_date", now)?;
    enter_whole(
        alloc,
        pairs,
        "days_since_install",
        days_to(now, state.installed),
    )?;
    enter_whole(
        alloc,
        pairs,
        "days_since_update",
        days_to(now, state.updated),
    )
}

/// Whole days from a moment to a later one, and 0 to an earlier one.
fn days_to(now: u64, moment: u64) -> u64
    ensures { result ≡ days_to now moment }
{
    now.saturating_sub(moment) / SECONDS_A_DAY
}

/// What the client is or was enrolled in.
#[tactic(auto, unfolding(crate::specs::Attributes::enrolment_entries))]
fn enter_enrolments(alloc: Global, pairs: &mut NamedValues, state: &State) -> Result<(), AllocError>
    requires { Rise (slugs_of state.now.rows) }
    ensures { OnOk result (pairs.new ≡ entered (enrolment_entries state.now) pairs.old) }
{
    let rows = state.rows.as_slice();
    let active = Value::List(active_experiments(alloc, rows)?);
    enter(alloc, pairs, "active_experiments", active)?;
    let slugs = Value::List(enrollments(alloc, rows)?);
    enter(alloc, pairs, "enrollments", slugs)?;
    let branches = Value::Object(enrollments_map(alloc, rows)?);
    enter(alloc, pairs, "enrollments_map", branches)
}
