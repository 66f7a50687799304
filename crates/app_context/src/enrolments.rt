// The experiments that a client is in, and those that it is or was in, as values.
ghost use Rattle.std.specs.Prelude.{◌≡◌, ◌++◌, map, filter, [], ◌∷◌, IfOk, OnOk, option_map};
ghost use Rattle.json_tree.specs.Json.{text, IsAbove};
ghost use Rattle.jexl_value.specs.Value.{as_json};
ghost use Rattle.enrol_states.specs.Order.{Rise};
ghost use Rattle.enrol_states.specs.State.{slugs_of};
ghost use Rattle.app_context.specs.Enrolments.{active_slugs, branch_of, enrolments_of, slug_json, branch_json};

use enrol_states::{Row, Status};
use jexl_value::{NamedValues, Value, Values};
use plain_text::Slug;
use sequences::Text;
use std::alloc::{AllocError, Global};

/// The slugs of what the client is enrolled in.
pub(crate) fn active_experiments(alloc: Global, rows: &[Row]) -> Result<Values, AllocError>
    ensures { IfOk result (λ xs. xs ≡ map text (active_slugs rows.now)) }
{
    let mut slugs = Values::new(alloc);
    for row in rows {
        push_active(alloc, &mut slugs, row)?;
    }
    Ok(slugs)
}

fn push_active(alloc: Global, slugs: &mut Values, row: &Row) -> Result<(), AllocError>
    ensures { OnOk result (slugs.new ≡ slugs.old ++ map text (active_slugs (row.now ∷ []))) }
{
    if row.status.is_enrolled() {
        slugs.push(text_of(alloc, &row.slug)?)?;
    }
    Ok(())
}

/// The slugs of what the client takes part in or took part in.
pub(crate) fn enrollments(alloc: Global, rows: &[Row]) -> Result<Values, AllocError>
    ensures { IfOk result (λ xs. xs ≡ map slug_json (enrolments_of rows.now)) }
{
    let mut slugs = Values::new(alloc);
    for row in rows {
        push_slug(alloc, &mut slugs, row)?;
    }
    Ok(slugs)
}

fn push_slug(alloc: Global, slugs: &mut Values, row: &Row) -> Result<(), AllocError>
    ensures { OnOk result (slugs.new ≡ slugs.old ++ map slug_json (enrolments_of (row.now ∷ []))) }
{
    if branch_of(&row.status).is_some() {
        slugs.push(text_of(alloc, &row.slug)?)?;
    }
    Ok(())
}

/// The same slugs, each with its branch.
pub(crate) fn enrollments_map(alloc: Global, rows: &[Row]) -> Result<NamedValues, AllocError>
    requires { Rise (slugs_of rows.now) }
    ensures { IfOk result (λ ms. ms ≡ map branch_json (enrolments_of rows.now)) }
{
    let mut branches = NamedValues::new(alloc);
    for row in rows {
        push_branch(alloc, &mut branches, row)?;
    }
    Ok(branches)
}

fn push_branch(alloc: Global, branches: &mut NamedValues, row: &Row) -> Result<(), AllocError>
    requires { IsAbove row.now.slug branches.old }
    ensures { OnOk result (branches.new ≡ branches.old ++ map branch_json (enrolments_of (row.now ∷ []))) }
{
    if let Some(branch) = branch_of(&row.status) {
        branches.push(Text::new(alloc, row.slug.text())?, text_of(alloc, branch)?)?;
    }
    Ok(())
}

/// The branch of a client that takes part or took part.
fn branch_of(status: &Status) -> Option<&Slug>
    ensures { option_map (λ b. b.now) result ≡ branch_of status.now }
{
    match status {
        Status::Enrolled { branch, .. } => Some(branch),
        Status::Disqualified { branch, .. } => Some(branch),
        Status::WasEnrolled { branch, .. } => Some(branch),
        Status::NotEnrolled { .. } | Status::Error { .. } => None,
    }
}

fn text_of(alloc: Global, slug: &Slug) -> Result<Value, AllocError>
    ensures { IfOk result (λ v. as_json v ≡ text slug.now) }
{
    Ok(Value::Text(Text::new(alloc, slug.text())?))
}
