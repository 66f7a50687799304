// Whether the client takes part in the recipes that hold preferences.
ghost use Rattle.std.specs.Prelude.{◌↔◌, IsTrue};
ghost use Rattle.enrol_states.specs.Order.{Rise};
ghost use Rattle.enrol_states.specs.State.{slugs_of};
ghost use Rattle.client_state.specs.Sound.{HasEnrolledHolder, HaveEnrolledHolders, IsEnrolled};

use enrol_states::{State, Status};
use plain_text::Slug;
use pref_bindings::{Hold, Preference};

/// Whether the client takes part in the recipe of each holder. It takes no memory.
#[tactic(auto, using(crate::proofs::EnrolledHolders::holder_at, crate::proofs::EnrolledHolders::holder_more))]
pub(crate) fn have_enrolled_holders(enrolment: &State, preferences: &[Preference]) -> bool
    requires { Rise (slugs_of enrolment.now.rows) }
    ensures { IsTrue result ↔ HaveEnrolledHolders enrolment.now preferences.now }
{
    for preference in preferences {
        if !has_enrolled_holder(enrolment, &preference.hold) {
            return false;
        }
    }
    true
}

// Whether the client takes part in the holder's recipe, whoever holds it.
fn has_enrolled_holder(enrolment: &State, hold: &Option<Hold>) -> bool
    requires { Rise (slugs_of enrolment.now.rows) }
    ensures { IsTrue result ↔ HasEnrolledHolder enrolment.now hold.now }
{
    match hold {
        Some(hold) => is_enrolled(enrolment, &hold.holder),
        None => true,
    }
}

// Whether the client takes part in the slug's recipe, by a binary search.
fn is_enrolled(enrolment: &State, slug: &Slug) -> bool
    requires { Rise (slugs_of enrolment.now.rows) }
    ensures { IsTrue result ↔ IsEnrolled enrolment.now slug.now }
{
    match enrolment.status_of(slug.text()) {
        Some(Status::Enrolled { .. }) => true,
        _ => false,
    }
}
