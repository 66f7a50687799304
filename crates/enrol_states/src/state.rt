// The state of a client, and its rows.
ghost use Rattle.std.specs.Prelude.{◌≡◌, ◌≤◌, ◌<◌, All, IfOk, length, option_map};
ghost use Rattle.enrol_states.specs.Order.{Rise, is_in};
ghost use Rattle.enrol_states.specs.State.{fresh, last_moment, slugs_of, status_of};
ghost use Rattle.enrol_states.specs.Consistent.{IsConsistent, IsId};
ghost use Rattle.enrol_states.specs.Statuses.{IsSlug};
ghost use Rattle.enrol_states.specs.Participation.{takes_part};

use crate::copying::copy_of_pending;
use crate::status::Status;
use plain_text::Slug;
use recipe_reader::{Kind, Recipes};
use sequences::{SharedList, Text};
use std::alloc::{AllocError, Global};
use uuid::Uuid;

/// The most slugs that are opted out.
pub const MAX_OPTED_OUT: usize = 4_096;

/// The most recipes that are live, and the most that are pending.
pub const MAX_RECIPES: usize = 2_000;

/// What a client knows of itself, of the recipes and of what it is to each. Every list is in order
/// by its bytes, without repeats: the recipes and the rows by slug. A clone is the same state, and
/// shares its lists; `==` holds of the same states alone.
#[derive(Drop)]
pub struct State {
    /// The client's identifier (RFC 9562).
    pub id: Uuid,
    /// When the store was made, in whole seconds since 1970.
    pub installed: u64,
    /// When the version last changed, in whole seconds since 1970.
    pub updated: u64,
    /// The application's version at the last apply.
    pub version: Text,
    /// Whether the client takes part in experiments.
    pub experiments: bool,
    /// Whether the client takes part in rollouts.
    pub rollouts: bool,
    /// The slugs that the user opted out of, at most 4,096. A slug stays while its recipe is gone.
    pub opted_out: SharedList<Slug>,
    /// The features that recipes of one kind may share, as of the last apply.
    pub coenrolling: SharedList<Text>,
    /// The recipes of the last apply, at most 2,000.
    pub live: Recipes,
    /// The recipes that were fetched since, at most 2,000.
    pub pending: Option<Recipes>,
    /// What the client is to each recipe.
    pub rows: SharedList<Row>,
}

/// What a client is to the recipe of a slug.
#[derive(Drop)]
pub struct Row {
    pub slug: Slug,
    pub status: Status,
}

impl State {
    /// The state of a new store. It takes no memory.
    pub fn new(alloc: Global, id: Uuid, now: u64) -> State
        requires { now ≤ last_moment }
        ensures fresh { result ≡ fresh id now }
        ensures consistent { IsConsistent result }
    {
        id_fits(id);
        State {
            id,
            installed: now,
            updated: now,
            version: Text::from_string(String::new(alloc)),
            experiments: true,
            rollouts: true,
            opted_out: SharedList::new(alloc),
            coenrolling: SharedList::new(alloc),
            live: Recipes::new(alloc),
            pending: None,
            rows: SharedList::new(alloc),
        }
    }
}

impl State {
    /// What the client is to the slug's recipe, where it has a row, by a binary search. It takes no
    /// memory.
    pub fn status_of(&self, slug: &str) -> Option<&Status>
        requires { Rise (slugs_of self.now.rows) }
        ensures { option_map (λ s. s.now) result ≡ status_of slug.now self.now.rows }
    {
        let rows = self.rows.as_slice();
        match rows.binary_search_by(|row| row.slug.text().cmp(slug)) {
            Ok(place) => Some(&rows[place].status),
            Err(_) => None,
        }
    }

    /// Whether the user opted out of the slug, by a binary search. It takes no memory.
    pub fn is_opted_out(&self, slug: &str) -> bool
        requires { Rise self.now.opted_out }
        ensures { result ≡ is_in self.now.opted_out slug.now }
    {
        let slugs = self.opted_out.as_slice();
        match slugs.binary_search_by(|other| other.text().cmp(slug)) {
            Ok(_) => true,
            Err(_) => false,
        }
    }

    /// Whether participation of recipes of the kind is on. It takes no memory.
    pub fn takes_part(&self, kind: Kind) -> bool
        ensures { result ≡ takes_part self.now kind }
    {
        match kind {
            Kind::Experiment => self.experiments,
            Kind::Rollout => self.rollouts,
        }
    }

    /// The state with other opt-outs and rows.
    pub(crate) fn with_rows(
        &self,
        opted_out: SharedList<Slug>,
        rows: SharedList<Row>,
    ) -> Result<State, AllocError>
        ensures { IfOk result (λ s. s ≡ record self.now { opted_out = opted_out; rows = rows }) }
    {
        Ok(State {
            id: self.id,
            installed: self.installed,
            updated: self.updated,
            version: self.version.clone()?,
            experiments: self.experiments,
            rollouts: self.rollouts,
            opted_out,
            coenrolling: self.coenrolling.clone()?,
            live: self.live.clone()?,
            pending: copy_of_pending(&self.pending)?,
            rows,
        })
    }
}

/// What the type of a slug says. The call does nothing.
pub fn slug_fits(slug: &Slug)
    ensures { IsSlug slug.now }
{
    slug.text();
}

/// What the type of an id says. The call does nothing.
pub fn id_fits(id: Uuid)
    ensures { IsId id }
{
    array_fits(id.into_bytes());
}

/// What the type of an array says. The call does nothing.
fn array_fits(bytes: [u8; 16])
    ensures sixteen { length bytes ≡ 16 }
    ensures bytes { All (λ b. b < 256) bytes }
{
    slice_fits(&bytes);
}

/// What the type of bytes says. The call does nothing.
fn slice_fits(bytes: &[u8])
    ensures { All (λ b. b < 256) bytes.now }
{}
