// The numbers that a drill draws from a linear congruential generator.
ghost use Rattle.std.specs.Prelude.{◌≡◌, ◌+◌, ◌*◌, ◌/◌, ◌<◌, ◌^◌, ℕ};
ghost use Rattle.recipe_drill.specs.Draws.{draws, drawn, next_state, state_after};

const MULTIPLIER: u64 = 6_364_136_223_846_793_005;

const INCREMENT: u64 = 1_442_695_040_888_963_407;

/// What is drawn for a record.
#[derive(Clone, Copy)]
pub(crate) struct Draws {
    /// The number of its feature, and of its namespace.
    pub feature: u32,
    /// 0 makes the record a rollout.
    pub kind: u32,
    /// How many buckets of 10,000 it has.
    pub count: u32,
    /// 0 pauses its enrolment.
    pub pause: u32,
    /// What is added to version 90, the least that it targets.
    pub version: u32,
}

/// The draws of the record of this number, from the state before its five draws. The state
/// becomes the one after them.
pub(crate) fn draws_of(start: u64, state: &mut u64, index: u32) -> Draws
    requires { state.old ≡ state_after start (5 * index) }
    ensures state { state.new ≡ state_after start (5 * (index + 1)) }
    ensures draws { result ≡ draws start index }
{
    let drawn = five_draws(start, state, index);
    if index == 0 {
        Draws {
            count: 10_000,
            pause: 1,
            version: 0,
            ..drawn
        }
    } else {
        drawn
    }
}

fn five_draws(start: u64, state: &mut u64, index: u32) -> Draws
    requires { state.old ≡ state_after start (5 * index) }
    ensures state { state.new ≡ state_after start (5 * (index + 1)) }
    ensures draws { result ≡ drawn start index }
{
    let feature = draw(state) % 40;
    let kind = draw(state) % 4;
    let count = draw(state) % 10_001;
    let pause = draw(state) % 10;
    let version = draw(state) % 40;
    Draws {
        feature,
        kind,
        count,
        pause,
        version,
    }
}

/// The next number. The state moves on by a draw.
#[tactic(auto, using(crate::proofs::Drawing::wrapped))]
fn draw(state: &mut u64) -> u32
    ensures state { state.new ≡ next_state state.old }
    ensures draw { result ≡ state.new / 2 ^ 33 }
{
    *state = state.wrapping_mul(MULTIPLIER).wrapping_add(INCREMENT);
    (*state >> 33) as u32
}
