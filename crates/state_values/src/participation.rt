// The row of participation: which kinds of recipes the client takes part in, as one byte.
ghost use Rattle.std.specs.Prelude.{◌≡◌};
ghost use Rattle.state_values.specs.Outcome.{Gives};
ghost use Rattle.state_values.specs.Reading.{participation_of, participation_in};
ghost use Rattle.state_values.specs.Values.{participation_byte};

use crate::fault::CodecFault;
use enrol_states::State;

/// Which kinds of recipes the client takes part in.
#[derive(Clone, Copy)]
pub struct Participation {
    pub experiments: bool,
    pub rollouts: bool,
}

/// The byte of the row: 4, and 1 more where experiments are on, and 2 more where rollouts are on.
#[tactic(auto, unfolding(crate::specs::Values::participation_byte))]
pub fn participation_byte(state: &State) -> u8
    ensures { result ≡ participation_byte state.now }
{
    match (state.experiments, state.rollouts) {
        (false, false) => 4,
        (true, false) => 5,
        (false, true) => 6,
        (true, true) => 7,
    }
}

/// What the row's value says, in either form. `NotAState` comes where it isn't one byte of 0, 1 and 4 to 7.
#[tactic(auto, unfolding(crate::specs::Reading::participation_in))]
pub fn participation_in(value: &[u8]) -> Result<Participation, CodecFault>
    ensures { Gives (λ p. p) result (participation_in value.now) }
{
    match value {
        [byte] => participation_of(*byte),
        _ => Err(CodecFault::NotAState),
    }
}

// What the byte says. In the old form it was one flag, 0 or 1.
fn participation_of(byte: u8) -> Result<Participation, CodecFault>
    ensures { Gives (λ p. p) result (participation_of byte) }
{
    match byte {
        0 | 4 => Ok(of_flags(false, false)),
        5 => Ok(of_flags(true, false)),
        6 => Ok(of_flags(false, true)),
        1 | 7 => Ok(of_flags(true, true)),
        _ => Err(CodecFault::NotAState),
    }
}

fn of_flags(experiments: bool, rollouts: bool) -> Participation
    ensures { result ≡ record { experiments = experiments; rollouts = rollouts } }
{
    Participation {
        experiments,
        rollouts,
    }
}
