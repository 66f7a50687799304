// The two sides, and the generations that follow one another on them.
ghost use Rattle.std.specs.Prelude.{◌≡◌, ◌≤◌, ◌↔◌, IsTrue};
ghost use Rattle.host_model.specs.Sides.{other};
ghost use Rattle.pair_store.specs.Pair.{generation_after};

use host_model::Side;

/// The other side.
pub(crate) fn other(side: Side) -> Side
    ensures { result ≡ other side }
{
    match side {
        Side::Left => Side::Right,
        Side::Right => Side::Left,
    }
}

/// The generation after this one.
pub(crate) fn generation_after(generation: u8) -> u8
    requires { generation ≤ 2 }
    ensures next { result ≡ generation_after generation }
    ensures known { result ≤ 2 }
{
    (generation + 1) % 3
}

/// Whether a generation is the one after the other.
pub(crate) fn follows(generation: u8, before: u8) -> bool
    requires { before ≤ 2 }
    ensures { IsTrue result ↔ (generation ≡ generation_after before) }
{
    generation == generation_after(before)
}
