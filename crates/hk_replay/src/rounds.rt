//! How many rounds a session has that is made from a seed.
ghost use Rattle.std.specs.Prelude.{◌≤◌};

/// A number of rounds.
#[derive(Clone, Copy)]
pub struct Rounds {
    pub count: u32,
    ghost few: { count ≤ 100000 },
}
