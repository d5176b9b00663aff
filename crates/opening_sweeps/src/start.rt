use hk_base::Structure;
use std::marker::Model;

/// A state that a structure had at a tag.
#[derive(Debug, Drop)]
pub struct Start<'a> {
    pub tag: u64,
    pub state: Option<&'a Structure>,
}

impl<'a> Model for Start<'a> {
    ghost use Rattle.std.specs.Option.{option_copied};
    ghost use Rattle.opening_sweeps.specs.Requests as requests;

    ghost Value = { requests.Start };

    ghost view = { λ s. record { tag = s.tag; state = option_copied s.state } };
}
