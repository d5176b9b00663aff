//! What a board does in a session, and what the ground sees of it: moments, their journal, and the definitions of timelines
//! and worlds.
#![tactic(auto)]

ghost use Rattle.std.specs.Prelude.{◌≡◌, ℕ, List, ◌∷◌, pos, Some, slice_get};
ghost use Rattle.std.specs.List.{AllByRecursion};
ghost use Rattle.hk_base.specs.Parameters.{boot_structure};
ghost use Rattle.hk_base.specs.declared.types.Key.{Key};
ghost use Rattle.hk_base.specs.declared.types.Kind.TheVariants.{Housekeeping};
ghost use Rattle.hk_world.specs.Timelines.{tailoring};
ghost use Rattle.st03_grammar.specs.Instructions.{key_of};
ghost use Rattle.hk_world.specs.Legal.{IsLegal};
ghost use Rattle.hk_world.specs.Honest.{IsHonest};
ghost use Rattle.hk_world.specs.Worlds.{World, Step, IsWorld, IsDelivered, IsTrueValue, moments_of, deliveries_of, world_state_at};
ghost use Rattle.hk_world.specs.Undisturbed.{IsUndisturbed, AreDeliveredReports};
ghost use Rattle.hk_world.specs.Examples.{reporting_world, commanded_world};
ghost use Rattle.hk_world.specs.LongExample.{enabling_packet, long_session, long_world};

mod journal;
mod moment;

pub use journal::{Journal, MOST_MOMENTS};
pub use moment::{Act, Moment};

/// Laws of worlds. A prefix of a world is a world. The moments of a world are a legal and honest timeline. What was
/// delivered are packets that the board made, each honest. Where nothing is commanded, they are housekeeping reports, in the
/// order of their tags, and each structure is as at boot at every tag.
pub fn worlds()
    ensures prefix { (w : World) (step : Step) (earlier : List Step) → w.steps ≡ step ∷ earlier → IsWorld w → IsWorld (record w { steps = earlier }) }
    ensures legal { (w : World) → IsWorld w → IsLegal w.session (moments_of w.steps) }
    ensures honest { (w : World) → IsWorld w → IsHonest w.session (moments_of w.steps) }
    ensures delivered { (w : World) → IsWorld w → AllByRecursion (IsDelivered w.session (moments_of w.steps)) (deliveries_of w.steps) }
    ensures undisturbed { (w : World) → IsWorld w → IsUndisturbed w → AreDeliveredReports w.session (moments_of w.steps) (deliveries_of w.steps) }
    ensures unchanged { (w : World) → IsWorld w → IsUndisturbed w → (tag : ℕ) (key : Key)
        → (world_state_at w tag).structure key ≡ boot_structure (tailoring w.session) key }
{}

/// There are worlds: one in which nothing is commanded, one in which a request changes the interval of a structure before it
/// is reported, and a long one in which request 16,384 has the packet of request 0. A value of the first two is true.
pub fn examples()
    ensures reporting { IsWorld reporting_world }
    ensures undisturbed { IsUndisturbed reporting_world }
    ensures reported { IsTrueValue reporting_world (key_of Housekeeping 1) 4097 1 0 7 0 (pos 100) }
    ensures commanded { IsWorld commanded_world }
    ensures changed { IsTrueValue commanded_world (key_of Housekeeping 1) 8193 2 0 7 1 (pos 100) }
    ensures long { IsWorld long_world }
    ensures first { slice_get long_session.requests 0 ≡ Some (enabling_packet 0) }
    ensures again { slice_get long_session.requests 16384 ≡ Some (enabling_packet 0) }
{}
