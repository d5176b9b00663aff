//! What the definitions promise.
ghost use Rattle.std.specs.Prelude.{◌≡◌, ℕ, List};
ghost use Rattle.pus_messages.specs.Protocol.{Protocol};
ghost use Rattle.ground_history.specs.Histories.{History, sent_answer, history_with};
ghost use Rattle.ground_history.specs.Attribution.{AttributionHolds};
ghost use Rattle.ground_history.specs.Bounds.{BoundsHold};
ghost use Rattle.ground_history.specs.Rising.{BoundsRise};
ghost use Rattle.ground_history.specs.declared.answer.SentFault.{SentFault};
ghost use Rattle.hk_world.specs.Worlds.{sent};

/// A packet that can't be sent changes nothing that is known.
pub fn refusals_change_nothing()
    ensures { (p : Protocol) (h : History) (packet : List ℕ) (fault : SentFault) → sent_answer p h packet ≡ Err fault → history_with p h (sent packet) ≡ h }
{}

/// In a world what the ground knows after any of its steps bounds when the board executes each request, and tells the outcomes that the board has.
pub fn bounds()
    ensures { BoundsHold }
{}

/// In a world each request that is sent is taken, and each packet of the board's is kept once, as evidence on the request whose moment sent it.
pub fn attribution()
    ensures { AttributionHolds }
{}

/// The bounds of a request are no higher than those of the requests after it.
pub fn bounds_rise()
    ensures { BoundsRise }
{}
