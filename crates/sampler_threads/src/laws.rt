//! Laws of orders.
ghost use Rattle.std.specs.Prelude.{◌≢◌, ℕ};
ghost use Rattle.std.specs.List.{AllByRecursion};
ghost use Rattle.hk_base.specs.Fit.{IsFit};
ghost use Rattle.hk_base.specs.TailoringParts.{TailoringParts};
ghost use Rattle.board_steps.specs.Cores.{Core};
ghost use Rattle.sampler_threads.specs.Orders.{orders_for};
ghost use Rattle.sampler_threads.specs.Samplings.{IsDue, AreDistinctOrders, NoneFiled};

/// Where no sensed parameter has a sample yet, the orders of the samplers for the slot that runs are due; each parameter
/// is ordered once.
pub fn orders_are_due()
    ensures due { (core : Core) (samplers sampler : ℕ) → IsFit core.tailoring → NoneFiled core → AllByRecursion (IsDue core) (orders_for core.tailoring samplers sampler core.slot_now) }
    ensures distinct { (t : TailoringParts) (samplers sampler slot : ℕ) → IsFit t → AreDistinctOrders (orders_for t samplers sampler slot) }
    ensures apart { (t : TailoringParts) (samplers j k slot : ℕ) → IsFit t → j ≢ k → AllByRecursion (λ order. AllByRecursion (λ other. other.param ≢ order.param) (orders_for t samplers k slot)) (orders_for t samplers j slot) }
{}
