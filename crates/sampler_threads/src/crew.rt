//! Samplers for the ends of an executor.
ghost use Rattle.std.specs.Prelude.{◌≡◌, ◌<◌, ◌≤◌, ◌^◌, ◌++◌, [], ◌∷◌, ℕ, List, length, vec_len, IfOk, OnOk, slice_index_or};
ghost use Rattle.hk_base.specs.Fit.{IsFit};
ghost use Rattle.sampler_threads.specs.declared.item.Order.{Order};
ghost use Rattle.sampler_threads.specs.declared.slot.Sampler as spec_slot;
ghost use Rattle.sampler_threads.specs.Executors.{core_of, count_of, rings_of};
ghost use Rattle.sampler_threads.specs.Orders.{orders_for};
ghost use Rattle.sampler_threads.specs.Samplings.{AreFresh, NoneFiled, HavePlaces};
ghost use Rattle.sampler_threads.specs.Slots.{WithEach, FreshEnd, IsSamplerOf, CanOrderAll, ends_of};

use crate::end::SamplerEnd;
use crate::executor::Executor;
use crate::slot::Sampler;
use hk_base::{Items, Memory};
use std::alloc::Global;

/// Samplers with these ends and sensors, in their order, and with their orders for the slot that runs. There is a sensor for
/// each of the executor's ends.
pub fn samplers_of<N: Drop>(
    alloc: Global,
    executor: &Executor,
    ends: Items<SamplerEnd>,
    sensors: Vec<N>,
) -> Result<Vec<Sampler<N>>, Memory>
    requires ends { length ends ≡ count_of executor.now }
    requires sensors { vec_len sensors ≡ length ends }
    ensures ends { IfOk result (λ v. ends_of v.items ≡ ends) }
    ensures orders { IfOk result (λ v. (k : ℕ) (s : spec_slot.Sampler N) → k < length v.items → (slice_index_or v.items k s).orders ≡ orders_for (core_of executor.now).tailoring (count_of executor.now) k (core_of executor.now).slot_now) }
    ensures ready { IfOk result (λ v. WithEach FreshEnd (rings_of executor.now) ends → HavePlaces (core_of executor.now).tailoring (count_of executor.now) ends → WithEach IsSamplerOf (rings_of executor.now) v.items × CanOrderAll (core_of executor.now).tailoring v.items) }
    ensures fresh { IfOk result (λ v. WithEach FreshEnd (rings_of executor.now) ends → NoneFiled (core_of executor.now) → AreFresh (core_of executor.now) (rings_of executor.now) v.items) }
{
    join_sensors(alloc, executor, ends, sensors)
}

/// So long as there is a sensor for each end.
fn join_sensors<N: Drop>(
    alloc: Global,
    executor: &Executor,
    ends: Items<SamplerEnd>,
    sensors: Vec<N>,
) -> Result<Vec<Sampler<N>>, Memory>
    requires few { length ends ≤ 16 }
    ensures ends { IfOk result (λ v. ends_of v.items ≡ ends) }
    ensures orders { IfOk result (λ v. (k : ℕ) (s : spec_slot.Sampler N) → k < length v.items → (slice_index_or v.items k s).orders ≡ orders_for (core_of executor.now).tailoring (count_of executor.now) k (core_of executor.now).slot_now) }
    ensures fit { IsFit (core_of executor.now).tailoring }
{
    let _widths = executor.core.tailoring().widths();
    let mut samplers = Vec::new(alloc);
    let mut sensors = sensors.into_iter();
    for end in ends.into_vec() {
        let Some(sensor) = sensors.next() else {
            return Err(Memory);
        };
        put_sampler(executor, &mut samplers, end, sensor)?;
    }
    Ok(samplers)
}

/// Puts a sampler last, with its orders.
fn put_sampler<N: Drop>(
    executor: &Executor,
    samplers: &mut Vec<Sampler<N>>,
    end: SamplerEnd,
    sensor: N,
) -> Result<(), Memory>
    requires { vec_len samplers.old < 2 ^ 32 }
    ensures { OnOk result ((orders : List Order) × (orders ≡ orders_for (core_of executor.now).tailoring (count_of executor.now) (vec_len samplers.old) (core_of executor.now).slot_now) × (samplers.new.items ≡ samplers.old.items ++ record { end = end; sensor = sensor; orders = orders } ∷ [])) }
{
    let orders = executor.orders(samplers.len() as u32)?;
    samplers.push(Sampler {
        end,
        sensor,
        orders,
    })?;
    Ok(())
}
