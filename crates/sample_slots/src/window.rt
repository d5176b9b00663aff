//! The latest samples of a parameter.
ghost use Rattle.std.specs.Prelude.{◌≡◌, ◌<◌, [], ◌∷◌, ◌++◌, ℕ, ℤ, List, Some, length, IfOk, IfSome, slice_get};
ghost use Rattle.circular_buffer.specs.Buffer.{buffer, keep_last, last_item};
ghost use Rattle.sample_slots.specs.Windows.{sample_at};

use circular_buffer::HeapCircularBuffer;
use hk_base::{Memory, Value};
use std::alloc::Global;
use std::marker::Model;

/// The latest samples of a parameter, each with its slot, and no more of them than the capacity.
#[derive(Drop)]
pub struct Window {
    samples: HeapCircularBuffer<(u64, Value)>,
}

impl Model for Window {
    ghost use Rattle.std.specs.Prelude.{ℕ, ℤ};
    ghost use Rattle.circular_buffer.specs.Buffer.{Buffer};
    ghost use Rattle.sample_slots.specs.Windows.{AreRising};

    ghost Value = { Buffer (ℕ × ℤ) };

    ghost view = { λ window. window.samples };

    ghost invariant = { λ window. AreRising window.samples.items };
}

impl Window {
    /// A window with no samples.
    pub fn new(alloc: Global, capacity: u32) -> Result<Window, Memory>
        ensures { IfOk result (λ window. window ≡ buffer [] capacity) }
    {
        let samples = HeapCircularBuffer::with_capacity(alloc, capacity as usize)?;
        Ok(Window { samples })
    }

    /// Puts a sample last, whose slot is later than that of the newest one. Where the window is full, the oldest sample
    /// goes.
    pub fn push(&mut self, slot: u64, value: Value)
        requires { IfSome (last_item self.old.items) (λ newest. newest.0 < slot) }
        ensures { self.new ≡ buffer (keep_last self.old.capacity (self.old.items ++ (slot, value) ∷ [])) self.old.capacity }
    {
        self.samples.push_back((slot, value));
    }

    /// The value that was sampled in the slot, if the window has it.
    pub fn at(&self, slot: u64) -> Option<Value>
        ensures { result ≡ sample_at self.now.items slot }
    {
        let mut low = 0;
        let mut high = self.samples.len();
        while low < high {
            let middle = low + (high - low) / 2;
            let (found, value) = self.sample(middle);
            if found == slot {
                return Some(value);
            }
            if found < slot {
                low = middle + 1;
            } else {
                high = middle;
            }
        }
        None
    }

    /// The sample with this number, from the oldest on.
    fn sample(&self, number: usize) -> (u64, Value)
        requires { number < length self.now.items }
        ensures { slice_get self.now.items number ≡ Some result }
    {
        match self.samples.get(number) {
            Some(sample) => *sample,
            None => unreachable!(),
        }
    }
}
