//! Where the samples of a report were taken.
ghost use Rattle.std.specs.Prelude.{◌≡◌, ◌≤◌, ◌<◌, ◌+◌, ◌*◌, ◌/◌, ℕ, Some, length, slice_get};
ghost use Rattle.hk_base.specs.Payload.{places};
ghost use Rattle.sample_slots.specs.Slots.{IsSampled, IsSampledArray, array_places};

use hk_base::{Definition, Place, SuperList};

/// The number of samples of a report.
pub fn place_count(def: &Definition) -> u32
    requires { IsSampled def.now }
    ensures { (last : ℕ) → result ≡ length (places def.now last) }
{
    let mut count = def.simple.as_slice().len() as u32;
    for array in def.arrays.as_slice() {
        count += sample_count(array);
    }
    count
}

/// Where the sample with this number, from 0, of a report with this last slot was taken.
pub fn place(def: &Definition, last: u64, number: u32) -> Option<Place>
    requires sampled { IsSampled def.now }
    requires whole { def.now.interval ≤ last + 1 }
    ensures { result ≡ slice_get (places def.now last) number }
{
    let simple = def.simple.as_slice();
    let count = simple.len() as u32;
    if number < count {
        let param = simple[number as usize];
        return Some(Place { param, slot: last });
    }
    let mut left = number - count;
    for array in def.arrays.as_slice() {
        let count = sample_count(array);
        if left < count {
            return Some(array_place(array, def.interval, last, left));
        }
        left -= count;
    }
    None
}

/// The number of samples of an array in a report.
fn sample_count(array: &SuperList) -> u32
    requires { (length array.now.params ≤ 255) × (array.now.repetition ≤ 4096) }
    ensures count { result ≡ array.now.repetition * length array.now.params }
    ensures most { result ≤ 1044480 }
{
    array.repetition * array.params.as_slice().len() as u32
}

/// Where the sample of an array with this number was taken.
fn array_place(array: &SuperList, interval: u32, last: u64, number: u32) -> Place
    requires sampled { IsSampledArray interval array.now }
    requires interval { (1 ≤ interval) × (interval ≤ 4096) }
    requires whole { interval ≤ last + 1 }
    requires within { number < array.now.repetition * length array.now.params }
    ensures { slice_get (array_places last interval array.now) number ≡ Some result }
{
    let members = array.params.as_slice();
    let width = members.len() as u32;
    let param = members[(number % width) as usize];
    let later = array.repetition - 1 - number / width;
    let slot = last - u64::from(later * (interval / array.repetition));
    Place { param, slot }
}
