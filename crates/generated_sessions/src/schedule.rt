//! The numbers of a session.
ghost use Rattle.std.specs.Prelude.{◌≡◌, ◌<◌, ◌≤◌, ◌+◌, ◌/◌, ◌^◌, ◌⊎◌};
ghost use Rattle.generated_sessions.specs.Generated as made;
ghost use Rattle.generated_sessions.specs.Generated.{made_sample};

use hk_base::Place;

/// The sample that is taken at a place.
pub(crate) fn sample(seed: u32, place: Place) -> u128
    ensures sample { result ≡ made_sample seed place.param place.slot }
    ensures fits { result < 256 ^ 2 }
{
    (u128::from(seed) + 31 * u128::from(place.param) + 7 * u128::from(place.slot)) % 65_536
}

/// The tag from which a round counts.
pub(crate) fn round_tag(round: u32) -> u64
    requires { round < 100000 }
    ensures tag { result ≡ made.round_tag round }
    ensures early { result < 2 ^ 32 }
{
    (4 * u64::from(round) + 4) * 4096
}

/// The structure that a request changes.
pub(crate) fn changed_structure(request: u32) -> u32
    ensures structure { result ≡ made.changed_structure request }
    ensures small { (1 ≤ result) × (result ≤ 6) }
{
    1 + request % 6
}

/// The interval that a request sets, in slots.
pub(crate) fn set_interval(request: u32) -> u32
    ensures interval { result ≡ made.set_interval request }
    ensures either { (result ≡ 2) ⊎ (result ≡ 4) }
{
    if request / 6 % 2 == 0 { 2 } else { 4 }
}

/// Whether a request is lost on the way up.
pub(crate) fn is_lost(request: u32) -> bool
    ensures { result ≡ made.is_lost request }
{
    request % 10 == 9
}

/// The interval of a structure in a round, in slots: the requests of earlier rounds were executed.
pub(crate) fn interval_in(structure: u32, round: u32) -> u32
    requires { round < 100000 }
    ensures interval { result ≡ made.interval_after structure ((round + 15) / 16) }
    ensures either { (result ≡ 2) ⊎ (result ≡ 4) }
{
    interval_after(structure, (round + 15) / 16)
}

/// The interval of a structure after so many requests. One of the last twelve sets it, if there are so many.
fn interval_after(structure: u32, requests: u32) -> u32
    ensures interval { result ≡ made.interval_after structure requests }
    ensures either { (result ≡ 2) ⊎ (result ≡ 4) }
{
    let mut left = requests;
    while left > 0 {
        let request = left - 1;
        if changed_structure(request) == structure && !is_lost(request) {
            return set_interval(request);
        }
        left = request;
    }
    4
}
