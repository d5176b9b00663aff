//! Events with a condition.
ghost use Rattle.std.specs.Prelude.{◌≡◌, ◌&&◌, true, false, is_none};
ghost use Rattle.std.specs.Option.{option_map_or};
ghost use Rattle.hk_base.specs.Parameters.{fits, parameter};
ghost use Rattle.body_fields.specs.Spelling.{AreOctets};
ghost use Rattle.board_steps.specs.Steps.{MayFile};

use board_core::{BoardCore, BoardFault, Event, Sample};
use hk_base::{Octets, Tailoring, fits};
use message_words::{number_in, value_in};

/// Files a value for the slot that runs, where words name its parameter and the value. None, where it may not be filed.
pub(crate) fn file(core: &mut BoardCore, words: &str) -> Option<Result<u32, BoardFault>> {
    let (param, value) = words.split_once(' ')?;
    let sample = Sample {
        param: number_in(param),
        slot: core.slot_now(),
        value: value_in(value),
    };
    if may_file(core, sample) {
        Some(core.step(Event::Filing(sample)))
    } else {
        None
    }
}

/// Whether a sample meets the condition of a filing.
fn may_file(core: &BoardCore, sample: Sample) -> bool
    ensures { result ≡ true → MayFile core.now sample }
{
    fits_sensed(core.tailoring(), sample)
        && sample.slot == core.slot_now()
        && !core.filed(sample.param)
}

/// Whether a value fits the sensed parameter that the sample is of.
fn fits_sensed(tailoring: &Tailoring, sample: Sample) -> bool
    ensures { result ≡ option_map_or (λ p. is_none p.initial && fits p sample.value) (parameter tailoring.now sample.param) false }
{
    match tailoring.param(sample.param) {
        Some(param) => param.initial.is_none() && fits(param, sample.value),
        None => false,
    }
}

/// Uplinks octets, of which there are few.
pub(crate) fn uplink(core: &mut BoardCore, octets: Octets) -> Result<u32, BoardFault> {
    if octets.as_slice().len() > 1000 {
        return Ok(0);
    }
    are_octets(octets.as_slice());
    core.step(Event::Uplink(octets))
}

/// Octets are below 256: a fact of their type.
fn are_octets(octets: &[u8])
    ensures { AreOctets octets.now }
{}
