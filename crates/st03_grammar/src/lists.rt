ghost use Rattle.std.specs.Prelude.{◌≡◌, ◌≤◌, ◌==◌, List, ℕ, [], ◌++◌, length, reverse, flat_map, IfOk};
ghost use Rattle.std.specs.List.{list_any};
ghost use Rattle.body_fields.specs.Outcomes.{Gives, Finds};
ghost use Rattle.body_fields.specs.Reading.{param_field};
ghost use Rattle.st03_grammar.specs.Bodies.{in_view, array_view, repetition_fault, array_field, lists_field, least_arrays};

use crate::bodies::Added;
use body_fields::{BodyFault, ReadMember, check_param, is_listed, read_list, read_number};
use hk_base::{Items, SuperList, Tailoring};
use std::alloc::Global;

/// Simple parameters, in a report each once.
#[derive(Drop)]
struct SimpleParams<'t> {
    tailoring: &'t Tailoring,
    once: bool,
}

impl ReadMember for SimpleParams<'_> {
    type Member = u32;

    ghost reader = { λ params earlier octets. param_field params.tailoring.now (in_view params.once earlier) octets };

    fn read_member<'a>(
        &self,
        earlier: &[u32],
        octets: &'a [u8],
    ) -> Result<(u32, &'a [u8]), BodyFault> {
        let (id, rest) = read_number(octets, self.tailoring.widths().parameter_octets)?;
        check_param(self.tailoring, stood_simple(self.once, earlier, id), id)?;
        Ok((id, rest))
    }
}

/// Whether an ID that may stand once only stood before.
fn stood_simple(once: bool, earlier: &[u32], id: u32) -> bool
    ensures { result ≡ list_any (λ e. e == id) (in_view once (reverse earlier.now)) }
{
    once && is_listed(earlier, id)
}

/// The parameters of an array behind simple ones and other arrays, in a report each once.
#[derive(Drop)]
struct ArrayParams<'t> {
    tailoring: &'t Tailoring,
    once: bool,
    simple: &'t Items<u32>,
    arrays: &'t [SuperList],
}

impl ReadMember for ArrayParams<'_> {
    type Member = u32;

    ghost reader = { λ params earlier octets.
        param_field params.tailoring.now (array_view params.once params.simple.now (reverse params.arrays.now) earlier) octets };

    fn read_member<'a>(
        &self,
        earlier: &[u32],
        octets: &'a [u8],
    ) -> Result<(u32, &'a [u8]), BodyFault> {
        let (id, rest) = read_number(octets, self.tailoring.widths().parameter_octets)?;
        let stood = stood_before(self.once, self.simple, self.arrays, earlier, id);
        check_param(self.tailoring, stood, id)?;
        Ok((id, rest))
    }
}

/// Whether an ID that may stand once only stood before.
fn stood_before(
    once: bool,
    simple: &Items<u32>,
    arrays: &[SuperList],
    earlier: &[u32],
    id: u32,
) -> bool
    ensures { result ≡ list_any (λ e. e == id) (array_view once simple.now (reverse arrays.now) (reverse earlier.now)) }
{
    once && stands(simple, arrays, earlier, id)
}

/// Whether an ID stands in its array, among the simple ones or in other arrays.
fn stands(simple: &Items<u32>, arrays: &[SuperList], earlier: &[u32], id: u32) -> bool
    ensures { result ≡ list_any (λ e. e == id) (reverse earlier.now ++ simple.now ++ flat_map (λ a. a.params) (reverse arrays.now)) }
{
    let in_array = is_listed(earlier, id);
    let among_simple = is_item(simple, id);
    let in_arrays = is_arrayed(arrays, id);
    in_array || among_simple || in_arrays
}

fn is_item(items: &Items<u32>, id: u32) -> bool
    ensures { result ≡ list_any (λ e. e == id) items.now }
{
    items.as_slice().contains(&id)
}

fn is_arrayed(arrays: &[SuperList], id: u32) -> bool
    ensures { result ≡ list_any (λ e. e == id) (flat_map (λ a. a.params) (reverse arrays.now)) }
{
    has_item(arrays, id)
}

fn has_item(arrays: &[SuperList], id: u32) -> bool
    ensures { result ≡ list_any (λ a. list_any (λ e. e == id) a.params) arrays.now }
{
    arrays.iter().any(|array| is_item(&array.params, id))
}

/// Tests a repetition number against the interval, where the body has one.
fn check_repetition(interval: Option<u32>, repetition: u32) -> Result<(), BodyFault>
    ensures { Finds result (repetition_fault interval repetition) }
{
    if repetition == 0 {
        return Err(BodyFault::ZeroCount);
    }
    match interval {
        Some(slots) if slots % repetition != 0 => Err(BodyFault::BadRepetition(repetition, slots)),
        _ => Ok(()),
    }
}

/// Arrays behind simple parameters.
#[derive(Drop)]
struct Arrays<'t> {
    alloc: Global,
    tailoring: &'t Tailoring,
    once: bool,
    interval: Option<u32>,
    simple: &'t Items<u32>,
}

impl ReadMember for Arrays<'_> {
    type Member = SuperList;

    ghost reader = { λ arrays earlier octets. array_field arrays.tailoring.now arrays.once arrays.interval arrays.simple.now earlier octets };

    fn read_member<'a>(
        &self,
        earlier: &[SuperList],
        octets: &'a [u8],
    ) -> Result<(SuperList, &'a [u8]), BodyFault> {
        let (repetition, rest) = read_number(octets, self.tailoring.widths().repetition_octets)?;
        check_repetition(self.interval, repetition)?;
        let member = ArrayParams {
            tailoring: self.tailoring,
            once: self.once,
            simple: self.simple,
            arrays: earlier,
        };
        let (params, rest) = read_list(self.alloc, self.tailoring, 1, &member, rest)?;
        Ok((SuperList { repetition, params }, rest))
    }
}

/// Simple parameters and arrays. Where each stands `once`, a second one is a fault.
pub fn read_lists<'a>(
    alloc: Global,
    tailoring: &Tailoring,
    once: bool,
    interval: Option<u32>,
    octets: &'a [u8],
) -> Result<(Added, &'a [u8]), BodyFault>
    ensures gives { Gives (λ x. (x.0, x.1.now)) result (lists_field tailoring.now once interval octets.now) }
    ensures left { IfOk result (λ x. length x.1.now ≤ length octets.now) }
{
    let (simple, rest) = read_list(
        alloc,
        tailoring,
        0,
        &SimpleParams { tailoring, once },
        octets,
    )?;
    let member = Arrays {
        alloc,
        tailoring,
        once,
        interval,
        simple: &simple,
    };
    let (arrays, rest) = read_list(alloc, tailoring, least_of(&simple), &member, rest)?;
    Ok((Added { simple, arrays }, rest))
}

/// How many arrays there are at least: without a simple parameter there is one.
fn least_of(simple: &Items<u32>) -> u32
    ensures { result ≡ least_arrays simple.now }
{
    u32::from(simple.as_slice().is_empty())
}
