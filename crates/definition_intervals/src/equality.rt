//! Whether two states of a structure are the same.
ghost use Rattle.std.specs.Prelude.{◌≡◌};
ghost use Rattle.std.specs.Option.{option_copied};
ghost use lib.Pointwise.{pointwise};
ghost use Rattle.definition_intervals.specs.States.{array_eq, definition_eq, structure_eq, state_eq};
ghost use Rattle.definition_intervals.specs.Bases.{basis_eq};

use crate::answer::Basis;
use hk_base::{Definition, Structure, SuperList};

/// Whether two bases are the same, with their states in the same order.
pub(crate) fn is_same_basis(a: &Basis, b: &Basis) -> bool
    ensures { result ≡ basis_eq a.now b.now }
{
    match (a, b) {
        (Basis::NoOpening, Basis::NoOpening) => true,
        (Basis::Crowded(a), Basis::Crowded(b)) => a == b,
        (Basis::Open(states, a), Basis::Open(others, b)) => {
            a == b && are_same_states(states.as_slice(), others.as_slice())
        }
        _ => false,
    }
}

fn are_same_states(a: &[Option<Structure>], b: &[Option<Structure>]) -> bool
    ensures { result ≡ pointwise state_eq a.now b.now }
{
    match (a, b) {
        ([], []) => true,
        ([first, rest @ ..], [other, others @ ..]) => {
            is_same_state(first.as_ref(), other.as_ref()) && are_same_states(rest, others)
        }
        _ => false,
    }
}

/// Whether both states are absent, or the same structure.
pub(crate) fn is_same_state(a: Option<&Structure>, b: Option<&Structure>) -> bool
    ensures { result ≡ state_eq (option_copied a.entry) (option_copied b.entry) }
{
    match (a, b) {
        (Some(a), Some(b)) => is_same_structure(a, b),
        (None, None) => true,
        _ => false,
    }
}

fn is_same_structure(a: &Structure, b: &Structure) -> bool
    ensures { result ≡ structure_eq a.now b.now }
{
    is_same_definition(&a.def, &b.def) && a.enabled == b.enabled
}

pub(crate) fn is_same_definition(a: &Definition, b: &Definition) -> bool
    ensures { result ≡ definition_eq a.now b.now }
{
    a.interval == b.interval
        && a.simple.as_slice() == b.simple.as_slice()
        && are_same_arrays(a.arrays.as_slice(), b.arrays.as_slice())
}

fn are_same_arrays(a: &[SuperList], b: &[SuperList]) -> bool
    ensures { result ≡ pointwise array_eq a.now b.now }
{
    match (a, b) {
        ([], []) => true,
        ([first, rest @ ..], [other, others @ ..]) => {
            is_same_array(first, other) && are_same_arrays(rest, others)
        }
        _ => false,
    }
}

fn is_same_array(a: &SuperList, b: &SuperList) -> bool
    ensures { result ≡ array_eq a.now b.now }
{
    a.repetition == b.repetition && a.params.as_slice() == b.params.as_slice()
}
