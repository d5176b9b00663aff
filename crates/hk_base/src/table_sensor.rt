//! A sensor that answers from a table, and fails at calls that are listed.
ghost use Rattle.std.specs.Prelude.{◌≡◌, IfOk, IsOk, IsTrue};
ghost use Rattle.std.specs.Result.{result_ok};
ghost use Rattle.hk_base.specs.Fit.{IsFitShape};
ghost use Rattle.hk_base.specs.Memory as memory;
ghost use Rattle.hk_base.specs.Memory.{IsGiven, Senses, IsSure, sensed, table_after};
ghost use Rattle.hk_base.specs.Outside.{Counts, IsCount, GivesAlike, StaysSure};
ghost use Rattle.hk_base.specs.Parameters as parameters;

use crate::list::Items;
use crate::listed::{is_next_listed, raise};
use crate::outside::{Failed, Sensor};
use crate::ranges::fits;
use crate::types::{Param, Value};
use std::marker::Model;

/// A table of values by parameters and slots. Its calls are numbered from 1, and those whose numbers are listed fail.
#[derive(Drop)]
pub struct TableSensor {
    rows: Items<(u32, u64, Value)>,
    failing: Items<u32>,
    calls: u64,
    faults: u64,
}

impl Model for TableSensor {
    ghost use Rattle.hk_base.specs.Memory.{TableState};
    ghost use Rattle.hk_base.specs.Outside.{IsCount};

    ghost Value = { TableState };

    ghost view = { λ s. record { rows = s.rows; failing = s.failing; calls = s.calls; faults = s.faults } };

    ghost invariant = { λ s. IsCount s.faults };
}

impl TableSensor {
    /// A sensor of these rows: the ID of a parameter, a slot and the value there.
    pub fn new(rows: Items<(u32, u64, Value)>, failing: Items<u32>) -> TableSensor
        ensures { result ≡ record { rows = rows; failing = failing; calls = 0; faults = 0 } }
    {
        TableSensor {
            rows,
            failing,
            calls: 0,
            faults: 0,
        }
    }
}

impl Sensor for TableSensor {
    ghost faults = { λ s. s.faults };

    ghost gives = { IsGiven };

    ghost reads = { Senses };

    ghost is_sure = { IsSure };

    fn read(&mut self, param: &Param, slot: u64) -> Result<Value, Failed>
        requires { IsFitShape param.now }
        ensures count { Counts self.old.faults self.new.faults result }
        ensures bound { IsCount self.new.faults }
        ensures fitting { IfOk result (λ value. IsTrue (parameters.fits param.now value)) }
        ensures given { IfOk result (IsGiven self.old param.now slot) }
        ensures gives { GivesAlike (IsGiven self.old) (IsGiven self.new) }
        ensures reads { Senses self.old param.now slot result self.new }
        ensures sure { IsSure self.old param.now slot → IsOk result }
        ensures stays_sure { StaysSure (IsSure self.old) (IsSure self.new) }
        ensures answer { result_ok result ≡ sensed self.old param.now slot }
        ensures state { self.new ≡ table_after self.old (sensed self.old param.now slot) }
    {
        if is_next_listed(&mut self.calls, self.failing.as_slice()) {
            return Err(raise(&mut self.faults));
        }
        match first_fitting(self.rows.as_slice(), param, slot) {
            Some(value) => Ok(value),
            None => Err(raise(&mut self.faults)),
        }
    }
}

/// The value of the first row of that parameter and slot whose value fits.
fn first_fitting(rows: &[(u32, u64, Value)], param: &Param, slot: u64) -> Option<Value>
    requires { IsFitShape param.now }
    ensures { result ≡ memory.first_fitting rows.now param.now slot }
{
    for row in rows {
        if is_fitting(param, slot, *row) {
            return Some(row.2);
        }
    }
    None
}

/// Whether a row is of that parameter and slot, with a value that fits.
fn is_fitting(param: &Param, slot: u64, row: (u32, u64, Value)) -> bool
    requires { IsFitShape param.now }
    ensures { result ≡ memory.is_fitting param.now slot row }
{
    row.0 == param.id && row.1 == slot && fits(param, row.2)
}
