//! The statistics of parameters.
ghost use Rattle.std.specs.Prelude.{◌≡◌, ◌≤◌, ◌<◌, ◌^◌, ◌&&◌, ◌++◌, ◌∷◌, ◌==◌, [], not, filter, length, false, true, IfOk, OnOk, OnErr};
ghost use Rattle.std.specs.List.{All, AllZip, list_any};
ghost use Rattle.statistics.specs.Summaries.{sample, IsSampleValue};
ghost use Rattle.board_steps.specs.Slots as slots;
ghost use Rattle.board_state.specs.Statistics.{params_of, with_members, IsEmpty, RestartsAt, CountsAt, Files, Adds, Resets, IsTimely, IsRowIfAny, AreRowsOf, IsReportOf};

use crate::structures::ends_interval;
use hk_base::{Items, Memory, Tailoring, Value};
use st04_grammar::{StatReport, StatRow};
use statistics::Stat;
use std::alloc::Global;
use std::marker::Model;

/// A parameter whose statistics are kept.
#[derive(Drop)]
pub struct Member {
    param: u32,
    stat: Stat,
}

/// The parameters whose statistics are kept, in order, and how they are reported.
#[derive(Drop)]
pub struct Members {
    members: Vec<Member>,
    enabled: bool,
    interval: u32,
    first_slot: u64,
    start: u64,
}

/// The most parameters whose statistics are kept.
pub const MOST_MEMBERS: usize = 255;

impl Model for Members {
    ghost use Rattle.board_state.specs.Statistics.{StatisticsHeld};

    ghost Value = { StatisticsHeld };

    ghost view = { λ m. record {
      members = m.members.items;
      enabled = m.enabled;
      interval = m.interval;
      first_slot = m.first_slot;
      start = m.start;
    } };
}

impl Members {
    /// No parameters.
    pub fn new(alloc: Global) -> Members
        ensures { result ≡ record { members = []; enabled = false; interval = 1; first_slot = 0; start = 0 } }
    {
        Members {
            members: Vec::new(alloc),
            enabled: false,
            interval: 1,
            first_slot: 0,
            start: 0,
        }
    }

    /// Another one with the same members and totals.
    pub fn copy(&self, alloc: Global) -> Result<Members, Memory>
        ensures { IfOk result (λ copy. copy ≡ self.now) }
    {
        Ok(Members {
            members: copies(alloc, &self.members)?,
            enabled: self.enabled,
            interval: self.interval,
            first_slot: self.first_slot,
            start: self.start,
        })
    }

    pub fn len(&self) -> usize
        ensures { result ≡ length self.now.members }
    {
        self.members.len()
    }

    pub fn has(&self, param: u32) -> bool
        ensures { result ≡ list_any (λ m. m.param == param) self.now.members }
    {
        is_among(&self.members, param)
    }

    pub fn is_enabled(&self) -> bool
        ensures { result ≡ self.now.enabled }
    {
        self.enabled
    }

    /// In slots.
    pub fn interval(&self) -> u32
        ensures { result ≡ self.now.interval }
    {
        self.interval
    }

    /// Whether a report is due in this slot.
    pub fn is_due(&self, slot: u64) -> bool
        requires interval { 1 ≤ self.now.interval }
        requires slot { slot < 2 ^ 63 }
        ensures { result ≡ (self.now.enabled && slots.ends_interval self.now.first_slot self.now.interval slot) }
    {
        self.enabled && ends_interval(self.first_slot, u64::from(self.interval), slot)
    }

    /// The parameters, in order.
    pub fn params(&self, alloc: Global) -> Result<Items<u32>, Memory>
        ensures { IfOk result (λ ids. ids ≡ params_of self.now.members) }
    {
        Ok(Items::from_vec(ids_of(alloc, &self.members)?))
    }

    /// A sample of a parameter.
    pub fn file(&mut self, param: u32, slot: u64, value: Value)
        requires value { IsSampleValue value }
        requires room { All (λ m. m.stat.count < 4294967295) self.old.members }
        ensures { Files param (sample slot value) self.old self.new }
    {
        file_in(&mut self.members, param, slot, value);
    }

    /// Puts a parameter last, or leaves it where it is, with no samples.
    pub fn add(&mut self, param: u32) -> Result<(), Memory>
        ensures { OnOk result (Adds param self.old self.new) }
    {
        if self.has(param) {
            restart_at(&mut self.members, param);
            Ok(())
        } else {
            self.members.push(Member::new(param))?;
            Ok(())
        }
    }

    pub fn delete(&mut self, param: u32)
        ensures { self.new ≡ with_members self.old (filter (λ m. not (m.param == param)) self.old.members) }
    {
        remove(&mut self.members, param);
    }

    pub fn delete_all(&mut self)
        ensures { self.new ≡ with_members self.old [] }
    {
        self.members.clear();
    }

    /// Enables reports with this interval in slots, the first of which begins with this slot.
    pub fn enable(&mut self, interval: u32, first_slot: u64)
        ensures { self.new ≡ record self.old { enabled = true; interval = interval; first_slot = first_slot } }
    {
        self.enabled = true;
        self.interval = interval;
        self.first_slot = first_slot;
    }

    pub fn disable(&mut self)
        ensures { self.new ≡ record self.old { enabled = false } }
    {
        self.enabled = false;
    }

    /// Forgets all samples. The statistics start from this tag.
    pub fn reset(&mut self, tag: u64)
        ensures { Resets tag self.old self.new }
    {
        restart_all(&mut self.members);
        self.start = tag;
    }

    /// The report at this tag.
    pub fn report(
        &self,
        alloc: Global,
        tailoring: &Tailoring,
        tag: u64,
    ) -> Result<StatReport, Memory>
        requires { All (IsTimely tailoring.now) self.now.members }
        ensures { IfOk result (IsReportOf tailoring.now self.now tag) }
    {
        let rows = rows_of(alloc, tailoring, &self.members)?;
        Ok(StatReport {
            start: self.start,
            end: tag,
            rows: Items::from_vec(rows),
        })
    }
}

impl Member {
    /// No samples of a parameter.
    fn new(param: u32) -> Member
        ensures { IsEmpty param result }
    {
        let stat = Stat::new();
        Member { param, stat }
    }

    fn copy(&self) -> Member
        ensures { result ≡ self.now }
    {
        let stat = self.stat.copy();
        Member {
            param: self.param,
            stat,
        }
    }

    /// Forgets the samples.
    fn restart(&mut self)
        ensures { IsEmpty self.old.param self.new }
    {
        self.stat.reset();
    }

    /// Forgets the samples if they are of this parameter.
    fn restart_at(&mut self, param: u32)
        ensures { RestartsAt param self.old self.new }
    {
        if self.param == param {
            self.restart();
        }
    }

    /// Counts a sample if it is of the same parameter.
    fn file(&mut self, param: u32, slot: u64, value: Value)
        requires value { IsSampleValue value }
        requires room { self.old.stat.count < 4294967295 }
        ensures { CountsAt param (sample slot value) self.old self.new }
    {
        if self.param == param {
            let Ok(()) = self.stat.add(slot, value) else {
                unreachable!();
            };
        }
    }

    /// The row of a report, where there are samples.
    fn row(&self, tailoring: &Tailoring) -> Option<StatRow>
        requires { IsTimely tailoring.now self.now }
        ensures { IsRowIfAny tailoring.now self.now result }
    {
        let widths = tailoring.widths();
        match self.stat.result(widths.mean_fraction) {
            Ok(summary) => Some(StatRow {
                param: self.param,
                count: summary.count,
                max: summary.max,
                max_time: summary.max_slot * widths.slot,
                min: summary.min,
                min_time: summary.min_slot * widths.slot,
                mean: summary.mean,
            }),
            Err(_) => None,
        }
    }
}

fn copies(alloc: Global, members: &[Member]) -> Result<Vec<Member>, Memory>
    ensures { IfOk result (λ copies. copies.items ≡ members.now) }
{
    let mut copies = Vec::new(alloc);
    for member in members {
        copies.push(member.copy())?;
    }
    Ok(copies)
}

fn is_among(members: &[Member], param: u32) -> bool
    ensures { result ≡ list_any (λ m. m.param == param) members.now }
{
    members.iter().any(|member| member.param == param)
}

fn ids_of(alloc: Global, members: &[Member]) -> Result<Vec<u32>, Memory>
    ensures { IfOk result (λ ids. ids.items ≡ params_of members.now) }
{
    let mut ids = Vec::new(alloc);
    for member in members {
        ids.push(member.param)?;
    }
    Ok(ids)
}

fn file_in(members: &mut [Member], param: u32, slot: u64, value: Value)
    requires value { IsSampleValue value }
    requires room { All (λ m. m.stat.count < 4294967295) members.old }
    ensures { AllZip (CountsAt param (sample slot value)) members.old members.new }
{
    for member in members.iter_mut() {
        member.file(param, slot, value);
    }
}

fn restart_at(members: &mut [Member], param: u32)
    ensures { AllZip (RestartsAt param) members.old members.new }
{
    for member in members.iter_mut() {
        member.restart_at(param);
    }
}

fn restart_all(members: &mut [Member])
    ensures { AllZip (λ old new. IsEmpty old.param new) members.old members.new }
{
    for member in members.iter_mut() {
        member.restart();
    }
}

fn remove(members: &mut Vec<Member>, param: u32)
    ensures { members.new.items ≡ filter (λ m. not (m.param == param)) members.old.items }
{
    members.retain(|member| member.param != param);
}

/// The rows of the members that have samples, in order.
fn rows_of(alloc: Global, tailoring: &Tailoring, members: &[Member]) -> Result<Vec<StatRow>, Memory>
    requires { All (IsTimely tailoring.now) members.now }
    ensures { IfOk result (λ rows. AreRowsOf tailoring.now members.now rows.items) }
{
    let mut rows = Vec::new(alloc);
    for member in members {
        if let Some(row) = member.row(tailoring) {
            rows.push(row)?;
        }
    }
    Ok(rows)
}
