//! The instructions of requests, one by one.
ghost use Rattle.std.specs.Prelude.{◌≡◌, ◌≤◌, ◌-◌, option_map, slice_get};
ghost use Rattle.st04_grammar.specs.Instructions.{statistics_changes};
ghost use Rattle.pus_messages.specs.Instructions.{instructions};
ghost use Rattle.board_state.specs.OneByOne.{instruction_of, statistics_change_of};

use hk_base::Key;
use pus_messages::{Request, RequestBody};
use st03_grammar::Change;
use st04_grammar::Request04;
use st20_grammar::{Request20, Setting};

/// One instruction of a request.
pub enum Instruction<'a> {
    Structure(Key, Change<'a>),
    Statistics(StatisticsChange),
    ReportValues(&'a [u32]),
    SetValues(&'a [Setting]),
}

/// One instruction on the statistics.
#[derive(Clone, Copy, Debug, PartialEq, Eq, Drop)]
pub enum StatisticsChange {
    /// True resets them after the report.
    Report(bool),
    Reset,
    Enable(u32),
    Disable,
    Add(u32),
    Delete(u32),
    DeleteAll,
    ShowDefinitions,
}

/// The instruction of a request with this number, from 1.
pub fn instruction_at(request: &Request, number: u32) -> Option<Instruction<'_>>
    requires { 1 ≤ number }
    ensures { option_map instruction_of result ≡ slice_get (instructions request.now) (number - 1) }
{
    match &request.body {
        RequestBody::Hk(request) => {
            let (key, change) = request.at(number)?;
            Some(Instruction::Structure(key, change))
        }
        RequestBody::Stat(request) => {
            Some(Instruction::Statistics(statistics_change(request, number)?))
        }
        RequestBody::Par(request) if number == 1 => Some(match request {
            Request20::Report(ids) => Instruction::ReportValues(ids.as_slice()),
            Request20::Set(settings) => Instruction::SetValues(settings.as_slice()),
        }),
        RequestBody::Par(_) => None,
    }
}

/// The change of the statistics with this number, from 1.
fn statistics_change(request: &Request04, number: u32) -> Option<StatisticsChange>
    requires { 1 ≤ number }
    ensures { option_map statistics_change_of result ≡ slice_get (statistics_changes request.now) (number - 1) }
{
    match request {
        Request04::Add(ids) => Some(StatisticsChange::Add(*ids.as_slice().get(place(number))?)),
        Request04::Delete(ids) if !ids.as_slice().is_empty() => {
            Some(StatisticsChange::Delete(*ids.as_slice().get(place(number))?))
        }
        _ if number > 1 => None,
        Request04::Delete(_) => Some(StatisticsChange::DeleteAll),
        Request04::Report(resets) => Some(StatisticsChange::Report(*resets)),
        Request04::Reset => Some(StatisticsChange::Reset),
        Request04::Enable(interval) => Some(StatisticsChange::Enable(*interval)),
        Request04::Disable => Some(StatisticsChange::Disable),
        Request04::ShowDefinitions => Some(StatisticsChange::ShowDefinitions),
    }
}

fn place(number: u32) -> usize
    requires { 1 ≤ number }
    ensures { result ≡ number - 1 }
{
    number as usize - 1
}
