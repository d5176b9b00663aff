//! What requests ask, by the words that they begin with.
ghost use Rattle.std.specs.Prelude.{◌≡◌};
ghost use Rattle.st03_grammar.specs.Spelling.{by_kind as number_by_kind, each_subtype as subtype_of_each};
ghost use Rattle.message_words.specs.Commands as commands;

use hk_base::Kind;
use st03_grammar::Each;

/// What a request on structures asks.
#[derive(Clone, Copy, Debug, PartialEq, Eq, Drop)]
pub enum StructureCommand {
    Create,
    Append,
    OnEach(Each),
    Intervals,
}

/// What a statistics request asks.
#[derive(Clone, Copy, Debug, PartialEq, Eq, Drop)]
pub enum StatisticsCommand {
    Report,
    Reset,
    Enable,
    Disable,
    Add,
    Delete,
    ShowDefinitions,
}

/// What a request on parameter values asks.
#[derive(Clone, Copy, Debug, PartialEq, Eq, Drop)]
pub enum ValueCommand {
    Report,
    Set,
}

/// What a request asks.
#[derive(Clone, Copy, Debug, PartialEq, Eq, Drop)]
pub enum Command {
    Hk(StructureCommand),
    Stat(StatisticsCommand),
    Par(ValueCommand),
}

/// What the first word of a body asks.
pub fn command_in(word: &str) -> Option<Command>
    ensures { result ≡ commands.command_in word.now }
{
    match structure_command(word) {
        Some(command) => Some(command),
        None => other_command(word),
    }
}

fn structure_command(word: &str) -> Option<Command>
    ensures { result ≡ commands.structure_command word.now }
{
    match word {
        "create" => Some(Command::Hk(StructureCommand::Create)),
        "append" => Some(Command::Hk(StructureCommand::Append)),
        "delete" => Some(Command::Hk(StructureCommand::OnEach(Each::Delete))),
        "enable" => Some(Command::Hk(StructureCommand::OnEach(Each::Enable))),
        "disable" => Some(Command::Hk(StructureCommand::OnEach(Each::Disable))),
        "structures" => Some(Command::Hk(StructureCommand::OnEach(Each::Show))),
        "oneshot" => Some(Command::Hk(StructureCommand::OnEach(Each::OneShot))),
        "periodic" => Some(Command::Hk(StructureCommand::OnEach(Each::ShowPeriodic))),
        "interval" => Some(Command::Hk(StructureCommand::Intervals)),
        _ => None,
    }
}

fn other_command(word: &str) -> Option<Command>
    ensures { result ≡ commands.other_command word.now }
{
    match word {
        "stat-report" => Some(Command::Stat(StatisticsCommand::Report)),
        "stat-reset" => Some(Command::Stat(StatisticsCommand::Reset)),
        "stat-enable" => Some(Command::Stat(StatisticsCommand::Enable)),
        "stat-disable" => Some(Command::Stat(StatisticsCommand::Disable)),
        "stat-add" => Some(Command::Stat(StatisticsCommand::Add)),
        "stat-delete" => Some(Command::Stat(StatisticsCommand::Delete)),
        "stat-definitions" => Some(Command::Stat(StatisticsCommand::ShowDefinitions)),
        "report-values" => Some(Command::Par(ValueCommand::Report)),
        "set" => Some(Command::Par(ValueCommand::Set)),
        _ => None,
    }
}

/// The kind of structures that a word stands for.
pub fn kind_in(word: &str) -> Kind
    ensures { result ≡ commands.kind_in word.now }
{
    match word {
        "diag" => Kind::Diagnostic,
        _ => Kind::Housekeeping,
    }
}

/// The subtype of a request on structures of a kind.
pub fn structure_subtype(command: StructureCommand, kind: Kind) -> u8
    ensures { result ≡ commands.structure_subtype command kind }
{
    match command {
        StructureCommand::Create => by_kind(kind, 1, 2),
        StructureCommand::Append => by_kind(kind, 29, 30),
        StructureCommand::OnEach(each) => each_subtype(each, kind),
        StructureCommand::Intervals => by_kind(kind, 31, 32),
    }
}

fn each_subtype(each: Each, kind: Kind) -> u8
    ensures { result ≡ subtype_of_each each kind }
{
    match each {
        Each::Delete => by_kind(kind, 3, 4),
        Each::Enable => by_kind(kind, 5, 7),
        Each::Disable => by_kind(kind, 6, 8),
        Each::Show => by_kind(kind, 9, 11),
        Each::OneShot => by_kind(kind, 27, 28),
        Each::ShowPeriodic => by_kind(kind, 33, 34),
    }
}

fn by_kind(kind: Kind, housekeeping: u8, diagnostic: u8) -> u8
    ensures { result ≡ number_by_kind kind housekeeping diagnostic }
{
    match kind {
        Kind::Housekeeping => housekeeping,
        Kind::Diagnostic => diagnostic,
    }
}

/// The subtype of a statistics request.
pub fn statistics_subtype(command: StatisticsCommand) -> u8
    ensures { result ≡ commands.statistics_subtype command }
{
    match command {
        StatisticsCommand::Report => 1,
        StatisticsCommand::Reset => 3,
        StatisticsCommand::Enable => 4,
        StatisticsCommand::Disable => 5,
        StatisticsCommand::Add => 6,
        StatisticsCommand::Delete => 7,
        StatisticsCommand::ShowDefinitions => 8,
    }
}

/// The subtype of a request on parameter values.
pub fn value_subtype(command: ValueCommand) -> u8
    ensures { result ≡ commands.value_subtype command }
{
    match command {
        ValueCommand::Report => 1,
        ValueCommand::Set => 3,
    }
}
