//! The words of the command line.
ghost use Rattle.std.specs.Prelude.{◌≡◌, ◌∷◌, [], map};
ghost use Rattle.std.specs.Option.{option_map};
ghost use Rattle.std.specs.String.{string_bytes};
ghost use Rattle.hk_board.specs.Words.{asked, command_of};

use program_edge::{TailoringName, tailoring_named};

/// A script that is to be run under a tailoring.
#[derive(Clone, Copy)]
pub(crate) struct Command<'a> {
    pub(crate) tailoring: TailoringName<'a>,
    pub(crate) script: &'a str,
}

/// The command that the words are, if they are of the form `run TAILORING SCRIPT`.
pub(crate) fn command_in(words: &[String]) -> Option<Command<'_>>
    ensures { option_map asked result ≡ command_of (map string_bytes words.now) }
{
    match words {
        [form, tailoring, script] => {
            command_with(form.as_str(), tailoring.as_str(), script.as_str())
        }
        _ => None,
    }
}

/// The command of a form with two words.
fn command_with<'a>(form: &str, tailoring: &'a str, script: &'a str) -> Option<Command<'a>>
    ensures { option_map asked result ≡ command_of (form.now ∷ tailoring.now ∷ script.now ∷ []) }
{
    if form == "run" {
        Some(Command {
            tailoring: tailoring_named(tailoring),
            script,
        })
    } else {
        None
    }
}
