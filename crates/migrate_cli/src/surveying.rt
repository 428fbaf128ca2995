ghost use Rattle.std.specs.Prelude.{◌≡◌, IfOk};
ghost use Rattle.migrate_words.specs.Asked.{IsInRange};
ghost use Rattle.migrate_cli.specs.CommandFiles.{config_texts, files_of, given_texts, own_texts};
ghost use Rattle.migrate_cli.specs.Outcomes.{IsOutcome};
ghost use Rattle.migrate_cli.specs.Reading.{AreShort};

use crate::OutOfMemory;
use migrate_words::{Command, CommandKind};
use migration_report::Outcome;
use net_addr::Bytes;
use std::alloc::Global;
use survey_report::{SurveyText, survey_text};

/// What `survey` comes to on the texts of its files, whatever they are: it refuses nothing.
pub(crate) fn judge_survey(
    alloc: Global,
    command: &Command<'_>,
    texts: &[Bytes],
) -> Result<Outcome, OutOfMemory>
    requires kind { command.now.kind ≡ CommandKind.Survey }
    requires range { IsInRange command.now }
    requires short { AreShort (files_of command.now) texts.now }
    ensures { IfOk result (IsOutcome command.now (given_texts (own_texts command.now texts.now) (config_texts command.now texts.now))) }
{
    let SurveyText { text, stands_out } = survey_text(alloc, command.configs.as_slice(), texts)?;
    Ok(Outcome::Survey { stands_out, text })
}
