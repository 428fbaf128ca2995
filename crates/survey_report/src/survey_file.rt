ghost use Rattle.std.specs.Prelude.{◌≡◌, ◌<◌, ◌^◌, All, IfOk, length, map};
ghost use Rattle.survey_report.specs.SurveyFiles.{survey_files};

use crate::OutOfMemory;
use net_addr::Bytes;
use std::alloc::Global;
use std::marker::Model;

/// A file of configurations, of fewer than 2^26 bytes.
#[derive(Drop)]
pub(crate) struct SurveyFile<'a> {
    /// Its name, as the call has it.
    pub name: &'a [u8],
    /// Its text.
    pub text: &'a [u8],
}

impl<'a> Model for SurveyFile<'a> {
    ghost use Rattle.std.specs.Prelude.{◌<◌, ◌^◌, length};
    ghost use Rattle.survey_report.specs.SurveyFiles.{SurveyFile};

    ghost Value = { SurveyFile };

    ghost view = { λ x. record { name = x.name.now; text = x.text.now } };

    ghost invariant = { λ x. length x.text.now < 2 ^ 26 };
}

/// The files of these names, with these texts.
pub(crate) fn survey_files<'a>(
    alloc: Global,
    names: &[&'a str],
    texts: &'a [Bytes],
) -> Result<Vec<SurveyFile<'a>>, OutOfMemory>
    requires lengths { length names.now ≡ length texts.now }
    requires short { All (λ text. length text < 2 ^ 26) texts.now }
    ensures { IfOk result (λ files. files.items ≡ survey_files (map (λ name. name.now) names.entry.now) texts.entry.now) }
{
    let mut files = Vec::new(alloc);
    for (i, text) in texts.iter().enumerate() {
        files.push(SurveyFile {
            name: names[i].as_bytes(),
            text: text.as_slice(),
        })?;
    }
    Ok(files)
}
