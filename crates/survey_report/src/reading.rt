ghost use Rattle.std.specs.Prelude.{◌≡◌, ◌<◌, ◌++◌, ◌∷◌, [], List, AllPairs, IfOk};
ghost use Rattle.survey_report.specs.SurveyFiles.{SurveyFile};
ghost use Rattle.survey_report.specs.steps.Reading.{AreFilesRead};

use crate::OutOfMemory;
use crate::survey_file::SurveyFile;
use ios_reader::fault::Fault;
use ios_reader::read_or_faults;
use net_model::{Config, Configs};
use std::alloc::Global;
use std::marker::Model;

/// A file with its faulty lines, ascending.
#[derive(Drop)]
pub(crate) struct FileFaults<'f, 'a> {
    /// The file.
    pub file: &'f SurveyFile<'a>,
    /// Its faulty lines, each once with its least kind.
    pub faults: Vec<Fault>,
}

impl<'f, 'a> Model for FileFaults<'f, 'a> {
    ghost use Rattle.std.specs.Prelude.{◌<◌, AllPairs};
    ghost use Rattle.survey_report.specs.SurveyFiles.{FileFaults};

    ghost Value = { FileFaults };

    ghost view = { λ x. record { file = x.file.now; faults = x.faults.items } };

    ghost invariant = { λ x. AllPairs (λ f g. f.line < g.line) x.faults.items };
}

/// What was read of some files.
#[derive(Drop)]
pub(crate) struct FilesRead<'f, 'a> {
    /// The configurations of those without a faulty line.
    pub configs: Vec<Config>,
    /// The faulty lines of each.
    pub found: Vec<FileFaults<'f, 'a>>,
}

impl<'f, 'a> Model for FilesRead<'f, 'a> {
    ghost use Rattle.survey_report.specs.steps.Reading.{FilesRead};

    ghost Value = { FilesRead };

    ghost view = { λ x. record { configs = x.configs.items; found = x.found.items } };
}

impl<'f, 'a> FilesRead<'f, 'a> {
    ghost use Rattle.std.specs.Prelude.{◌≡◌};

    /// The faulty lines of each.
    pub fn found(&self) -> &[FileFaults<'f, 'a>]
        ensures { result.now ≡ self.now.found }
    {
        self.found.as_slice()
    }

    /// The configurations.
    pub fn into_configs(self) -> Vec<Config>
        ensures { result.items ≡ self.entry.configs }
    {
        let FilesRead { configs, found } = self;
        let _ = found;
        configs
    }
}

/// Reads some files.
pub(crate) fn read_files<'f, 'a>(
    alloc: Global,
    files: &'f [SurveyFile<'a>],
) -> Result<FilesRead<'f, 'a>, OutOfMemory>
    ensures { IfOk result (AreFilesRead files.entry.now) }
{
    let mut read = FilesRead {
        configs: Vec::new(alloc),
        found: Vec::new(alloc),
    };
    for file in files {
        read = with_file(alloc, read, file)?;
    }
    Ok(read)
}

/// What was read, with what is read of a file more.
fn with_file<'f, 'a>(
    alloc: Global,
    read: FilesRead<'f, 'a>,
    file: &'f SurveyFile<'a>,
) -> Result<FilesRead<'f, 'a>, OutOfMemory>
    ensures { IfOk result (λ longer. (files : List SurveyFile) → AreFilesRead files read.entry →
        AreFilesRead (files ++ file.entry.now ∷ []) longer) }
{
    match read_or_faults(alloc, file.text)? {
        Ok(configs) => with_configs(alloc, read, file, configs),
        Err(faults) => with_faults(read, file, faults),
    }
}

/// What was read, with the configurations of a file more.
fn with_configs<'f, 'a>(
    alloc: Global,
    read: FilesRead<'f, 'a>,
    file: &'f SurveyFile<'a>,
    more: Configs,
) -> Result<FilesRead<'f, 'a>, OutOfMemory>
    ensures { IfOk result (λ longer. longer ≡ record {
      configs = read.entry.configs ++ more;
      found = read.entry.found ++ record { file = file.entry.now; faults = [] } ∷ [];
    }) }
{
    let FilesRead { configs, found } = read;
    let mut configs = configs;
    let mut found = found;
    let mut more = more.into_vec();
    configs.append(&mut more)?;
    found.push(FileFaults {
        file,
        faults: Vec::new(alloc),
    })?;
    Ok(FilesRead { configs, found })
}

/// What was read, with the faulty lines of a file more.
fn with_faults<'f, 'a>(
    read: FilesRead<'f, 'a>,
    file: &'f SurveyFile<'a>,
    faults: Vec<Fault>,
) -> Result<FilesRead<'f, 'a>, OutOfMemory>
    requires { AllPairs (λ f g. f.line < g.line) faults.items }
    ensures { IfOk result (λ longer. longer ≡ record {
      configs = read.entry.configs;
      found = read.entry.found ++ record { file = file.entry.now; faults = faults.items } ∷ [];
    }) }
{
    let FilesRead { configs, found } = read;
    let mut found = found;
    found.push(FileFaults { file, faults })?;
    Ok(FilesRead { configs, found })
}
