use anyhow::{Context, Result, bail, ensure};
use std::alloc::Global;
use std::env::Args;

const USAGE: &str =
    "usage: migrate_bench walks SIZE | search SIZE BUDGET | read FILE... | tables FILE... | check ORDER FILE... | \
     waves ORDER FILE... | refute TREE FILE... | prepare DESIGN FILE... | plan FILE...";

/// What is to be measured.
#[derive(Drop)]
pub enum Task {
    /// The least walks of two networks of so many routers.
    Walks { size: u32 },
    /// The search for a ranking of so many numbers, with so many branches at most.
    Search { size: u32, budget: u32 },
    /// The reading of the configurations of files.
    Read { files: Vec<String> },
    /// The route tables of the network of files.
    Tables { files: Vec<String> },
    /// What is found of the order of the first file and of others like it, over the network of the others.
    Check { files: Vec<String> },
    /// What is found of the wave list of the first file and of others like it, over the network of the others.
    Waves { files: Vec<String> },
    /// What is found of the tree of the first file, over the network of the others.
    Refute { files: Vec<String> },
    /// The prepared texts of the network of the other files, by the design of the first file.
    Prepare { files: Vec<String> },
    /// What is planned of the network of files.
    Plan { files: Vec<String> },
}

impl Task {
    /// Reads the name of a task, and then what it takes.
    pub fn read(alloc: Global, mut words: Args) -> Result<Task> {
        let name = words.next().context(USAGE)?;
        let task = match name.as_str() {
            "walks" => Task::Walks {
                size: read_count(&mut words)?,
            },
            "search" => Task::Search {
                size: read_count(&mut words)?,
                budget: read_count(&mut words)?,
            },
            "read" => Task::Read {
                files: read_files(alloc, &mut words)?,
            },
            "tables" => Task::Tables {
                files: read_files(alloc, &mut words)?,
            },
            "check" => Task::Check {
                files: read_files(alloc, &mut words)?,
            },
            "waves" => Task::Waves {
                files: read_files(alloc, &mut words)?,
            },
            "refute" => Task::Refute {
                files: read_files(alloc, &mut words)?,
            },
            "prepare" => Task::Prepare {
                files: read_files(alloc, &mut words)?,
            },
            "plan" => Task::Plan {
                files: read_files(alloc, &mut words)?,
            },
            _ => bail!(USAGE),
        };
        ensure!(words.next().is_none(), USAGE);
        Ok(task)
    }
}

/// Reads a number.
fn read_count(words: &mut Args) -> Result<u32> {
    let word = words.next().context(USAGE)?;
    let count = word.parse().context("no number")?;
    Ok(count)
}

/// Reads the names of files, at least one, from the rest of the words.
fn read_files(alloc: Global, words: &mut Args) -> Result<Vec<String>> {
    let mut files = Vec::new(alloc);
    for word in words {
        files.push(word)?;
    }
    ensure!(!files.is_empty(), USAGE);
    Ok(files)
}
