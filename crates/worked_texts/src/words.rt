use migrate_words::{Command, FileNames, VERSION, WordsRefused, read_command};
use std::alloc::Global;
use std::test::Fail;

/// The words of a call, which stand in a line with one blank between them.
fn words_of(alloc: Global, line: &str) -> Result<Vec<String>, Fail> {
    let mut all = Vec::new(alloc);
    for word in line.split(' ') {
        all.push(String::from_str(alloc, word)?)?;
    }
    Ok(all)
}

/// A line with each name of a list after it.
fn with_names(line: &mut String, names: &FileNames<'_>) -> Result<(), Fail> {
    for name in names.as_slice() {
        line.push(' ')?;
        line.push_str(name)?;
    }
    Ok(())
}

/// A command, told in one line: its kind, its number, its own files, its configurations.
fn told(alloc: Global, command: &Command<'_>) -> Result<String, Fail> {
    let (kind, number) = (command.kind, command.number);
    let mut line = format!(in alloc; "{kind:?} {number}")?;
    with_names(&mut line, &command.own)?;
    line.push(':')?;
    with_names(&mut line, &command.configs)?;
    Ok(line)
}

/// What is made of the words of a call, in one line.
fn answer(alloc: Global, words: &[String]) -> Result<String, Fail> {
    match read_command(alloc, words) {
        Ok(command) => told(alloc, &command),
        Err(WordsRefused::Words(_)) => Ok(String::from_str(alloc, "refused")?),
        Err(WordsRefused::Number) => Ok(String::from_str(alloc, "off its range")?),
        Err(WordsRefused::OutOfMemory) => Err(Fail::from("out of memory")),
    }
}

/// Words, and what is made of them. Two blanks have an empty word between them.
static CASES: [(&str, &str); 35] = [
    ("check o.txt a.cfg", "Check 0 o.txt: a.cfg"),
    ("check o.txt a.cfg b.cfg", "Check 0 o.txt: a.cfg b.cfg"),
    ("prepare d.toml a.cfg", "Prepare 0 d.toml: a.cfg"),
    ("plan a.cfg b.cfg", "Plan 10000: a.cfg b.cfg"),
    ("plan --budget 7 a.cfg", "Plan 7: a.cfg"),
    ("plan --budget 007 a.cfg", "Plan 7: a.cfg"),
    ("plan --budget 1 a.cfg", "Plan 1: a.cfg"),
    ("plan --budget 100000 a.cfg", "Plan 100000: a.cfg"),
    ("plan a.cfg --budget=5 b.cfg", "Plan 5: a.cfg b.cfg"),
    ("refute t.txt a.cfg", "Refute 0 t.txt: a.cfg"),
    ("scripts o.txt a.cfg", "Scripts 0 o.txt: a.cfg"),
    (
        "replay o.txt j.txt a.cfg b.cfg",
        "Replay 0 o.txt j.txt: a.cfg b.cfg",
    ),
    ("sample 3", "Sample 3:"),
    ("sample 60", "Sample 60:"),
    ("check -- o.txt a.cfg", "Check 0 o.txt: a.cfg"),
    ("check o.txt -- --help", "Check 0 o.txt: --help"),
    ("check help check", "Check 0 help: check"),
    ("check - a.cfg", "Check 0 -: a.cfg"),
    ("check  a.cfg", "Check 0 : a.cfg"),
    ("plan --budget 0 a.cfg", "off its range"),
    ("plan --budget 100001 a.cfg", "off its range"),
    ("plan --budget  a.cfg", "off its range"),
    ("sample 2", "off its range"),
    ("sample 61", "off its range"),
    ("sample x", "off its range"),
    ("", "refused"),
    ("explain o.txt a.cfg", "refused"),
    ("check o.txt", "refused"),
    ("check --help", "refused"),
    ("help", "refused"),
    ("plan", "refused"),
    ("plan --budget a.cfg", "refused"),
    ("plan --budget 5 --budget 5 a.cfg", "refused"),
    ("sample", "refused"),
    ("sample 3 4", "refused"),
];

#[test]
fn words_are_read(rt: HostRuntime) -> Result<(), Fail> {
    let nothing = answer(rt.alloc(), &[])?;
    assert!(rt; nothing.as_str() == "refused");
    for (line, expected) in &CASES {
        let words = words_of(rt.alloc(), line)?;
        let read = answer(rt.alloc(), words.as_slice())?;
        assert!(rt; read.as_str() == *expected);
    }
    Ok(())
}

static NAMES: [&str; 7] = [
    "check", "prepare", "plan", "refute", "scripts", "replay", "sample",
];

/// What is said of the words of a line that are refused.
fn refusal(alloc: Global, line: &str) -> Result<String, Fail> {
    let words = words_of(alloc, line)?;
    match read_command(alloc, words.as_slice()) {
        Err(WordsRefused::Words(text)) => Ok(text),
        Err(WordsRefused::OutOfMemory) => Err(Fail::from("out of memory")),
        _ => Err(Fail::from("not refused")),
    }
}

#[test]
fn refusals_tell_usage_and_version(rt: HostRuntime) -> Result<(), Fail> {
    let version = format!(in rt.alloc(); "migrate {VERSION}\n")?;
    for (line, part) in [
        ("--version", version.as_str()),
        ("plan", "Usage: migrate plan [--budget N] CONFIG...\n"),
        ("sample", "Usage: migrate sample N\n"),
        (
            "replay --help",
            "Usage: migrate replay ORDER JOURNAL CONFIG...\n",
        ),
    ] {
        let text = refusal(rt.alloc(), line)?;
        assert!(rt; text.as_str().contains(part));
    }
    Ok(())
}

#[test]
fn help_tells_the_commands(rt: HostRuntime) -> Result<(), Fail> {
    let text = refusal(rt.alloc(), "--help")?;
    for name in &NAMES {
        assert!(rt; text.as_str().contains(name));
    }
    Ok(())
}
