ghost use Rattle.std.specs.Prelude.{◌≡◌, ◌≤◌, ◌++◌, All, IfOk, OnOk, length};
ghost use Rattle.net_addr.specs.JoinedLines.{is_of_whole_lines};
ghost use Rattle.isis_writer.specs.PreparedConfigurations.{prepared_texts, with_last_feed};
ghost use Rattle.migrate_cli.specs.PrepareDecision.{IsPrepareDecision, configured};
ghost use Rattle.migrate_cli.specs.Reading.{named_text};

use crate::OutOfMemory;
use crate::files::FILE_MOST;
use crate::settling::settle_text;
use design_file::Settled;
use isis_writer::prepared_text;
use migration_report::Decision;
use net_addr::Bytes;
use net_model::Net;
use std::alloc::Global;

/// What is decided of the text of a design, the texts of configurations and the network that they make: the texts with the
/// IS-IS lines of the design.
pub(crate) fn judge_prepare(
    alloc: Global,
    file: &str,
    design: &Bytes,
    configs: &[Bytes],
    net: &Net,
) -> Result<Decision, OutOfMemory>
    requires { All (λ text. length text ≤ FILE_MOST) configs.now }
    ensures { IfOk result (IsPrepareDecision (named_text file.now design.now) (configured configs.now net.now)) }
{
    match settle_text(alloc, file, design, net)? {
        Ok(settled) => {
            let text = prepared_texts(alloc, configs, net, &settled)?;
            Ok(Decision::Prepared { text })
        }
        Err(refused) => Ok(refused),
    }
}

/// The prepared texts of some texts, one after the other.
fn prepared_texts(
    alloc: Global,
    texts: &[Bytes],
    net: &Net,
    settled: &Settled,
) -> Result<Bytes, OutOfMemory>
    requires { All (λ text. length text ≤ FILE_MOST) texts.now }
    ensures { IfOk result (λ all. all ≡ prepared_texts net.now settled.now texts.now) }
{
    let mut all = Vec::new(alloc);
    for text in texts {
        let prepared = prepared_text(alloc, text.as_slice(), net, settled)?;
        add_with_last_feed(&mut all, prepared.as_slice())?;
    }
    Ok(Bytes::from_vec(all))
}

/// Adds a text, and a line feed where it doesn't end with one.
fn add_with_last_feed(all: &mut Vec<u8>, text: &[u8]) -> Result<(), OutOfMemory>
    ensures { OnOk result (all.new.items ≡ all.old.items ++ with_last_feed text.now) }
{
    all.extend_from_slice(text)?;
    if !is_of_whole_lines(text) {
        all.push(b'\n')?;
    }
    Ok(())
}

/// Whether each line of a text is ended by a line feed.
fn is_of_whole_lines(text: &[u8]) -> bool
    ensures { result ≡ is_of_whole_lines text.now }
{
    match text.last() {
        Some(byte) => *byte == b'\n',
        None => true,
    }
}
