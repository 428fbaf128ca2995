ghost use Rattle.std.specs.Prelude.{◌≡◌, ◌≤◌, All, IfOk, length};
ghost use Rattle.migrate_cli.specs.DeltaDecision.{IsDeltaDecision, delta_texts};
ghost use Rattle.migrate_cli.specs.PrepareDecision.{configured};
ghost use Rattle.migrate_cli.specs.Reading.{named_text};

use crate::OutOfMemory;
use crate::files::FILE_MOST;
use crate::settling::settle_text;
use design_file::Settled;
use isis_writer::delta_text;
use migration_report::Decision;
use net_addr::Bytes;
use net_model::Net;
use std::alloc::Global;

/// What is decided of the text of a design, the texts of configurations and the network that they make: the IS-IS lines alone
/// that the design adds to them.
pub(crate) fn judge_delta(
    alloc: Global,
    file: &str,
    design: &Bytes,
    configs: &[Bytes],
    net: &Net,
) -> Result<Decision, OutOfMemory>
    requires { All (λ text. length text ≤ FILE_MOST) configs.now }
    ensures { IfOk result (IsDeltaDecision (named_text file.now design.now) (configured configs.now net.now)) }
{
    match settle_text(alloc, file, design, net)? {
        Ok(settled) => {
            let text = delta_texts(alloc, configs, net, &settled)?;
            Ok(Decision::Delta { text })
        }
        Err(refused) => Ok(refused),
    }
}

/// The new lines of some texts, one text after the other.
fn delta_texts(
    alloc: Global,
    texts: &[Bytes],
    net: &Net,
    settled: &Settled,
) -> Result<Bytes, OutOfMemory>
    requires { All (λ text. length text ≤ FILE_MOST) texts.now }
    ensures { IfOk result (λ all. all ≡ delta_texts net.now settled.now texts.now) }
{
    let mut all = Vec::new(alloc);
    for text in texts {
        let delta = delta_text(alloc, text.as_slice(), net, settled)?;
        all.extend_from_slice(delta.as_slice())?;
    }
    Ok(Bytes::from_vec(all))
}
