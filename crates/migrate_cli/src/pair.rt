ghost use Rattle.std.specs.Prelude.{◌<◌, ◌≤◌, IfOk, length};
ghost use Rattle.ospf_pair.specs.PairRefusals.{MakePair};
ghost use Rattle.migrate_cli.specs.PairDecision.{IsScriptOfPair};
ghost use Rattle.migrate_cli.specs.Reading.{named_text};

use crate::OutOfMemory;
use crate::files::{FILE_MOST, bad_order};
use migration_report::Decision;
use net_addr::Bytes;
use ospf_pair::{PairNet, pair_scripts};
use std::alloc::{AllocError, Global};
use step_scripts::{OrderRefusal, read_waves};

/// What is decided of the text of an order file and a pair of networks with a router: the script of its waves.
pub(crate) fn judge_pair_scripts(
    alloc: Global,
    file: &str,
    order: &Bytes,
    pair: &PairNet,
) -> Result<Decision, OutOfMemory>
    requires short { length order.now ≤ FILE_MOST }
    requires some { 0 < length pair.now.old }
    ensures { IfOk result (IsScriptOfPair pair.now (named_text file.now order.now)) }
{
    match read_waves(alloc, pair.old(), order.as_slice()) {
        Ok(read) => {
            let text = pair_scripts(alloc, pair, &read)?;
            Ok(Decision::PairScript { text })
        }
        Err(OrderRefusal::OutOfMemory) => Err(AllocError),
        Err(OrderRefusal::Bad { line, kind }) => bad_order(alloc, file, line, kind),
    }
}
