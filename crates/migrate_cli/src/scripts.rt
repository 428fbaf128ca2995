ghost use Rattle.std.specs.Prelude.{◌<◌, ◌≤◌, IfOk, length};
ghost use Rattle.migrate_cli.specs.ScriptsDecision.{IsScriptsDecision};
ghost use Rattle.migrate_cli.specs.Reading.{named_text};

use crate::OutOfMemory;
use crate::files::{FILE_MOST, bad_order};
use migration_report::Decision;
use net_addr::Bytes;
use net_model::Net;
use std::alloc::{AllocError, Global};
use step_scripts::{OrderRefusal, read_waves};

/// What is decided of the text of an order file and a network with a router: which waves' script is asked for.
pub(crate) fn judge_scripts(
    alloc: Global,
    file: &str,
    order: &Bytes,
    net: &Net,
) -> Result<Decision, OutOfMemory>
    requires short { length order.now ≤ FILE_MOST }
    requires some { 0 < length net.now }
    ensures { IfOk result (IsScriptsDecision (named_text file.now order.now) net.now) }
{
    match read_waves(alloc, net, order.as_slice()) {
        Ok(read) => Ok(Decision::Script {
            version: read.version,
            waves: read.waves,
        }),
        Err(OrderRefusal::OutOfMemory) => Err(AllocError),
        Err(OrderRefusal::Bad { line, kind }) => bad_order(alloc, file, line, kind),
    }
}
