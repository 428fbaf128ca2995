ghost use Rattle.std.specs.Prelude.{IfOk};
ghost use Rattle.migrate_cli.specs.Reading.{named_text};
ghost use Rattle.migrate_cli.specs.steps.Answering.{IsSettledOrRefused, RefusesDesignSo};

use crate::OutOfMemory;
use crate::files::name_bytes;
use design_file::{DesignRefusal, Settled, read_design, settle};
use migration_report::Decision;
use net_addr::Bytes;
use net_model::Net;
use std::alloc::{AllocError, Global};

/// What the text of a design settles for the routers of a network, or what is decided where it is refused.
pub(crate) fn settle_text(
    alloc: Global,
    file: &str,
    design: &Bytes,
    net: &Net,
) -> Result<Result<Settled, Decision>, OutOfMemory>
    ensures { IfOk result (IsSettledOrRefused (named_text file.now design.now) net.now) }
{
    let design = match read_design(alloc, design.as_slice()) {
        Ok(design) => design,
        Err(refusal) => return refuse_design(alloc, file, refusal),
    };
    match settle(alloc, &design, net) {
        Ok(settled) => Ok(Ok(settled)),
        Err(refusal) => refuse_design(alloc, file, refusal),
    }
}

/// What is decided where a design is refused.
fn refuse_design(
    alloc: Global,
    file: &str,
    refusal: DesignRefusal,
) -> Result<Result<Settled, Decision>, OutOfMemory>
    ensures { IfOk result (RefusesDesignSo file.now refusal) }
{
    match refusal {
        DesignRefusal::Bad { kind, path } => {
            let file = name_bytes(alloc, file)?;
            Ok(Err(Decision::BadDesign { file, path, kind }))
        }
        DesignRefusal::OutOfMemory => Err(AllocError),
    }
}
