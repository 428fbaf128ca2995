ghost use Rattle.std.specs.Prelude.{IfOk, IsTrue};
ghost use Rattle.design_file.specs.Values.{is_area};
ghost use Rattle.design_writer.specs.CostDesigns.{HaveTextNames};
ghost use Rattle.migrate_cli.specs.DesignDecision.{IsDesignDecision};

use crate::OutOfMemory;
use design_writer::design_text;
use migrate_words::Scheme;
use migration_report::Decision;
use net_model::Net;
use std::alloc::Global;

/// What is decided of a network: the text of its design by costs, of an area and some levels.
pub(crate) fn judge_design(
    alloc: Global,
    scheme: &Scheme<'_>,
    net: &Net,
) -> Result<Decision, OutOfMemory>
    requires area { IsTrue (is_area scheme.now.area) }
    requires names { HaveTextNames net.now }
    ensures { IfOk result (IsDesignDecision scheme.now net.now) }
{
    let text = design_text(alloc, net, scheme.area(), scheme.levels())?;
    Ok(Decision::Designed { text })
}
