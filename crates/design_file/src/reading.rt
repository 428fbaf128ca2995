ghost use Rattle.std.specs.Prelude.{◌≡◌, [], IfErr, IfOk};
ghost use Rattle.toml.specs.View.{table_view};
ghost use Rattle.design_file.specs.Answers.{RefusesText, SaysDesign};
ghost use Rattle.design_file.specs.Designs.{AreInOrder, IsDesign, IsSoundDesign};
ghost use Rattle.design_file.specs.steps.FaultLists.{document_faults};
ghost use Rattle.design_file.specs.steps.Parsing.{IsParsed, IsNotToml};

use crate::document::{area_at, levels_at, metric_at, routers_at};
use crate::fault::least;
use crate::table_faults::document_faults;
use crate::{Design, DesignKind, DesignRefusal};
use ios_lines::DEFAULT_METRIC;
use net_addr::Name;
use net_model::Levels;
use std::alloc::{AllocError, Global};
use toml::Table;

/// The design that a text says.
///
/// A text that is none is refused with the lowest kind of what is wrong in it, and the least path of this kind.
pub fn read_design(alloc: Global, text: &[u8]) -> Result<Design, DesignRefusal>
    ensures ok { IfOk result (SaysDesign text.now) }
    ensures sound { IfOk result IsSoundDesign }
    ensures in_order { IfOk result (λ design. AreInOrder design.routers) }
    ensures err { IfErr result (RefusesText text.now) }
{
    let document = parsed(alloc, text)?;
    match least(document_faults(alloc, &document)?) {
        Some(fault) => Err(DesignRefusal::Bad {
            kind: fault.kind,
            path: fault.path,
        }),
        None => Ok(said(alloc, &document)?),
    }
}

/// The document that a text is.
fn parsed(alloc: Global, text: &[u8]) -> Result<Table, DesignRefusal>
    ensures { IsParsed text.now result }
{
    let Ok(text) = std::str::from_utf8(text) else {
        return Err(not_toml(alloc));
    };
    match toml::table_from_str(alloc, text) {
        Ok(document) => Ok(document),
        Err(error) if error.is_memory() => Err(DesignRefusal::OutOfMemory),
        Err(_) => Err(not_toml(alloc)),
    }
}

/// The refusal of a text that isn't TOML.
fn not_toml(alloc: Global) -> DesignRefusal
    ensures { IsNotToml result }
{
    match Vec::from_slice(alloc, b"-".as_slice()) {
        Ok(path) => DesignRefusal::Bad {
            kind: DesignKind::NotToml,
            path: Name::from_vec(path),
        },
        Err(_) => DesignRefusal::OutOfMemory,
    }
}

/// The design that a document is in which nothing is wrong.
fn said(alloc: Global, document: &Table) -> Result<Design, AllocError>
    requires { document_faults (table_view document.now) ≡ [] }
    ensures said { IfOk result (IsDesign (table_view document.now)) }
    ensures in_order { IfOk result (λ design. AreInOrder design.routers) }
{
    let Some(area) = area_at(alloc, document)? else {
        unreachable!();
    };
    Ok(Design {
        area,
        levels: levels_at(document).unwrap_or(Levels::Two),
        metric: metric_at(document).unwrap_or(DEFAULT_METRIC),
        routers: routers_at(alloc, document)?,
    })
}
