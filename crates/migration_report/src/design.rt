ghost use Rattle.std.specs.Prelude.{◌≡◌, IfOk};
ghost use Rattle.migration_report.specs.DesignTexts.{design_kind_name, refused_design_text};

use design_file::DesignKind;
use net_addr::Bytes;
use printed_lines::LineBuilder;
use std::alloc::{AllocError, Global};

/// The line that a design is refused: its file, the path of keys to what is wrong, and the kind. The only error is want
/// of memory.
pub(crate) fn refused_design_text(
    alloc: Global,
    file: &[u8],
    path: &[u8],
    kind: DesignKind,
) -> Result<Bytes, AllocError>
    ensures { IfOk result (λ text. text ≡ refused_design_text file.now path.now kind) }
{
    let line = LineBuilder::start(alloc, b"refused")?.word(file)?;
    line.word(path)?.word(design_kind_name(kind))?.finish()
}

/// The name of a kind of fault of a design.
fn design_kind_name(kind: DesignKind) -> &'static [u8]
    ensures { result.now ≡ design_kind_name kind }
{
    match kind {
        DesignKind::NotToml => b"NotToml",
        DesignKind::UnknownKey => b"UnknownKey",
        DesignKind::WrongKind => b"WrongKind",
        DesignKind::BadArea => b"BadArea",
        DesignKind::BadLevel => b"BadLevel",
        DesignKind::BadMetric => b"BadMetric",
        DesignKind::UnknownRouter => b"UnknownRouter",
        DesignKind::UnknownInterface => b"UnknownInterface",
        DesignKind::AlreadyIsis => b"AlreadyIsis",
    }
}
