ghost use Rattle.std.specs.Prelude.{◌≡◌};
ghost use Rattle.migration_report.specs.Kinds.{order_kind_name, wrong_kind_name};

use refutation_check::WrongKind;
use step_scripts::OrderKind;

/// The name of a kind of faulty line of an order.
pub(crate) fn order_kind_name(kind: OrderKind) -> &'static [u8]
    ensures { result.now ≡ order_kind_name kind }
{
    match kind {
        OrderKind::Header => b"Header",
        OrderKind::NotInNetwork => b"NotInNetwork",
        OrderKind::Twice => b"Twice",
        OrderKind::Missing => b"Missing",
        OrderKind::Wave => b"Wave",
        OrderKind::Chain => b"Chain",
    }
}

/// The name of a kind of wrong line of a tree file.
pub(crate) fn wrong_kind_name(kind: WrongKind) -> &'static [u8]
    ensures { result.now ≡ wrong_kind_name kind }
{
    match kind {
        WrongKind::Form => b"Form",
        WrongKind::Router => b"Router",
        WrongKind::Address => b"Address",
        WrongKind::Originator => b"Originator",
        WrongKind::Step => b"Step",
        WrongKind::OneSided => b"OneSided",
        WrongKind::NotAssumed => b"NotAssumed",
    }
}
