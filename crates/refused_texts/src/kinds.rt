ghost use Rattle.std.specs.Prelude.{◌≡◌};
ghost use Rattle.refused_texts.specs.Kinds.{limit_name, read_kind_name};

use ios_lines::ReadKind;
use net_model::LimitWhat;

/// The name of a kind of faulty line of a configuration.
pub fn read_kind_name(kind: ReadKind) -> &'static [u8]
    ensures { result.now ≡ read_kind_name kind }
{
    match kind {
        ReadKind::NoHostname => b"NoHostname",
        ReadKind::NoEnd => b"NoEnd",
        ReadKind::BadAddress => b"BadAddress",
        ReadKind::BadMask => b"BadMask",
        ReadKind::BadCost => b"BadCost",
        ReadKind::BadArea => b"BadArea",
        ReadKind::SecondProcess => b"SecondProcess",
        ReadKind::Unsupported => b"Unsupported",
        ReadKind::LoopbackMask => b"LoopbackMask",
        ReadKind::BadNet => b"BadNet",
        ReadKind::BadLevel => b"BadLevel",
        ReadKind::BadMetric => b"BadMetric",
        ReadKind::BadDistance => b"BadDistance",
        ReadKind::DistanceClash => b"DistanceClash",
        ReadKind::NoBandwidth => b"NoBandwidth",
    }
}

/// What a network has too many of.
pub(crate) fn limit_name(what: LimitWhat) -> &'static [u8]
    ensures { result.now ≡ limit_name what }
{
    match what {
        LimitWhat::Routers => b"routers",
        LimitWhat::Interfaces => b"interfaces",
        LimitWhat::Dests => b"prefixes",
    }
}
