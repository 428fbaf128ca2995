ghost use Rattle.std.specs.Prelude.{◌≡◌, [], ◌∷◌, ◌++◌, if◌then◌else◌, IfOk, OnOk};
ghost use Rattle.network_survey.specs.steps.PortLists.{Selects};

use crate::OutOfMemory;
use crate::port::Port;
use std::alloc::Global;

/// What may stand out at an up interface.
pub(crate) trait Oddness {
    ghost use Rattle.std.specs.Prelude.{◌↔◌, List, IsTrue};
    ghost use Rattle.network_survey.specs.Ports.{Port};

    /// Whether it does so at this port, beside all ports.
    ghost odd: { Self → List Port → Port → Type 0 };

    /// Whether it does so at this port, beside all ports.
    fn is_odd(&self, ports: &[Port<'_>], port: &Port<'_>) -> bool
        ensures { IsTrue result ↔ odd self.now ports.now port.now };
}

/// Those of the ports at which it stands out, in their order.
pub(crate) fn odd_ports<'a, O: Oddness>(
    alloc: Global,
    oddness: &O,
    ports: &[Port<'a>],
) -> Result<Vec<Port<'a>>, OutOfMemory>
    ensures { IfOk result (λ found. Selects (O.odd oddness.now ports.now) ports.now found.items) }
{
    let mut found = Vec::new(alloc);
    for port in ports {
        push_if(&mut found, port, oddness.is_odd(ports, port))?;
    }
    Ok(found)
}

/// Adds the port, if it is odd.
fn push_if<'a>(found: &mut Vec<Port<'a>>, port: &Port<'a>, odd: bool) -> Result<(), OutOfMemory>
    ensures { OnOk result (found.new.items ≡ found.old.items ++ (if odd then port.now ∷ [] else [])) }
{
    if odd {
        found.push(port.again())?;
    }
    Ok(())
}
