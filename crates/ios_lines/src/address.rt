ghost use Rattle.std.specs.Prelude.{◌≡◌, ◌≤◌};
ghost use Rattle.ios_lines.specs.OspfLines.{prefix_of};

use crate::ospf_line::prefix_of;
use net_addr::Prefix;
use std::marker::Model;

/// The address of an interface, and how many first bits of its mask are ones, at most 32.
#[derive(Clone, Copy, Debug)]
pub struct InterfaceAddress {
    address: u32,
    len: u8,
}

impl Model for InterfaceAddress {
    ghost use Rattle.std.specs.Prelude.{◌≤◌};
    ghost use Rattle.ios_lines.specs.MaskedAddress.{MaskedAddress};

    ghost Value = { MaskedAddress };

    ghost view = { λ a. record { address = a.address; len = a.len } };

    ghost invariant = { λ a. a.len ≤ 32 };

    ghost inverse = { λ a. record { address = a.address; len = a.len } };
}

impl InterfaceAddress {
    /// An address with a mask of so many ones.
    pub fn new(address: u32, len: u8) -> InterfaceAddress
        requires { len ≤ 32 }
        ensures { result ≡ record { address = address; len = len } }
    {
        InterfaceAddress { address, len }
    }

    /// The address.
    pub fn address(self) -> u32
        ensures { result ≡ self.address }
    {
        self.address
    }

    /// How many first bits of the mask are ones.
    pub fn len(self) -> u8
        ensures { result ≡ self.len }
    {
        self.len
    }

    /// The prefix of the address and its mask.
    pub fn subnet(self) -> Prefix
        ensures { result ≡ prefix_of self.address self.len }
    {
        prefix_of(self.address, self.len)
    }
}
