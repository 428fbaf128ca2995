ghost use Rattle.std.specs.Prelude.{◌≡◌, IfSome, None, Some, length, option_map};
ghost use Rattle.migrate_cli.specs.steps.Tables.{network_move};

use net_model::Net;
use ospf_pair::PairNet;
use std::marker::Model;

/// What is migrated: a network from OSPF to IS-IS, or to its redesign by a second OSPF process.
#[derive(Drop)]
pub(crate) struct Move<'a> {
    net: &'a Net,
    redesign: Option<&'a Net>,
}

impl<'a> Model for Move<'a> {
    ghost use Rattle.std.specs.Prelude.{option_map};
    ghost use Rattle.migrate_cli.specs.steps.Tables.{HasAsMany, NetworkMove, network_move};

    ghost Value = { NetworkMove };

    ghost view = { λ x. network_move x.net.now (option_map (λ new. new.now) x.redesign) };

    ghost invariant = { λ x. HasAsMany (network_move x.net.now (option_map (λ new. new.now) x.redesign)) };
}

impl<'a> Move<'a> {
    /// From OSPF to IS-IS.
    pub fn to_isis(net: &'a Net) -> Move<'a>
        ensures { result ≡ network_move net.now None }
    {
        Move {
            net,
            redesign: None,
        }
    }

    /// From the OSPF of the old network of a pair to that of the new one.
    pub fn to_ospf(pair: &'a PairNet) -> Move<'a>
        ensures { result ≡ network_move pair.now.old (Some pair.now.new) }
    {
        Move {
            net: pair.old(),
            redesign: Some(pair.new_net()),
        }
    }

    /// Its redesign, where a second OSPF process takes over.
    pub fn redesign(&self) -> Option<&'a Net>
        ensures value { option_map (λ new. new.now) result ≡ self.now.redesign }
        ensures routers { IfSome result (λ new. length new.now ≡ length self.now.net) }
    {
        self.redesign
    }

    /// The network as it is.
    pub fn net(&self) -> &'a Net
        ensures { result.now ≡ self.now.net }
    {
        self.net
    }
}
