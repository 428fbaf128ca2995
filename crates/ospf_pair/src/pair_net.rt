ghost use Rattle.std.specs.Prelude.{◌≡◌, IfErr, IfOk, OnOk};
ghost use Rattle.ospf_pair.specs.NetworkPairs.{network_pair};
ghost use Rattle.ospf_pair.specs.PairRefusals.{MakePair, RefusesPair};

use crate::PairRefusal;
use crate::conditions::{IsisRun, LiveProcess, OtherInterfaces, ProcessesClash};
use crate::least::{least_meeting, least_missing};
use net_model::Net;
use std::alloc::Global;
use std::marker::Model;

/// A network as it is, and as it is to be by a second OSPF process.
///
/// Both have the same routers with the same up interfaces, none of them runs IS-IS, and the new process of each has another
/// number than the old one and installs nothing yet (`MakePair`).
#[derive(Debug, Drop)]
pub struct PairNet {
    old: Net,
    new: Net,
}

impl Model for PairNet {
    ghost use Rattle.ospf_pair.specs.NetworkPairs.{NetworkPair, network_pair};
    ghost use Rattle.ospf_pair.specs.PairRefusals.{MakePair};

    ghost Value = { NetworkPair };

    ghost view = { λ p. network_pair p.old p.new };

    ghost invariant = { λ p. MakePair (network_pair p.old p.new) };
}

impl PairNet {
    /// The pair of two networks, or the first refusal that stands. Both networks are consumed either way.
    ///
    /// It compares the up interfaces of each router with each other.
    pub fn build(alloc: Global, old: Net, new: Net) -> Result<PairNet, PairRefusal>
        ensures networks { IfOk result (λ pair. pair ≡ network_pair old new) }
        ensures ok { IfOk result MakePair }
        ensures err { IfErr result (λ refusal. RefusesPair refusal (network_pair old new)) }
    {
        match pair_or_refusal(alloc, &old, &new) {
            Ok(()) => Ok(PairNet { old, new }),
            Err(refusal) => Err(refusal),
        }
    }

    /// The pair of two networks that make one.
    pub fn new(old: Net, new: Net) -> PairNet
        requires { MakePair (network_pair old new) }
        ensures { result ≡ network_pair old new }
    {
        PairNet { old, new }
    }

    /// The network as it is, out of the pair.
    pub fn into_old(self) -> Net
        ensures { result ≡ self.old }
    {
        self.old
    }

    /// The network as it is.
    pub fn old(&self) -> &Net
        ensures network { result.now ≡ self.now.old }
        ensures pair { MakePair self.now }
    {
        &self.old
    }

    /// The network as it is to be.
    pub fn new_net(&self) -> &Net
        ensures network { result.now ≡ self.now.new }
        ensures pair { MakePair self.now }
    {
        &self.new
    }
}

/// That two networks make a pair, or the first refusal that stands.
///
/// It compares the up interfaces of each router with each other.
pub fn pair_or_refusal(alloc: Global, old: &Net, new: &Net) -> Result<(), PairRefusal>
    ensures ok { OnOk result (MakePair (network_pair old.now new.now)) }
    ensures err { IfErr result (λ refusal. RefusesPair refusal (network_pair old.now new.now)) }
{
    if let Some(name) = least_missing(alloc, old, new)? {
        return Err(PairRefusal::RouterMissing { name });
    }
    if let Some(name) = least_meeting::<OtherInterfaces>(alloc, old, new)? {
        return Err(PairRefusal::InterfacesDiffer { name });
    }
    if let Some(name) = least_meeting::<IsisRun>(alloc, old, new)? {
        return Err(PairRefusal::HasIsis { name });
    }
    if let Some(name) = least_meeting::<ProcessesClash>(alloc, old, new)? {
        return Err(PairRefusal::ProcessClash { name });
    }
    if let Some(name) = least_meeting::<LiveProcess>(alloc, old, new)? {
        return Err(PairRefusal::NotIdle { name });
    }
    Ok(())
}
