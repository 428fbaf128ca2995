use net_addr::Prefix;
use net_model::NetRefusal;
use plan_theory::EndFault;

/// What a list of routers comes to in the network with a link down.
#[derive(Debug, Drop)]
pub enum LinkVerdict {
    /// Both ends are sound there, and the list is seamless.
    Withstood,
    /// Both ends are sound there, and the order has a state that isn't.
    Breaks {
        /// The number of the first such state.
        state: u32,
        /// What is wrong in it.
        fault: EndFault,
    },
    /// Both ends are sound there, and a wave has a state that isn't.
    BreaksWave {
        /// The number of the first such wave, from 1.
        wave: u32,
        /// What is wrong in it.
        fault: EndFault,
    },
    /// The network isn't sound there while every router is in its old phase.
    UnsoundOld {
        /// What is wrong there.
        fault: EndFault,
    },
    /// It is sound there, and not while every router is in its new phase.
    UnsoundNew {
        /// What is wrong there.
        fault: EndFault,
    },
    /// The configurations make no network there.
    Refused {
        /// Why.
        refusal: NetRefusal,
    },
}

/// A link of a network, and what the list comes to without it.
#[derive(Debug, Drop)]
pub struct FailedLink {
    /// The subnet of the link.
    pub link: Prefix,
    /// What the list comes to.
    pub verdict: LinkVerdict,
}
