ghost use Rattle.ospf_pair.specs.PairLaws.{OneNetworkOfPairLaw, OnePairRefusalLaw, PairOrRefusalLaw};

/// The laws of pairs: two networks make a pair or are refused, and in one way; the routers of a pair and what is connected at
/// them are the same in both networks.
pub fn pair_laws()
    ensures pair_or_refusal { PairOrRefusalLaw }
    ensures one_refusal { OnePairRefusalLaw }
    ensures one_network { OneNetworkOfPairLaw }
{}
