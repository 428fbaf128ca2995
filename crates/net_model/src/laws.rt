ghost use Rattle.net_model.specs.BuildLaws.{NetworkOrRefusalLaw, OneNetworkLaw, OneRefusalLaw};

/// The laws of `Net::build`: configurations make one network, or are refused, and in one way.
pub fn build_laws()
    ensures one_network { OneNetworkLaw }
    ensures network_or_refusal { NetworkOrRefusalLaw }
    ensures one_refusal { OneRefusalLaw }
{}
