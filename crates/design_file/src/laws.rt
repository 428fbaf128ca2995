ghost use Rattle.design_file.specs.Laws.{DesignOrRefusalLaw, OneDesignLaw, OneDesignRefusalLaw, OneSettledLaw, OneTextRefusalLaw, SettledInterfacesLaw, SettledOrRefusalLaw};

/// The laws of designs: a text and a network have one answer at most, the settled design or one refusal, besides want of
/// memory; and something is settled for exactly those interfaces that have an address, and an OSPF area or a name in the
/// design.
pub fn design_laws()
    ensures one_design { OneDesignLaw }
    ensures one_text_refusal { OneTextRefusalLaw }
    ensures design_or_refusal { DesignOrRefusalLaw }
    ensures one_settled { OneSettledLaw }
    ensures one_design_refusal { OneDesignRefusalLaw }
    ensures settled_or_refusal { SettledOrRefusalLaw }
    ensures settled_interfaces { SettledInterfacesLaw }
{}
