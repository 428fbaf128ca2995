ghost use Rattle.change_orders.specs.TwoLaws.{OneTwoListLaw, OneTwoRefusalLaw, TwoListOrRefusalLaw, TwoTextsReadBack};

/// The laws of order files of single changes: a text names one wave list at most, or is refused, and in one way; that of `two_text`
/// names its waves.
pub fn two_laws()
    ensures one_list { OneTwoListLaw }
    ensures list_or_refusal { TwoListOrRefusalLaw }
    ensures one_refusal { OneTwoRefusalLaw }
    ensures read_back { TwoTextsReadBack }
{}
