ghost use Rattle.step_scripts.specs.WavesTexts.{WaveListsReadBack, WavesReadBack};
ghost use Rattle.step_scripts.specs.WaveFileLaws.{OneOrderRefusalLaw, OneWaveListLaw, WavesOrRefusalLaw};

/// The laws of order files: a text names one wave list at most, or is refused, and in one way; those of `waves_text` and
/// `wave_list_text` name their waves.
pub fn waves_laws()
    ensures one_wave_list { OneWaveListLaw }
    ensures waves_or_refusal { WavesOrRefusalLaw }
    ensures one_refusal { OneOrderRefusalLaw }
    ensures read_back { WavesReadBack }
    ensures lists_read_back { WaveListsReadBack }
{}
