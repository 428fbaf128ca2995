ghost use Rattle.survey_report.specs.SurveyTexts.{OneSurveyLaw};

/// Files have one survey: one text, in which something stands out or not.
pub fn one_survey_law()
    ensures { OneSurveyLaw }
{}
