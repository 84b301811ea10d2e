//! What holds of derivation texts, whatever the code does.
ghost use Rattle.e_judgement.specs.Laws.{EachTextIsJudged, TextsHaveOneJudgement};

/// No text is judged in two ways.
pub fn texts_have_one_judgement()
    ensures { TextsHaveOneJudgement }
{}

/// Each text is judged in some way.
pub fn each_text_is_judged()
    ensures { EachTextIsJudged }
{}
