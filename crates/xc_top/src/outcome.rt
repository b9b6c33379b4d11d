ghost use Rattle.xc_top.specs.Laws.{RequestsHaveOutcomes, OutcomesAreUnique, OutcomesHaveTexts, TextsAreUnique};

/// Words that are a request have exactly one outcome over given files, and what is written of it is one text.
pub fn requests_have_one_outcome()
    ensures at_least { RequestsHaveOutcomes }
    ensures at_most { OutcomesAreUnique }
    ensures texts { OutcomesHaveTexts }
    ensures one_text { TextsAreUnique }
{}
