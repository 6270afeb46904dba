ghost use Rattle.qf_inputs.specs.Laws.{EachHasAStory, EachHasAQuestion, StoriesAreOne, InputsAreOne, QuestionsAreOne};

/// A table and a log say one story, or have one first refusal. Like the other laws it holds of the definitions, and the call
/// does nothing.
pub fn stories_are_one()
    ensures { StoriesAreOne }
{}

/// .. and there is one for each table and each log.
pub fn each_has_a_story()
    ensures { EachHasAStory }
{}

/// A table, its log, complaints and domains say one thing together, or have one first refusal.
pub fn inputs_are_one()
    ensures { InputsAreOne }
{}

/// .. and put one question, or have one first refusal.
pub fn questions_are_one()
    ensures { QuestionsAreOne }
{}

/// .. and any four files put a question or have a first refusal.
pub fn each_has_a_question()
    ensures { EachHasAQuestion }
{}
