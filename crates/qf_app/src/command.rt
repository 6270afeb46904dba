ghost use Rattle.std.specs.Prelude.{◌≡◌, [], ◌∷◌, IfOk, MatchOption, Some, None};
ghost use Rattle.qf_app.specs.Request.{is_one_of, most_budget, number_up_to, story_request, question_of, diagnosis_of, request_of, question_words, input_words};
ghost use Rattle.qf_app.specs.Meaning.{story_named, question_named, meaning_of};
ghost use Rattle.qf_shell.specs.Inputs.{words_of};

use qf_base::{List, NoMemory, Text};
use qf_csv::count;
use qf_shell::Input;
use std::alloc::Global;

const MOST_BUDGET: u32 = 1_000_000;

const MOST_INITIAL: u64 = 1 << 26;

const MOST_OTHER: u64 = 1 << 22;

const MOST_CERTIFICATE: u64 = 1 << 30;

/// The names of the files with the table and with its log.
#[derive(Clone, Copy)]
pub(crate) struct StoryNames<'a> {
    pub(crate) initial: &'a str,
    pub(crate) log: &'a str,
}

/// The names of the files of a question: the table, its log, the complaints and the domains.
#[derive(Clone, Copy)]
pub(crate) struct QuestionNames<'a> {
    pub(crate) story: StoryNames<'a>,
    pub(crate) complaints: &'a str,
    pub(crate) domains: &'a str,
}

/// The names of the files that `diagnose` reads, the most nodes that a search may have, and the name under which the
/// certificate is put, which no input has.
#[derive(Clone, Copy)]
pub(crate) struct Diagnose<'a> {
    pub(crate) question: QuestionNames<'a>,
    pub(crate) budget: u32,
    pub(crate) certificate: &'a str,
}

/// The names of the files that `check` reads, the certificate's among them.
#[derive(Clone, Copy)]
pub(crate) struct Check<'a> {
    pub(crate) question: QuestionNames<'a>,
    pub(crate) certificate: &'a str,
}

/// What the words behind the program's name ask for.
#[derive(Clone, Copy)]
pub(crate) enum Command<'a> {
    Diagnose(Diagnose<'a>),
    Check(Check<'a>),
    Replay(StoryNames<'a>),
    Params(StoryNames<'a>),
}

impl QuestionNames<'_> {
    // Whether a file has this name.
    fn has(&self, name: &str) -> bool
        ensures { result ≡ is_one_of name.now (self.now.story.initial.now ∷ self.now.story.log.now ∷ self.now.complaints.now ∷ self.now.domains.now ∷ []) }
    {
        [
            self.story.initial,
            self.story.log,
            self.complaints,
            self.domains,
        ]
        .contains(&name)
    }

    fn inputs(&self, alloc: Global) -> Result<List<Input<'_>>, NoMemory>
        ensures { IfOk result (λ inputs. words_of inputs ≡ question_words (question_named self.now)) }
    {
        List::from_slice(
            alloc,
            &[
                Input {
                    number: 1,
                    name: self.story.initial,
                    most: MOST_INITIAL,
                },
                Input {
                    number: 2,
                    name: self.story.log,
                    most: MOST_OTHER,
                },
                Input {
                    number: 3,
                    name: self.complaints,
                    most: MOST_OTHER,
                },
                Input {
                    number: 4,
                    name: self.domains,
                    most: MOST_OTHER,
                },
            ],
        )
    }
}

impl Command<'_> {
    /// The files that the command reads, in this order, with their limits.
    pub(crate) fn inputs(&self, alloc: Global) -> Result<List<Input<'_>>, NoMemory>
        ensures { IfOk result (λ inputs. words_of inputs ≡ input_words (meaning_of self.now)) }
    {
        match self {
            Command::Diagnose(d) => d.question.inputs(alloc),
            Command::Check(c) => {
                let mut inputs = c.question.inputs(alloc)?;
                inputs.push(Input {
                    number: 5,
                    name: c.certificate,
                    most: MOST_CERTIFICATE,
                })?;
                Ok(inputs)
            }
            Command::Replay(story) | Command::Params(story) => List::from_slice(
                alloc,
                &[
                    Input {
                        number: 1,
                        name: story.initial,
                        most: MOST_INITIAL,
                    },
                    Input {
                        number: 2,
                        name: story.log,
                        most: MOST_OTHER,
                    },
                ],
            ),
        }
    }
}

// The number of nodes that the word gives.
fn budget_of(word: &str) -> Option<u32>
    ensures { result ≡ number_up_to most_budget word.now }
{
    count(word.as_bytes()).filter(|budget| *budget <= MOST_BUDGET)
}

fn story_command<'a>(word: &str, names: StoryNames<'a>) -> Option<Command<'a>>
    ensures { MatchOption result (story_request word.now (story_named names.entry) ≡ None) (λ command. story_request word.now (story_named names.entry) ≡ Some (meaning_of command)) }
{
    match word {
        "replay" => Some(Command::Replay(names)),
        "params" => Some(Command::Params(names)),
        _ => None,
    }
}

// The command `diagnose`, if no input has the certificate's name.
fn diagnose_command<'a>(
    question: QuestionNames<'a>,
    budget: &str,
    certificate: &'a str,
) -> Option<Command<'a>>
    ensures { MatchOption result
        (diagnosis_of (question_named question.entry) certificate.now (number_up_to most_budget budget.now) ≡ None)
        (λ command. diagnosis_of (question_named question.entry) certificate.now (number_up_to most_budget budget.now) ≡ Some (meaning_of command)) }
{
    let command = Diagnose {
        question,
        budget: budget_of(budget)?,
        certificate,
    };
    if question.has(certificate) {
        return None;
    }
    Some(Command::Diagnose(command))
}

// The names of four files, in the order of the words.
fn question_names<'a>(
    initial: &'a Text,
    log: &'a Text,
    complaints: &'a Text,
    domains: &'a Text,
) -> QuestionNames<'a>
    ensures { question_named result ≡ question_of initial.now log.now complaints.now domains.now }
{
    QuestionNames {
        story: StoryNames {
            initial: initial.as_str(),
            log: log.as_str(),
        },
        complaints: complaints.as_str(),
        domains: domains.as_str(),
    }
}

/// The command that the words behind the program's name give, if they have a form.
pub(crate) fn command_of(words: &List<Text>) -> Option<Command<'_>>
    ensures { MatchOption result (request_of words.now ≡ None) (λ command. request_of words.now ≡ Some (meaning_of command)) }
{
    match words.as_slice() {
        [word, initial, log] => story_command(
            word.as_str(),
            StoryNames {
                initial: initial.as_str(),
                log: log.as_str(),
            },
        ),
        [word, initial, log, complaints, domains, budget, certificate]
            if word.as_str() == "diagnose" => {
            diagnose_command(
                question_names(initial, log, complaints, domains),
                budget.as_str(),
                certificate.as_str(),
            )
        }
        [word, initial, log, complaints, domains, certificate] if word.as_str() == "check" => {
            Some(Command::Check(Check {
                question: question_names(initial, log, complaints, domains),
                certificate: certificate.as_str(),
            }))
        }
        _ => None,
    }
}
