//! Which words ask for what. Each law is the contract of a function that does nothing.

ghost use Rattle.gr_arguments.specs.Plain.{NamesAsk, NoWordAsks, PlainWordsAsk, PlainWordsMisname, WordsAskOnce};

/// Words ask for at most one thing.
#[tactic(auto, using(crate::proofs::OneAsked::words_ask_once))]
pub fn words_ask_for_one_thing()
    ensures { WordsAskOnce }
{}

/// The name of a task's command asks for the task: with `--json` after `replay` for a report as JSON, and with `--partial` after
/// `dump` for a partial text. No word at all asks for the text of a report.
pub fn names_ask_for_tasks()
    ensures named { NamesAsk }
    ensures none { NoWordAsks }
{}

/// The words `explain SPACE WORD FILE..` ask for the word of memory that SPACE and WORD name, and for exactly these files. If SPACE
/// and WORD name no word, they are refused. No word after `explain` may begin with a hyphen or be empty. With `--long` before SPACE
/// they ask for the long form.
pub fn plain_words_ask_for_a_word()
    ensures asks { PlainWordsAsk }
    ensures misnamed { PlainWordsMisname }
{}
