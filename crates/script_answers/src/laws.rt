//! What holds of the script's texts, whoever writes or reads them.

ghost use Rattle.script_answers.specs.Laws.{CopyIsReadAgain, CopyIsItsSpelling, RunsAreLongest};

/// What is written for a copy of one symbol or more is read again as that copy: in characters, in bytes, and in the
/// line of an insert.
pub fn copy_is_read_again()
    ensures { CopyIsReadAgain }
{}

/// The characters that are read as a copy are those that spell it: runs separated by one space, each the letter of a
/// style and one or more characters in quotes, with three escapes.
pub fn copy_is_its_spelling()
    ensures { CopyIsItsSpelling }
{}

/// What is written for a copy of one symbol or more are its runs, each the longest of its style.
pub fn runs_are_longest()
    ensures { RunsAreLongest }
{}
