//! What holds of the texts of copies, whoever writes or reads them.

ghost use Rattle.text_copy.specs.Laws.{CopyIsPlain, PlainIsReadAgain, ReadIsGrammar, TextIsPlain, TextIsReadAgain};

/// What is written for a lawful copy is read again as that copy.
pub fn text_is_read_again()
    ensures { TextIsReadAgain }
{}

/// The characters of a lawful Roman copy, read as plain text, are that copy.
pub fn plain_is_read_again()
    ensures { PlainIsReadAgain }
{}

/// The characters that are read as a copy are those that its grammar allows: ends of lines and spaces, characters and
/// escaped marks in a style, and marks that open and close one.
pub fn reading_goes_by_grammar()
    ensures { ReadIsGrammar }
{}

/// A text that is written out has neither a control character nor a directional mark, and one that has none is itself.
/// So it is with a lawful copy as it is shown.
pub fn what_is_shown_is_plain()
    ensures text { TextIsPlain }
    ensures copy { CopyIsPlain }
{}
