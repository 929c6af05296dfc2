//! The laws over the definitions alone, each the contract of a function that does nothing.

ghost use Rattle.desk_lines.specs.Groups.{GroupsAreGroups};
ghost use Rattle.desk_lines.specs.Words.{WordsAreWords};

/// The words of each paragraph are what the definition of paragraphs and words says, and no others are.
pub fn words_are_words()
    ensures { WordsAreWords }
{}

/// The groups of words are what the definition of a group says, and no others are.
pub fn groups_are_groups()
    ensures { GroupsAreGroups }
{}
