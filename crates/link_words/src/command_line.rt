//! The words after the program's name.

ghost use Rattle.std.specs.Prelude.{◌↔◌, IsTrue};
ghost use Rattle.link_words.specs.CommandNames.{BeginsBy, Names};

use crate::command_name::CommandName;

/// Whether the words are this command's one word.
pub fn is_only(words: &[String], command: CommandName) -> bool
    ensures { IsTrue result ↔ Names command words.now }
{
    let [word] = words else {
        return false;
    };
    word.as_str() == command.word()
}

/// Whether the first of the words is this command's.
pub fn begins_with(words: &[String], command: CommandName) -> bool
    ensures { IsTrue result ↔ BeginsBy command words.now }
{
    let [first, ..] = words else {
        return false;
    };
    first.as_str() == command.word()
}
