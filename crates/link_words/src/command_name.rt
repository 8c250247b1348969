//! Which command the first word names.

ghost use Rattle.std.specs.Prelude.{◌≡◌};
ghost use Rattle.link_words.specs.CommandNames.{named_by, word_of};

/// The commands of the program, each named by a word of its own.
#[derive(Clone, Copy, Debug, PartialEq, Eq)]
pub enum CommandName {
    /// `replay`
    Replay,
    /// `decode`
    Decode,
    /// `load`
    Load,
    /// `live`
    Live,
    /// `filter`
    Filter,
    /// `midi`
    Midi,
    /// `control`
    Control,
}

impl CommandName {
    /// The command's word.
    pub fn word(self) -> &'static str
        ensures { result.now ≡ word_of self }
    {
        match self {
            CommandName::Replay => "replay",
            CommandName::Decode => "decode",
            CommandName::Load => "load",
            CommandName::Live => "live",
            CommandName::Filter => "filter",
            CommandName::Midi => "midi",
            CommandName::Control => "control",
        }
    }
}

/// The command that the first of the words names; none where there is no word, or another one.
pub fn command_named(words: &[String]) -> Option<CommandName>
    ensures { result ≡ named_by words.now }
{
    let [first, ..] = words else {
        return None;
    };
    match first.as_str() {
        "replay" => Some(CommandName::Replay),
        "decode" => Some(CommandName::Decode),
        "load" => Some(CommandName::Load),
        "live" => Some(CommandName::Live),
        "filter" => Some(CommandName::Filter),
        "midi" => Some(CommandName::Midi),
        "control" => Some(CommandName::Control),
        _ => None,
    }
}
