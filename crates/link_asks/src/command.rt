//! The first words of lines.

ghost use Rattle.std.specs.Prelude.{◌≡◌, ◌≢◌, codes, IfSome, IfNone};
ghost use Rattle.link_asks.specs.Commands.{command_text_of};
ghost use Rattle.link_asks.specs.declared.command.Command as command;

use link_lines::is_word;

/// A word that a line can begin with.
#[derive(Clone, Copy, Debug, PartialEq, Eq)]
pub enum Command {
    Status,
    Now,
    Beat,
    Phase,
    Time,
    Tempo,
    Bpm,
    Play,
    Stop,
    Force,
    Request,
    Quantum,
    Watch,
    Unwatch,
    Clients,
    Gates,
    End,
}

/// The command that a word is.
pub(crate) fn command_of(word: &[u8]) -> Option<Command>
    ensures some { IfSome result (λ c. word.now ≡ command_text_of c) }
    ensures none { IfNone result ((c : command.Command) → word.now ≡ command_text_of c → ⊥) }
{
    if let Some(command) = look_of(word) {
        return Some(command);
    }
    if let Some(command) = edit_of(word) {
        return Some(command);
    }
    other_of(word)
}

// The command to look at something that a word is.
#[tactic(auto, unfolding(crate::specs::Commands::command_text_of))]
fn look_of(word: &[u8]) -> Option<Command>
    ensures some { IfSome result (λ c. word.now ≡ command_text_of c) }
    ensures none { IfNone result ((word.now ≢ codes "status") × (word.now ≢ codes "now") × (word.now ≢ codes "beat")
        × (word.now ≢ codes "phase") × (word.now ≢ codes "time")) }
{
    if is_word(word, b"status") {
        return Some(Command::Status);
    }
    if is_word(word, b"now") {
        return Some(Command::Now);
    }
    if is_word(word, b"beat") {
        return Some(Command::Beat);
    }
    if is_word(word, b"phase") {
        return Some(Command::Phase);
    }
    if is_word(word, b"time") {
        return Some(Command::Time);
    }
    None
}

// The command to edit something that a word is.
#[tactic(auto, unfolding(crate::specs::Commands::command_text_of))]
fn edit_of(word: &[u8]) -> Option<Command>
    ensures some { IfSome result (λ c. word.now ≡ command_text_of c) }
    ensures none { IfNone result ((word.now ≢ codes "tempo") × (word.now ≢ codes "bpm") × (word.now ≢ codes "play")
        × (word.now ≢ codes "stop") × (word.now ≢ codes "force") × (word.now ≢ codes "request") × (word.now ≢ codes "quantum")) }
{
    if is_word(word, b"tempo") {
        return Some(Command::Tempo);
    }
    if is_word(word, b"bpm") {
        return Some(Command::Bpm);
    }
    if is_word(word, b"play") {
        return Some(Command::Play);
    }
    if is_word(word, b"stop") {
        return Some(Command::Stop);
    }
    if is_word(word, b"force") {
        return Some(Command::Force);
    }
    if is_word(word, b"request") {
        return Some(Command::Request);
    }
    if is_word(word, b"quantum") {
        return Some(Command::Quantum);
    }
    None
}

// Another command that a word is.
#[tactic(auto, unfolding(crate::specs::Commands::command_text_of))]
fn other_of(word: &[u8]) -> Option<Command>
    ensures some { IfSome result (λ c. word.now ≡ command_text_of c) }
    ensures none { IfNone result ((word.now ≢ codes "watch") × (word.now ≢ codes "unwatch") × (word.now ≢ codes "clients")
        × (word.now ≢ codes "gates") × (word.now ≢ codes "end")) }
{
    if is_word(word, b"watch") {
        return Some(Command::Watch);
    }
    if is_word(word, b"unwatch") {
        return Some(Command::Unwatch);
    }
    if is_word(word, b"clients") {
        return Some(Command::Clients);
    }
    if is_word(word, b"gates") {
        return Some(Command::Gates);
    }
    if is_word(word, b"end") {
        return Some(Command::End);
    }
    None
}
