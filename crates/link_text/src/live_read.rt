//! Reading the lines of a live script.

ghost use Rattle.std.specs.Prelude.{◌≡◌, ◌≤◌, ◌∷◌, [], ◌↔◌, ℕ, ℤ, Bool, codes, IsTrue, IfSome, IfNone};
ghost use Rattle.std.specs.Fmt.{signed_decimal};
ghost use Rattle.lk_base.specs.Ranges.{IsQuantum, IsWithinLimit};
ghost use Rattle.link_lines.specs.LineWords.{words_left, words_of};
ghost use Rattle.link_script.specs.LiveScript.{IsAct, IsBlockAct, IsCommand, IsTempo, act_words, app, begins_command, block, command_line, command_words, live_version_line, setup_line};
ghost use Rattle.link_lines.specs.Words.{truth_text_of};
ghost use Rattle.link_script.specs.declared.live_script.Act.{Act};
ghost use Rattle.link_script.specs.declared.live_script.AppCommand.{AppCommand};
ghost use Rattle.link_script.specs.declared.live_script.BlockCommand.{BlockCommand};

use crate::values::{moment_in, number_in, quantum_in, signed_in, tempo_in, truth_in};
use link_lines::{first_word, is_end, is_word, next_word};
use link_script::{Act, AppCommand, BlockCommand};

/// The greatest number of a block.
pub(crate) const BLOCK_MAX: u64 = 524_288;

/// Whether a line is the first one of a live script.
pub(crate) fn is_live_version_line(line: &[u8]) -> bool
    ensures { IsTrue result ↔ (line.now ≡ live_version_line) }
{
    is_word(line, b"link 1")
}

/// The tempo and the sync that the line of a setup says.
pub(crate) fn setup_of(line: &[u8]) -> Option<(i64, bool)>
    ensures some { IfSome result (λ setup. IsTempo setup.0 × (line.now ≡ setup_line setup.0 setup.1)) }
    ensures none { IfNone result ((mpb : ℤ) (sync : Bool) → IsTempo mpb → line.now ≡ setup_line mpb sync → ⊥) }
{
    setup_in(line)
}

// What the words of a setup's line say.
fn setup_in(line: &[u8]) -> Option<(i64, bool)>
    ensures some { IfSome result (λ setup. IsTempo setup.0
        × (words_of line.now ≡ codes "setup" ∷ signed_decimal setup.0 ∷ truth_text_of setup.1 ∷ [])) }
    ensures none { IfNone result ((mpb : ℤ) (sync : Bool) → IsTempo mpb
        → words_of line.now ≡ codes "setup" ∷ signed_decimal mpb ∷ truth_text_of sync ∷ [] → ⊥) }
{
    let (kind, left) = first_word(line);
    if !is_word(kind, b"setup") {
        return None;
    }
    let Some((mpb, left)) = tempo_in(left) else {
        return None;
    };
    let Some((sync, left)) = truth_in(left) else {
        return None;
    };
    if !is_end(left) {
        return None;
    }
    Some((mpb, sync))
}

/// Whether a line begins as that of a command.
pub(crate) fn begins_command(line: &[u8]) -> bool
    ensures { result ≡ begins_command line.now }
{
    line.starts_with(b"at ") || line.starts_with(b"block ")
}

/// The command of the application that a line says.
pub(crate) fn app_command_of(line: &[u8]) -> Option<AppCommand>
    ensures some { IfSome result (λ command. IsCommand (app command) × (line.now ≡ command_line (app command))) }
    ensures none { IfNone result ((command : AppCommand) → IsCommand (app command)
        → line.now ≡ command_line (app command) → ⊥) }
{
    app_command_in(line)
}

// What the words of the line of an application's command say.
fn app_command_in(line: &[u8]) -> Option<AppCommand>
    ensures some { IfSome result (λ command. IsCommand (app command) × (words_of line.now ≡ command_words (app command))) }
    ensures none { IfNone result ((command : AppCommand) → IsCommand (app command)
        → words_of line.now ≡ command_words (app command) → ⊥) }
{
    let (kind, left) = first_word(line);
    if !is_word(kind, b"at") {
        return None;
    }
    let Some((at, left)) = moment_in(left) else {
        return None;
    };
    let Some(act) = act_of(left) else {
        return None;
    };
    Some(AppCommand { at, act })
}

/// The command of the audio thread that a line says.
pub(crate) fn block_command_of(line: &[u8]) -> Option<BlockCommand>
    ensures some { IfSome result (λ command. IsCommand (block command) × (line.now ≡ command_line (block command))) }
    ensures none { IfNone result ((command : BlockCommand) → IsCommand (block command)
        → line.now ≡ command_line (block command) → ⊥) }
{
    block_command_in(line)
}

// What the words of the line of a block's command say.
fn block_command_in(line: &[u8]) -> Option<BlockCommand>
    ensures some { IfSome result (λ command. IsCommand (block command) × (words_of line.now ≡ command_words (block command))) }
    ensures none { IfNone result ((command : BlockCommand) → IsCommand (block command)
        → words_of line.now ≡ command_words (block command) → ⊥) }
{
    let (kind, left) = first_word(line);
    if !is_word(kind, b"block") {
        return None;
    }
    let Some((number, left)) = number_in(left, BLOCK_MAX) else {
        return None;
    };
    if number == 0 {
        return None;
    }
    let Some(act) = act_of(left) else {
        return None;
    };
    if !is_block_act(act) {
        return None;
    }
    Some(BlockCommand { block: number, act })
}

// Whether the audio thread can do it.
fn is_block_act(act: Act) -> bool
    ensures { IsTrue result ↔ IsBlockAct act }
{
    matches!(act, Act::Tempo(_) | Act::Quantum(_) | Act::Play | Act::Stop)
}

// The act that all that is left of a line says.
fn act_of(left: &[u8]) -> Option<Act>
    ensures some { IfSome result (λ act. IsAct act × (words_left left.now ≡ act_words act)) }
    ensures none { IfNone result ((act : Act) → IsAct act → words_left left.now ≡ act_words act → ⊥) }
{
    let Some((word, left)) = next_word(left) else {
        return None;
    };
    if is_word(word, b"tempo") {
        return tempo_act(left);
    }
    if is_word(word, b"force") {
        return force_act(left);
    }
    if is_word(word, b"request") {
        return request_act(left);
    }
    if is_word(word, b"quantum") {
        return quantum_act(left);
    }
    if !is_end(left) {
        return None;
    }
    if is_word(word, b"play") {
        return Some(Act::Play);
    }
    if is_word(word, b"stop") {
        return Some(Act::Stop);
    }
    if is_word(word, b"look") {
        return Some(Act::Look);
    }
    None
}

// Another tempo, at the end of the line.
fn tempo_act(left: &[u8]) -> Option<Act>
    ensures some { IfSome result (λ act. IsAct act × (codes "tempo" ∷ words_left left.now ≡ act_words act)) }
    ensures none { IfNone result ((mpb : ℤ) → IsTempo mpb → words_left left.now ≡ signed_decimal mpb ∷ [] → ⊥) }
{
    let Some(mpb) = tempo_left(left) else {
        return None;
    };
    Some(Act::Tempo(mpb))
}

// A beat that is forced, at the end of the line.
fn force_act(left: &[u8]) -> Option<Act>
    ensures some { IfSome result (λ act. IsAct act × (codes "force" ∷ words_left left.now ≡ act_words act)) }
    ensures none { IfNone result ((beat : ℤ) → IsWithinLimit beat → words_left left.now ≡ signed_decimal beat ∷ [] → ⊥) }
{
    let Some(beat) = signed_left(left) else {
        return None;
    };
    Some(Act::Force(beat))
}

// A beat that is asked for, at the end of the line.
fn request_act(left: &[u8]) -> Option<Act>
    ensures some { IfSome result (λ act. IsAct act × (codes "request" ∷ words_left left.now ≡ act_words act)) }
    ensures none { IfNone result ((beat : ℤ) → IsWithinLimit beat → words_left left.now ≡ signed_decimal beat ∷ [] → ⊥) }
{
    let Some(beat) = signed_left(left) else {
        return None;
    };
    Some(Act::Request(beat))
}

// Another quantum, at the end of the line.
fn quantum_act(left: &[u8]) -> Option<Act>
    ensures some { IfSome result (λ act. IsAct act × (codes "quantum" ∷ words_left left.now ≡ act_words act)) }
    ensures none { IfNone result ((quantum : ℤ) → IsQuantum quantum → words_left left.now ≡ signed_decimal quantum ∷ [] → ⊥) }
{
    let Some((quantum, left)) = quantum_in(left) else {
        return None;
    };
    if !is_end(left) {
        return None;
    }
    Some(Act::Quantum(quantum))
}

/// The tempo that all that is left of a line says.
pub(crate) fn tempo_left(left: &[u8]) -> Option<i64>
    ensures some { IfSome result (λ mpb. IsTempo mpb × (words_left left.now ≡ signed_decimal mpb ∷ [])) }
    ensures none { IfNone result ((mpb : ℤ) → IsTempo mpb → words_left left.now ≡ signed_decimal mpb ∷ [] → ⊥) }
{
    let Some((mpb, left)) = tempo_in(left) else {
        return None;
    };
    if !is_end(left) {
        return None;
    }
    Some(mpb)
}

/// The number within 2^60 of 0 that all that is left of a line says.
pub(crate) fn signed_left(left: &[u8]) -> Option<i64>
    ensures some { IfSome result (λ number. IsWithinLimit number × (words_left left.now ≡ signed_decimal number ∷ [])) }
    ensures none { IfNone result ((number : ℤ) → IsWithinLimit number → words_left left.now ≡ signed_decimal number ∷ [] → ⊥) }
{
    let Some((number, left)) = signed_in(left) else {
        return None;
    };
    if !is_end(left) {
        return None;
    }
    Some(number)
}
