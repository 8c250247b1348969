//! The command `filter`: a smooth host time for each pair of a text.

ghost use Rattle.std.specs.Prelude.{◌≡◌, ◌≤◌, ◌∷◌, ◌++◌, [], List, ℕ, length, OnOk, OnErr};
ghost use Rattle.std.specs.Bool.{OnTrue, OnFalse};
ghost use Rattle.lk_outside.specs.Faults.{Rose};
ghost use Rattle.link_commands.specs.Outlet.{HandsOver, HandsPart};
ghost use Rattle.link_hostfilter.specs.Kept.{last};
ghost use Rattle.link_hostfilter.specs.declared.pair.Pair.{Pair};
ghost use Rattle.link_commands.specs.FilterText.{IsAccepted, IsFilterText, IsRefused, host_line_of, refusal_line_of, totals_line_of};
ghost use Rattle.link_commands.specs.PairLines.{IsPairText, IsSomePair, SaysPair};
ghost use Rattle.link_commands.specs.Statuses.{EndsFilter, IfNothingWritten, filter_command};

use crate::outlet::{Outlet, SinkFailed};
use crate::pair_lines::check_pairs;
use crate::run_text::read_and_answer;
use crate::status::{Grammar, Status};
use crate::text_command::TextCommand;
use crate::text_fault::TextFault;
use link_hostfilter::{
    FilterFault, HostFilter, a_new_pair_is_near, kept_pairs_are_filtered, the_last_of_the_last,
};
use link_text::{LineBuf, line_at, pair_of, put, put_decimal, put_signed};
use link_words::{CommandName, is_only};
use lk_outside::{Sink, Source};
use std::alloc::Global;

/// Filters the pairs of a sample count and a host time on `input`: reads and checks the whole text, and then writes to `out` a line for
/// each of its lines, with the host time of that sample on the least squares line through the last 512 pairs that were accepted, or
/// with why the pair was refused, and last how many pairs there were and how many were refused. Nothing is written unless the whole
/// text is in the grammar.
///
/// Waits: in the objects' calls alone. Memory: the text and the outlet, all of it before the first write.
pub fn filter_main<S: Source, K: Sink>(
    alloc: Global,
    words: &[String],
    input: &mut S,
    out: &mut K,
) -> Status
    ensures ends { EndsFilter words.now
        (S.seen input.old) (S.seen input.new)
        (K.seen out.old) (K.seen out.new) result }

    // No object is called, or the sink isn't.
    ensures untouched { result ≡ Status.Words → (input.new ≡ input.old) × (out.new ≡ out.old) }
    ensures unwritten { IfNothingWritten result (out.new ≡ out.old) }
{
    if !is_only(words, CommandName::Filter) {
        return Status::Words;
    }
    read_and_answer::<Filter, S, K>(alloc, &(), input, out)
}

/// A text of pairs that was checked. Its answer needs no memory.
#[derive(Debug, Drop)]
struct Filter;

impl TextCommand for Filter {
    type Params = ();

    ghost command = { λ params. filter_command };

    ghost ready = { λ params filter text. IsPairText text };

    fn limit(_params: &()) -> usize {
        16_777_216
    }

    fn grammar(_params: &()) -> Grammar {
        Grammar::Pairs
    }

    fn check(_alloc: Global, _params: &(), text: &[u8]) -> Result<Self, TextFault> {
        check_pairs(text)?;
        Ok(Filter)
    }

    fn hand<K: Sink>(
        &mut self,
        _params: &(),
        text: &[u8],
        outlet: &mut Outlet,
        out: &mut K,
    ) -> Result<(), SinkFailed> {
        hand_answers(text, outlet, out)
    }
}

// Hands over the answer to each pair, and the totals.
fn hand_answers<K: Sink>(text: &[u8], outlet: &mut Outlet, out: &mut K) -> Result<(), SinkFailed>
    requires pairs { IsPairText text.now }
    requires short { length text.now ≤ 16_777_216 }
    ensures kept { OnOk result ((output : List ℕ) × IsFilterText text.now output
        × HandsOver output (K.seen out.old).told outlet.old.kept.items (K.seen out.new).told outlet.new.kept.items) }
    ensures part { OnErr result ((output : List ℕ) × IsFilterText text.now output
        × HandsPart output (K.seen out.old).told outlet.old.kept.items (K.seen out.new).told) }
    ensures quiet { OnOk result ((K.seen out.new).faults ≡ (K.seen out.old).faults) }
    ensures cause { OnErr result (Rose (K.seen out.old).faults (K.seen out.new).faults) }
{
    // Laws, for the proof: a pair that isn't refused leaves pairs that may be kept, and such pairs have a filtered host time, so that the
    // text has an output where the sink fails too.
    a_new_pair_is_near();
    kept_pairs_are_filtered();
    the_last_of_the_last();
    let mut filter = HostFilter::new();
    let mut line = LineBuf::new();
    let mut pairs: u64 = 0;
    let mut refused: u64 = 0;
    let mut at = 0;
    while at < text.len() {
        let (words, next) = line_at(text, at);
        let is_accepted = put_answer(&mut line, &mut filter, words);
        outlet.put_line(out, line.as_slice())?;
        pairs += 1;
        refused += u64::from(!is_accepted);
        at = next;
    }
    put_totals(&mut line, pairs, refused);
    outlet.put_line(out, line.as_slice())
}

// Puts the answer to a pair in place of what the buffer held, and tells whether the pair was accepted.
fn put_answer(line: &mut LineBuf, filter: &mut HostFilter, words: &[u8]) -> bool
    requires { IsSomePair words.now }
    ensures accepted { OnTrue result ((accepted : List Pair) → filter.old ≡ last 512 accepted
        → (pair : Pair) × SaysPair words.now pair × IsAccepted accepted pair line.new.items
        × (filter.new ≡ last 512 (accepted ++ pair ∷ []))) }
    ensures refused { OnFalse result ((accepted : List Pair) → filter.old ≡ last 512 accepted
        → (pair : Pair) × SaysPair words.now pair × IsRefused accepted pair line.new.items
        × (filter.new ≡ filter.old)) }
{
    // A law, for the proof: the last of the last, as one more comes, are those of all.
    the_last_of_the_last();
    let (sample, host) = pair_of(words).unwrap();
    match filter.add(sample, host) {
        Ok(filtered) => {
            put_host(line, filtered);
            true
        }
        Err(fault) => {
            put_refusal(line, fault);
            false
        }
    }
}

#[tactic(auto, unfolding(crate::specs::FilterText::host_line_of))]
fn put_host(line: &mut LineBuf, host: i64)
    ensures { line.new.items ≡ host_line_of host }
{
    line.clear();
    put(line, b"host ");
    put_signed(line, host);
    put(line, b"\n");
}

#[tactic(auto, unfolding(crate::specs::FilterText::refusal_line_of))]
fn put_refusal(line: &mut LineBuf, fault: FilterFault)
    ensures { line.new.items ≡ refusal_line_of fault }
{
    line.clear();
    match fault {
        FilterFault::NotLater { last } => {
            put(line, b"late ");
            put_signed(line, last);
            put(line, b"\n");
        }
        FilterFault::TooFar { sample, host } => {
            put(line, b"far ");
            put_signed(line, sample);
            put(line, b" ");
            put_signed(line, host);
            put(line, b"\n");
        }
    }
}

#[tactic(auto, unfolding(crate::specs::FilterText::totals_line_of))]
fn put_totals(line: &mut LineBuf, pairs: u64, refused: u64)
    ensures { line.new.items ≡ totals_line_of pairs refused }
{
    line.clear();
    put(line, b"done ");
    put_decimal(line, pairs);
    put(line, b" ");
    put_decimal(line, refused);
    put(line, b"\n");
}
