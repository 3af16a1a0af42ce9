#![tactic(auto)]
// The machines' states and sessions as words: taken out of a slice, and put into one. The definitions are those of `words`.
mod sessions;

ghost use Rattle.std.specs.Prelude.{◌≡◌, ◌+◌, ◌≤◌, length};
ghost use Rattle.std.proofs.lemmas.List.Edits.{sets};
ghost use Rattle.book.specs.Bounds.{most_processes};
ghost use Rattle.words.specs.Participant.{participant_length, stage_word, stage_in, participant_words, participant_decodes, participant_from, participant_in};
ghost use Rattle.words.specs.Initiator.{initiator_length, flag_words, flags_at, initiator_words, initiator_decodes, initiator_from, initiator_in};

use book::{Checkpoint, Process};
use initiator::Initiator;
use participant::{Participant, Stage};
pub use sessions::{put_session, session_in};
use words::layout;

// A participant's state ends with the counters of its row and column, an initiator's with those of its matrix and copy.
const PARTICIPANT_COUNTERS: usize = layout::PARTICIPANT_WORDS - layout::PARTICIPANT_ROW_AT;

const INITIATOR_COUNTERS: usize = layout::INITIATOR_WORDS - layout::INITIATOR_MATRIX_AT;

// A stage's number: a function, so that one proof shows that the variants stand in the order of their words.
fn stage_word(stage: Stage) -> u64
    ensures { result ≡ stage_word stage }
{
    stage as u64
}

// The way back is no `From`: neither type is of this crate.
fn stage_in(w: u64) -> Stage
    ensures { result ≡ stage_in w }
{
    match w {
        0 => Stage::Before,
        1 => Stage::Searching,
        _ => Stage::Ended,
    }
}

// Do the words from a place on stand for a participant's state?
pub fn participant_decodes(words: &[u64], at: usize) -> bool
    requires { at + participant_length ≤ length words.now }
    ensures { result ≡ participant_decodes words.now at }
{
    if 3 <= words[at + layout::PARTICIPANT_STAGE_AT] {
        return false;
    }
    words::all_below(
        words::COUNTER_BOUND,
        words,
        at + layout::PARTICIPANT_ROW_AT,
        PARTICIPANT_COUNTERS,
    )
}

// The participant's state, of n processes, that they stand for.
pub fn participant_at(n: usize, words: &[u64], at: usize) -> Participant
    requires { at + participant_length ≤ length words.now }
    ensures { result ≡ participant_from n words.now at }
{
    let row = words::counts_at(words, at + layout::PARTICIPANT_ROW_AT);
    let column = words::counts_at(words, at + layout::PARTICIPANT_COLUMN_AT);
    Participant {
        n,
        me: Process(words[at + layout::PARTICIPANT_PROCESS_AT] as usize),
        initiator: Process(words[at + layout::PARTICIPANT_INITIATOR_AT] as usize),
        purpose: words[at + layout::PARTICIPANT_PURPOSE_AT],
        stage: stage_in(words[at + layout::PARTICIPANT_STAGE_AT]),
        candidate: Checkpoint(words[at + layout::PARTICIPANT_CANDIDATE_AT] as usize),
        row,
        column,
    }
}

// The participant's state in a slice of words; one that does not decode has no processes.
pub fn participant_in(words: &[u64]) -> Participant
    requires { length words.now ≡ participant_length }
    ensures { result ≡ participant_in words.now }
{
    if !participant_decodes(words, 0) {
        return participant_at(0, words, 0);
    }
    participant_at(words[0] as usize, words, 0)
}

// The words that a state begins with, to a place on.
fn put_head(head: &[u64], words: &mut [u64], at: usize)
    requires { at + length head.now ≤ length words.old }
    ensures { words.new ≡ sets words.old at head.now }
{
    words[at..at + head.len()].copy_from_slice(head);
}

// A participant's state, to a place on.
pub fn put_participant(state: Participant, words: &mut [u64], at: usize)
    requires { at + participant_length ≤ length words.old }
    ensures { words.new ≡ sets words.old at (participant_words state) }
{
    let me = state.me;
    let initiator = state.initiator;
    let stage = state.stage;
    let candidate = state.candidate;
    let row = state.row;
    let column = state.column;
    let head = [
        state.n as u64,
        me.0 as u64,
        initiator.0 as u64,
        state.purpose,
        stage_word(stage),
        candidate.0 as u64,
    ];
    put_head(&head, words, at);
    words::put_counts(row, words, at + layout::PARTICIPANT_ROW_AT);
    words::put_counts(column, words, at + layout::PARTICIPANT_COLUMN_AT);
}

// Sixteen flags from a place on.
fn flags_at(words: &[u64], at: usize) -> [bool; 16]
    requires { at + most_processes ≤ length words.now }
    ensures { result ≡ flags_at words.now at }
{
    let mut flags = [false; 16];
    for i in 0..book::MOST_PROCESSES {
        flags[i] = words[at + i] != 0;
    }
    flags
}

// Sixteen flags, to a place on.
fn put_flags(flags: [bool; 16], words: &mut [u64], at: usize)
    requires { at + most_processes ≤ length words.old }
    ensures { words.new ≡ sets words.old at (flag_words flags) }
{
    for i in 0..book::MOST_PROCESSES {
        words[at + i] = flags[i] as u64;
    }
}

// Do the words from a place on stand for an initiator's state?
pub fn initiator_decodes(words: &[u64], at: usize) -> bool
    requires { at + initiator_length ≤ length words.now }
    ensures { result ≡ initiator_decodes words.now at }
{
    if 2 <= words[at + layout::INITIATOR_ENDED_AT] {
        return false;
    }
    if words::TALLY_BOUND <= words[at + layout::INITIATOR_ROUNDS_AT] {
        return false;
    }
    if !words::all_below(
        2,
        words,
        at + layout::INITIATOR_AWAITED_AT,
        book::MOST_PROCESSES,
    ) {
        return false;
    }
    words::all_below(
        words::COUNTER_BOUND,
        words,
        at + layout::INITIATOR_MATRIX_AT,
        INITIATOR_COUNTERS,
    )
}

// The initiator's state, of n processes, that they stand for.
pub fn initiator_at(n: usize, words: &[u64], at: usize) -> Initiator
    requires { at + initiator_length ≤ length words.now }
    ensures { result ≡ initiator_from n words.now at }
{
    let awaited = flags_at(words, at + layout::INITIATOR_AWAITED_AT);
    let matrix = words::counts_at(words, at + layout::INITIATOR_MATRIX_AT);
    let copy = words::counts_at(words, at + layout::INITIATOR_COPY_AT);
    Initiator {
        n,
        me: Process(words[at + layout::INITIATOR_PROCESS_AT] as usize),
        purpose: words[at + layout::INITIATOR_PURPOSE_AT],
        ended: words[at + layout::INITIATOR_ENDED_AT] != 0,
        candidate: Checkpoint(words[at + layout::INITIATOR_CANDIDATE_AT] as usize),
        rounds: words::tally_in(words[at + layout::INITIATOR_ROUNDS_AT]),
        awaited,
        matrix,
        copy,
    }
}

// The initiator's state in a slice of words; one that does not decode has no processes.
pub fn initiator_in(words: &[u64]) -> Initiator
    requires { length words.now ≡ initiator_length }
    ensures { result ≡ initiator_in words.now }
{
    if !initiator_decodes(words, 0) {
        return initiator_at(0, words, 0);
    }
    initiator_at(words[0] as usize, words, 0)
}

// An initiator's state, to a place on.
pub fn put_initiator(state: Initiator, words: &mut [u64], at: usize)
    requires { at + initiator_length ≤ length words.old }
    ensures { words.new ≡ sets words.old at (initiator_words state) }
{
    let me = state.me;
    let candidate = state.candidate;
    let awaited = state.awaited;
    let matrix = state.matrix;
    let copy = state.copy;
    let head = [
        state.n as u64,
        me.0 as u64,
        state.purpose,
        state.ended as u64,
        candidate.0 as u64,
        state.rounds as u64,
    ];
    put_head(&head, words, at);
    put_flags(awaited, words, at + layout::INITIATOR_AWAITED_AT);
    words::put_counts(matrix, words, at + layout::INITIATOR_MATRIX_AT);
    words::put_counts(copy, words, at + layout::INITIATOR_COPY_AT);
}
