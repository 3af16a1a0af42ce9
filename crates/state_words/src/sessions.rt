// Sessions as words.
ghost use Rattle.std.specs.Prelude.{◌≡◌, ◌≤◌, length};
ghost use Rattle.std.proofs.lemmas.List.Edits.{sets};
ghost use Rattle.book.specs.Bounds.{most_processes};
ghost use Rattle.words.specs.Session.{session_length, place_start, place_words, places_decode, places_at, session_words, session_decodes, session_in};

use book::Process;
use participant::Participant;
use session::Session;
use words::layout;

// Where the words of the participant at place k begin.
fn place_start(k: usize) -> usize
    requires { k ≤ most_processes }
    ensures { result ≡ place_start k }
{
    layout::SESSION_PARTICIPANTS_AT + k * layout::PARTICIPANT_WORDS
}

// Do the words of all sixteen participants stand for states?
fn places_decode(words: &[u64]) -> bool
    requires { length words.now ≡ session_length }
    ensures { result ≡ places_decode words.now }
{
    for k in 0..book::MOST_PROCESSES {
        let at = place_start(k);
        if !crate::participant_decodes(words, at) {
            return false;
        }
    }
    true
}

// The sixteen participants.
fn places_at(words: &[u64]) -> [Participant; 16]
    requires { length words.now ≡ session_length }
    ensures { result ≡ places_at words.now }
{
    let none = participant::no_participant();
    let mut places = [none; 16];
    for k in 0..book::MOST_PROCESSES {
        let at = place_start(k);
        places[k] = crate::participant_at(words[at] as usize, words, at);
    }
    places
}

// The sixteen participants, to their places.
fn put_places(places: [Participant; 16], words: &mut [u64])
    requires { length words.old ≡ session_length }
    ensures { words.new ≡ sets words.old (place_start 0) (place_words places most_processes) }
{
    for k in 0..book::MOST_PROCESSES {
        let at = place_start(k);
        crate::put_participant(places[k], words, at);
    }
}

// Does a slice of words stand for a session?
fn session_decodes(words: &[u64]) -> bool
    requires { length words.now ≡ session_length }
    ensures { result ≡ session_decodes words.now }
{
    if !crate::initiator_decodes(words, layout::SESSION_MACHINE_AT) {
        return false;
    }
    if !places_decode(words) {
        return false;
    }
    words[layout::SESSION_DELIVERED_AT] < words::TALLY_BOUND
}

// How many processes a session in words has: none, where it does not decode.
fn size_in(words: &[u64]) -> usize
    requires { length words.now ≡ session_length }
    ensures { result ≡ (session_in words.now).n }
{
    if !session_decodes(words) {
        return 0;
    }
    words[0] as usize
}

// The session in a slice of words; one that does not decode has no processes.
pub fn session_in(words: &[u64]) -> Session
    requires { length words.now ≡ session_length }
    ensures { result ≡ session_in words.now }
{
    let n = size_in(words);
    let machine = crate::initiator_at(
        words[layout::SESSION_MACHINE_AT] as usize,
        words,
        layout::SESSION_MACHINE_AT,
    );
    let participants = places_at(words);
    let lengths = words::numbers_at(words, layout::SESSION_LENGTHS_AT);
    Session {
        n,
        initiator: Process(words[layout::SESSION_INITIATOR_AT] as usize),
        purpose: words[layout::SESSION_PURPOSE_AT],
        machine,
        participants,
        lengths,
        delivered: words::tally_in(words[layout::SESSION_DELIVERED_AT]),
    }
}

// A session, to a slice of its length.
pub fn put_session(session: Session, words: &mut [u64])
    requires { length words.old ≡ session_length }
    ensures { words.new ≡ session_words session }
{
    let initiator = session.initiator;
    let machine = session.machine;
    let participants = session.participants;
    let lengths = session.lengths;
    words[0] = session.n as u64;
    words[layout::SESSION_INITIATOR_AT] = initiator.0 as u64;
    words[layout::SESSION_PURPOSE_AT] = session.purpose;
    crate::put_initiator(machine, words, layout::SESSION_MACHINE_AT);
    put_places(participants, words);
    words::put_numbers(lengths, words, layout::SESSION_LENGTHS_AT);
    words[layout::SESSION_DELIVERED_AT] = session.delivered as u64;
}
