// Sets and the line: test a set, test one checkpoint, find the line.
ghost use Rattle.std.specs.Prelude.{◌≡◌, [], ◌∷◌, length};
ghost use Rattle.words.specs.Words.{pair_length};
ghost use Rattle.recovery_line.specs.Lines.{test_answer, test_pair, column_answer, column_partner, find_answer, find_line, find_passed};

use book::{Checkpoint, Counter, Process};
use words::layout;

// A pair of processes, to a slice of its length.
fn put_pair(j: usize, p: usize, pair: &mut [u64])
    requires { length pair.old ≡ pair_length }
    ensures { pair.new ≡ (j ∷ (p ∷ [])) }
{
    pair[0] = words::of_number(j);
    pair[1] = words::of_number(p);
}

// Is a set consistent? The first pair at fault, or zeros.
pub fn recovery_line_test_set(
    shape: &[u64],
    sent: &[Counter],
    received: &[Counter],
    set: &[u64],
    pair: &mut [u64],
) -> u32
    ensures value { result ≡ test_answer shape.now sent.now received.now set.now pair.old }
    ensures pair_after { pair.new ≡ test_pair shape.now sent.now received.now set.now pair.old }
{
    let question = crate::three_question(
        shape.len(),
        set.len(),
        layout::SET_WORDS,
        pair.len(),
        layout::PAIR_WORDS,
    );
    if question != 0 {
        return question;
    }
    let given = words::shape_in(shape);
    let chosen = words::set_in(set);
    match consistency::test_set(given, sent, received, chosen) {
        Ok(None) => {
            put_pair(0, 0, pair);
            0
        }
        Ok(Some((j, p))) => {
            put_pair(j.0, p.0, pair);
            0
        }
        Err(question) => question.number(),
    }
}

// Has a checkpoint received more than is known to be sent to its process? The lowest partner that shows it, or zero.
pub fn recovery_line_test_checkpoint(
    shape: &[u64],
    sent: &[Counter],
    received: &[Counter],
    process: u64,
    checkpoint: u64,
    known: &[Counter],
    partner: &mut u64,
) -> u32
    ensures value { result ≡ column_answer shape.now sent.now received.now process checkpoint known.now }
    ensures partner_after { partner.new ≡ column_partner shape.now sent.now received.now process checkpoint known.now partner.old }
{
    let question = crate::two_question(shape.len(), known.len(), book::MOST_PROCESSES);
    if question != 0 {
        return question;
    }
    let given = words::shape_in(shape);
    let counts = words::counts_in(known);
    let j = Process(words::number(process));
    let r = Checkpoint(words::number(checkpoint));
    match consistency::test_checkpoint(given, sent, received, j, r, counts) {
        Ok(None) => {
            *partner = 0;
            0
        }
        Ok(Some(p)) => {
            *partner = words::of_number(p.0);
            0
        }
        Err(question) => question.number(),
    }
}

// The line, and T.
pub fn recovery_line_find(
    shape: &[u64],
    sent: &[Counter],
    received: &[Counter],
    line: &mut [u64],
    passed: &mut u64,
) -> u32
    ensures value { result ≡ find_answer shape.now sent.now received.now line.old }
    ensures line_after { line.new ≡ find_line shape.now sent.now received.now line.old }
    ensures passed_after { passed.new ≡ find_passed shape.now sent.now received.now line.old passed.old }
{
    let question = crate::two_question(shape.len(), line.len(), layout::SET_WORDS);
    if question != 0 {
        return question;
    }
    let given = words::shape_in(shape);
    match finder::find_line(given, sent, received) {
        Ok(found) => {
            words::put_set(found.set, line, 0);
            *passed = words::of_number(found.passed);
            0
        }
        Err(question) => question.number(),
    }
}
