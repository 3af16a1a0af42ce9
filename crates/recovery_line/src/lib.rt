#![tactic(auto)]
// Every call of documents 01 and 02 as a function over numbers and slices, which the static library recovery_line_c exports.
// Shapes, sets, states, sessions, orders and lists of what to send again cross as words. Every call answers 0, or the number that refuses: first
// WRONG_LENGTH for a slice of words, or of sixteen counters, of another length than its own, then the questions of the call inside.
pub mod books;
pub mod journals;
pub mod lines;
pub mod machines;
pub mod moved;
pub mod resends;
pub mod sessions;
pub mod version;

ghost use Rattle.std.specs.Prelude.{◌≡◌, ◌&&◌, eqb};
ghost use Rattle.book.specs.InTurn.{ask};
ghost use Rattle.words.specs.Words.{shape_length, wrong_length};

use words::layout;

// A slice of words, or of sixteen counters beside the tables, of another length than its own.
pub const WRONG_LENGTH: u32 = 100;

// Has the slice of the shape its length? 0, or WRONG_LENGTH.
fn shape_question(shape: usize) -> u32
    ensures { result ≡ ask wrong_length (eqb shape shape_length) }
{
    if shape != layout::SHAPE_WORDS {
        return WRONG_LENGTH;
    }
    0
}

// And another slice its own?
fn two_question(shape: usize, other: usize, its: usize) -> u32
    ensures { result ≡ ask wrong_length (eqb shape shape_length && eqb other its) }
{
    if shape != layout::SHAPE_WORDS {
        return WRONG_LENGTH;
    }
    if other != its {
        return WRONG_LENGTH;
    }
    0
}

// And a third one?
fn three_question(shape: usize, other: usize, its: usize, third: usize, own: usize) -> u32
    ensures { result ≡ ask wrong_length (eqb shape shape_length && (eqb other its && eqb third own)) }
{
    if shape != layout::SHAPE_WORDS {
        return WRONG_LENGTH;
    }
    if other != its {
        return WRONG_LENGTH;
    }
    if third != own {
        return WRONG_LENGTH;
    }
    0
}
