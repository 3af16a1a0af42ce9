#![tactic(auto)]
// The text that the program `line` prints (document 01), as a value that grows, and put into a lent buffer.
mod growing;

ghost use Rattle.std.specs.Prelude.{◌≡◌, ◌≤◌, take};
ghost use Rattle.book.specs.Numbers.{by_number};
ghost use Rattle.line_text.specs.Text.{found_text, refused_text};
ghost use Rattle.line_text.specs.Put.{put_answer, text_put};
ghost use Rattle.line_text.specs.Line.{table_inside, line_text};
ghost use Rattle.line_text.specs.Parts.{Holds, Says};

use book::{Checkpoint, Counter, Process, Question};
pub use growing::{ROOM, Text};

// The text for an accepted book of n processes, with its line, and what is passed, the rounds and the messages.
pub fn found_text(
    n: usize,
    set: [Checkpoint; 16],
    passed: usize,
    rounds: u32,
    messages: u32,
) -> Text
    requires { n ≤ 16 }
    ensures { Holds result (found_text n set passed rounds messages) }
{
    let mut text = Text::empty();
    text.first_lines(n, set);
    text.labelled(b"passed", passed as u64);
    text.labelled(b"rounds", rounds as u64);
    text.labelled(b"messages", messages as u64);
    text
}

// The text for a refused book.
pub fn refused_text(question: u32) -> Text
    ensures { Holds result (refused_text question) }
{
    let mut text = Text::empty();
    text.labelled(b"refused", question as u64);
    text
}

// A text put at the start of a buffer, where it fits: question 17.
pub fn put_text(text: &Text, out: &mut [u8]) -> Result<usize, Question>
    ensures answer { by_number result ≡ put_answer (take text.now.len text.now.bytes) out.old }
    ensures bytes { out.new ≡ text_put (take text.now.len text.now.bytes) out.old }
{
    if out.len() < text.len {
        return Err(Question::Room);
    }
    out[..text.len].copy_from_slice(&text.bytes[..text.len]);
    Ok(text.len)
}

// A table, made by a function of its own, so that no proof meets its many entries one by one.
fn table_inside() -> [Counter; 4096]
    ensures { result ≡ table_inside }
{
    [0; 4096]
}

// The text of a search on a book, with purpose 3 from process 1; or the question that refuses the book, and never the search.
fn search_text(bytes: &[u8]) -> Result<Text, Question>
    ensures { Says result (line_text bytes.now) }
{
    let mut sent = table_inside();
    let mut received = table_inside();
    let shape = reader::read(bytes, &mut sent, &mut received)?;
    let found = searches::search(shape, &sent, &received, Process(1), 3)?;
    Ok(found_text(
        shape.n,
        found.set,
        found.newer,
        found.rounds,
        found.messages,
    ))
}

// The text of a book: what the program prints for it. Question: 17.
pub fn line_text(bytes: &[u8], out: &mut [u8]) -> Result<usize, Question>
    ensures answer { by_number result ≡ put_answer (line_text bytes.now) out.old }
    ensures bytes { out.new ≡ text_put (line_text bytes.now) out.old }
{
    match search_text(bytes) {
        Ok(found) => put_text(&found, out),
        Err(question) => put_text(&refused_text(question.number()), out),
    }
}
