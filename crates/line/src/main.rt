#![tactic(auto)]
// Document 01, "Program `line`": reads a book from standard input and prints its line, or the question that it fails. What is
// printed is the library's text; this program only reads and writes, and says on standard error where it could not.
ghost use Rattle.std.specs.Prelude.{◌≡◌, ◌≤◌, length};

use std::io::{Read, Write};

// One byte more than a book may have, so that a longer one is refused by question 1.
const INPUT: usize = 65537;

// Made by a function of its own, so that no proof meets its many bytes one by one.
fn input_buffer() -> [u8; INPUT]
    ensures { length result ≡ 65537 }
{
    [0; INPUT]
}

// Reads until the buffer is full, the input ends or a read fails: how many bytes stand at its start.
fn read_full<R: Read>(input: &mut R, buffer: &mut [u8]) -> usize
    ensures { result ≤ length buffer.new }
{
    let mut done = 0;
    while done < buffer.len() {
        match input.read(&mut buffer[done..]) {
            Ok(0) | Err(_) => break,
            Ok(n) => done += n,
        }
    }
    done
}

// Is nothing left to read? A read that failed is told from one at the end by reading once more.
fn at_end<R: Read>(input: &mut R) -> bool {
    let mut more = [0u8; 1];
    matches!(input.read(&mut more), Ok(0))
}

// Says why the program gives up; where standard error cannot be written either, nobody can be told.
fn complain<W: Write>(errors: &mut W, words: &[u8]) {
    let _ = errors.write_all(words);
}

fn main(rt: HostRuntime) {
    let mut input = input_buffer();
    let mut stdin = rt.stdin();
    let n = read_full(&mut stdin, &mut input);
    if n < INPUT && !at_end(&mut stdin) {
        complain(&mut rt.stderr(), b"line: standard input cannot be read\n");
        return;
    }
    let mut text = [0u8; line_text::ROOM];
    let Ok(length) = line_text::line_text(&input[..n], &mut text) else {
        return;
    };
    if rt.stdout().write_all(&text[..length]).is_err() {
        complain(
            &mut rt.stderr(),
            b"line: standard output cannot be written\n",
        );
    }
}
