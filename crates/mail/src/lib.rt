#![tactic(auto)]
// Document 01, "Message (own)": the messages that one step sends, as bytes one after another.
ghost use Rattle.std.specs.Prelude.{◌≡◌, ◌+◌, ◌≤◌, ◌<◌, length};
ghost use Rattle.std.proofs.lemmas.List.Edits.{sets};
ghost use Rattle.varint.specs.Sequence.{encode_all};
ghost use Rattle.book.specs.InTurn.{answer_with};
ghost use Rattle.book.specs.Numbers.{by_number};
ghost use Rattle.consistency.specs.Known.{counters};
ghost use Rattle.message.specs.Layout.{pairs_to, head_numbers, message_bytes};
ghost use Rattle.mail.specs.Outgoing.{message_to, bytes_to, mail, lengths, room_question, sent_bytes};
ghost use Rattle.mail.specs.Sizes.{head_most, pairs_most, message_most};

use book::{Count, Process, Question};
use message::{Head, Message};

// The messages of one step: one head for all, who gets one, and for each of them a row of news.
#[derive(Clone, Copy)]
pub struct Outgoing {
    pub head: Head,
    pub to: [bool; 16],
    pub news: [Count; 256],
}

// How many bytes the numbers of a head take. The bounds on sizes are there for the sums to fit.
fn head_size(head: Head) -> usize
    ensures value { result ≡ length (encode_all (head_numbers head)) }
    ensures upper_bound { result ≤ head_most }
{
    let sender = head.sender;
    varint::size_of(head.kind) + varint::size_of(head.purpose) + varint::size_of(sender.0 as u64)
}

// How many bytes the pairs take.
fn pairs_size(news: [Count; 16]) -> usize
    ensures value { result ≡ length (encode_all (pairs_to 16 (counters news))) }
    ensures upper_bound { result ≤ pairs_most }
{
    let mut size = 0;
    for p in 0..book::MOST_PROCESSES {
        let counter = news[p];
        if counter.0 != matrix::NOT_KNOWN {
            size += varint::size_of((p + 1) as u64) + varint::size_of(u64::from(counter.0));
        }
    }
    size
}

// How many bytes a message takes.
pub fn message_size(message: Message) -> usize
    ensures value { result ≡ length (message_bytes message) }
    ensures upper_bound { result ≤ message_most }
{
    let head = message.head;
    let news = message.news;
    head_size(head) + varint::size_of(message::pair_count(news) as u64) + pairs_size(news)
}

// The numbers of a head, written at a place; it returns the place after them.
fn put_head(head: Head, out: &mut [u8], at: usize) -> usize
    requires { at + length (encode_all (head_numbers head)) ≤ length out.old }
    ensures value { result ≡ at + length (encode_all (head_numbers head)) }
    ensures out_after { out.new ≡ sets out.old at (encode_all (head_numbers head)) }
{
    let sender = head.sender;
    let second = varint::put_number(head.kind, out, at);
    let third = varint::put_number(head.purpose, out, second);
    varint::put_number(sender.0 as u64, out, third)
}

// The pairs, written at a place; it returns the place after them.
fn put_pairs(news: [Count; 16], out: &mut [u8], at: usize) -> usize
    requires { at + length (encode_all (pairs_to 16 (counters news))) ≤ length out.old }
    ensures value { result ≡ at + length (encode_all (pairs_to 16 (counters news))) }
    ensures out_after { out.new ≡ sets out.old at (encode_all (pairs_to 16 (counters news))) }
{
    let mut next = at;
    for p in 0..book::MOST_PROCESSES {
        let counter = news[p];
        if counter.0 != matrix::NOT_KNOWN {
            next = varint::put_number((p + 1) as u64, out, next);
            next = varint::put_number(u64::from(counter.0), out, next);
        }
    }
    next
}

// A message's bytes at the start of a buffer, for a caller that has made sure of the room; it returns how many.
pub fn put_message(message: Message, out: &mut [u8]) -> usize
    requires { length (message_bytes message) ≤ length out.old }
    ensures value { result ≡ length (message_bytes message) }
    ensures out_after { out.new ≡ sets out.old 0 (message_bytes message) }
{
    let head = message.head;
    let news = message.news;
    let count = put_head(head, out, 0);
    let pairs = varint::put_number(message::pair_count(news) as u64, out, count);
    put_pairs(news, out, pairs)
}

// The message to a process, which counts from 0.
pub fn message_to(outgoing: Outgoing, p: usize) -> Message
    requires { p < 16 }
    ensures { result ≡ message_to outgoing p }
{
    let all = outgoing.news;
    let head = outgoing.head;
    let news = matrix::row(all, Process(p + 1));
    Message { head, news }
}

// How many bytes process p gets.
pub fn size_to(outgoing: Outgoing, p: usize) -> usize
    requires { p < 16 }
    ensures value { result ≡ length (bytes_to outgoing p) }
    ensures upper_bound { result ≤ message_most }
{
    let to = outgoing.to;
    if to[p] {
        return message_size(message_to(outgoing, p));
    }
    0
}

// How many bytes all messages take.
fn mail_size(outgoing: Outgoing) -> usize
    ensures { result ≡ length (mail outgoing) }
{
    let mut size = 0;
    for p in 0..book::MOST_PROCESSES {
        size += size_to(outgoing, p);
    }
    size
}

// The message to process p at the start of a buffer, if it gets one; it returns the length.
pub fn put_to(outgoing: Outgoing, p: usize, out: &mut [u8]) -> usize
    requires { (p < 16) × (length (bytes_to outgoing p) ≤ length out.old) }
    ensures value { result ≡ length (bytes_to outgoing p) }
    ensures out_after { out.new ≡ sets out.old 0 (bytes_to outgoing p) }
{
    let to = outgoing.to;
    if to[p] {
        return put_message(message_to(outgoing, p), out);
    }
    0
}

// The messages, each into the part of the buffer that starts after the previous one; it returns the lengths.
fn put_mail(outgoing: Outgoing, out: &mut [u8]) -> [usize; 16]
    requires { length (mail outgoing) ≤ length out.old }
    ensures value { result ≡ lengths outgoing }
    ensures out_after { out.new ≡ sets out.old 0 (mail outgoing) }
{
    let mut lengths = [0usize; 16];
    let mut at = 0;
    for p in 0..book::MOST_PROCESSES {
        let size = put_to(outgoing, p, &mut out[at..]);
        lengths[p] = size;
        at += size;
    }
    lengths
}

// The messages of a step, if they fit (question 17): rising by receiver, from the buffer's start. The answer is the length for
// each process.
pub fn send(outgoing: Outgoing, out: &mut [u8]) -> Result<[usize; 16], Question>
    ensures answer { by_number result ≡ answer_with (room_question outgoing out.old) (lengths outgoing) }
    ensures out_after { out.new ≡ sent_bytes (room_question outgoing out.old) outgoing out.old }
{
    let size = mail_size(outgoing);
    if out.len() < size {
        return Err(Question::Room);
    }
    let lengths = put_mail(outgoing, out);
    Ok(lengths)
}
