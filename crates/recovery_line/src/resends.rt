// Lists of what to send again: write the list of the tables' restart order, read a list.
ghost use Rattle.std.specs.Prelude.{◌≡◌};
ghost use Rattle.recovery_line.specs.Resends.{write_resend_answer, write_resend_out, write_resend_length, read_resend_answer, read_resend_list};

use book::Counter;
use words::layout;

// The list of the tables' restart order to the start of a buffer, and its length.
pub fn recovery_line_write_resend(
    shape: &[u64],
    sent: &[Counter],
    received: &[Counter],
    purpose: u64,
    out: &mut [u8],
    length: &mut u64,
) -> u32
    ensures value { result ≡ write_resend_answer shape.now sent.now received.now purpose out.old }
    ensures out_after { out.new ≡ write_resend_out shape.now sent.now received.now purpose out.old }
    ensures length_after { length.new ≡ write_resend_length shape.now sent.now received.now purpose out.old length.old }
{
    let question = crate::shape_question(shape.len());
    if question != 0 {
        return question;
    }
    let given = words::shape_in(shape);
    match resend_writer::write(given, sent, received, purpose, out) {
        Ok(bytes) => {
            *length = words::of_number(bytes);
            0
        }
        Err(question) => question.number(),
    }
}

// A list among n processes from its bytes.
pub fn recovery_line_read_resend(n: u64, bytes: &[u8], resend: &mut [u64]) -> u32
    ensures value { result ≡ read_resend_answer n bytes.now resend.old }
    ensures resend_after { resend.new ≡ read_resend_list n bytes.now resend.old }
{
    if resend.len() != layout::RESEND_WORDS {
        return crate::WRONG_LENGTH;
    }
    match resend_reader::read(words::number(n), bytes) {
        Ok(list) => {
            words::put_resend(list, resend, 0);
            0
        }
        Err(question) => question.number(),
    }
}
