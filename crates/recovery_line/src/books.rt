// Books: read, check, write.
ghost use Rattle.std.specs.Prelude.{◌≡◌};
ghost use Rattle.recovery_line.specs.Books.{read_answer, read_shape, read_sent, read_received, check_answer, write_answer, write_out, write_length};

use book::Counter;

// A book's bytes into the tables, with its shape.
pub fn recovery_line_read(
    bytes: &[u8],
    shape: &mut [u64],
    sent: &mut [Counter],
    received: &mut [Counter],
) -> u32
    ensures value { result ≡ read_answer bytes.now shape.old sent.old received.old }
    ensures shape_after { shape.new ≡ read_shape bytes.now shape.old sent.old received.old }
    ensures sent_after { sent.new ≡ read_sent bytes.now shape.old sent.old received.old }
    ensures received_after { received.new ≡ read_received bytes.now shape.old sent.old received.old }
{
    let question = crate::shape_question(shape.len());
    if question != 0 {
        return question;
    }
    match reader::read(bytes, sent, received) {
        Ok(taken) => {
            words::put_shape(taken, shape);
            0
        }
        Err(question) => question.number(),
    }
}

// The questions of lent tables.
pub fn recovery_line_check(shape: &[u64], sent: &[Counter], received: &[Counter]) -> u32
    ensures { result ≡ check_answer shape.now sent.now received.now }
{
    let question = crate::shape_question(shape.len());
    if question != 0 {
        return question;
    }
    let given = words::shape_in(shape);
    match tables::check(given, sent, received) {
        Ok(()) => 0,
        Err(question) => question.number(),
    }
}

// The book of the tables to the start of a buffer, and its length.
pub fn recovery_line_write(
    shape: &[u64],
    sent: &[Counter],
    received: &[Counter],
    out: &mut [u8],
    length: &mut u64,
) -> u32
    ensures value { result ≡ write_answer shape.now sent.now received.now out.old }
    ensures out_after { out.new ≡ write_out shape.now sent.now received.now out.old }
    ensures length_after { length.new ≡ write_length shape.now sent.now received.now out.old length.old }
{
    let question = crate::shape_question(shape.len());
    if question != 0 {
        return question;
    }
    let given = words::shape_in(shape);
    match writer::write(given, sent, received, out) {
        Ok(bytes) => {
            *length = words::of_number(bytes);
            0
        }
        Err(question) => question.number(),
    }
}
