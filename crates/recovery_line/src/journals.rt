// The exported call that takes a journal (document 02, E1).
ghost use Rattle.std.specs.Prelude.{◌≡◌};
ghost use Rattle.recovery_line.specs.Journals.{journal_answer, journal_shape, journal_sent, journal_received};

use book::Counter;

// The book that a journal builds into the tables, with its shape.
pub fn recovery_line_journal(
    bytes: &[u8],
    shape: &mut [u64],
    sent: &mut [Counter],
    received: &mut [Counter],
) -> u32
    ensures value { result ≡ journal_answer bytes.now shape.old sent.old received.old }
    ensures shape_after { shape.new ≡ journal_shape bytes.now shape.old sent.old received.old }
    ensures sent_after { sent.new ≡ journal_sent bytes.now shape.old sent.old received.old }
    ensures received_after { received.new ≡ journal_received bytes.now shape.old sent.old received.old }
{
    let question = crate::shape_question(shape.len());
    if question != 0 {
        return question;
    }
    match journal_reader::read(bytes, sent, received) {
        Ok(taken) => {
            words::put_shape(taken, shape);
            0
        }
        Err(question) => question.number(),
    }
}
