// Moves: move the line, and the restart order alone.
ghost use Rattle.std.specs.Prelude.{◌≡◌};
ghost use Rattle.recovery_line.specs.Moves.{move_answer, move_shape, move_sent, move_received, move_order};

use book::Counter;
use words::layout;

// The line moved in the tables, with the restart order.
pub fn recovery_line_move(
    shape: &mut [u64],
    sent: &mut [Counter],
    received: &mut [Counter],
    purpose: u64,
    order: &mut [u64],
) -> u32
    ensures value { result ≡ move_answer shape.old sent.old received.old purpose order.old }
    ensures shape_after { shape.new ≡ move_shape shape.old sent.old received.old purpose order.old }
    ensures sent_after { sent.new ≡ move_sent shape.old sent.old received.old purpose order.old }
    ensures received_after { received.new ≡ move_received shape.old sent.old received.old purpose order.old }
    ensures order_after { order.new ≡ move_order shape.old sent.old received.old purpose order.old }
{
    let question = crate::two_question(shape.len(), order.len(), layout::ORDER_WORDS);
    if question != 0 {
        return question;
    }
    let given = words::shape_in(shape);
    match moves::move_line(given, sent, received, purpose) {
        Ok(moved) => {
            words::put_shape(moved.shape, shape);
            words::put_order(moved.order, order);
            0
        }
        Err(question) => question.number(),
    }
}

// The restart order, and nothing moved.
pub fn recovery_line_restart_order(
    shape: &[u64],
    sent: &[Counter],
    received: &[Counter],
    purpose: u64,
    order: &mut [u64],
) -> u32
    ensures value { result ≡ move_answer shape.now sent.now received.now purpose order.old }
    ensures order_after { order.new ≡ move_order shape.now sent.now received.now purpose order.old }
{
    let question = crate::two_question(shape.len(), order.len(), layout::ORDER_WORDS);
    if question != 0 {
        return question;
    }
    let given = words::shape_in(shape);
    match plans::restart_order(given, sent, received, purpose) {
        Ok(restart) => {
            words::put_order(restart, order);
            0
        }
        Err(question) => question.number(),
    }
}
