// Sets and the line: test a set, test one checkpoint, find the line.
ghost use Rattle.std.specs.Prelude.{◌≡◌};
ghost use Rattle.recovery_line.specs.Lines.{test_answer, test_pair, column_answer, column_partner, find_answer, find_line, find_passed};

use book::Counter;

// Is a set consistent? The first pair at fault, or zeros.
#[unsafe(no_mangle)]
pub extern "C" fn recovery_line_test_set(
    shape: &[u64],
    sent: &[Counter],
    received: &[Counter],
    set: &[u64],
    pair: &mut [u64],
) -> u32
    ensures value { result ≡ test_answer shape.now sent.now received.now set.now pair.old }
    ensures pair_after { pair.new ≡ test_pair shape.now sent.now received.now set.now pair.old }
{
    recovery_line::lines::recovery_line_test_set(shape, sent, received, set, pair)
}

// Has a checkpoint received more than is known to be sent to its process? The lowest partner that shows it, or zero.
#[unsafe(no_mangle)]
pub extern "C" fn recovery_line_test_checkpoint(
    shape: &[u64],
    sent: &[Counter],
    received: &[Counter],
    process: u64,
    checkpoint: u64,
    known: &[Counter],
    partner: &mut u64,
) -> u32
    ensures value { result ≡ column_answer shape.now sent.now received.now process checkpoint known.now }
    ensures partner_after { partner.new ≡ column_partner shape.now sent.now received.now process checkpoint known.now partner.old }
{
    recovery_line::lines::recovery_line_test_checkpoint(
        shape, sent, received, process, checkpoint, known, partner,
    )
}

// The line, and T.
#[unsafe(no_mangle)]
pub extern "C" fn recovery_line_find(
    shape: &[u64],
    sent: &[Counter],
    received: &[Counter],
    line: &mut [u64],
    passed: &mut u64,
) -> u32
    ensures value { result ≡ find_answer shape.now sent.now received.now line.old }
    ensures line_after { line.new ≡ find_line shape.now sent.now received.now line.old }
    ensures passed_after { passed.new ≡ find_passed shape.now sent.now received.now line.old passed.old }
{
    recovery_line::lines::recovery_line_find(shape, sent, received, line, passed)
}
