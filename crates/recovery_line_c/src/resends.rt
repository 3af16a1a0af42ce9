// Lists of what to send again: write the list of the tables' restart order, read a list.
ghost use Rattle.std.specs.Prelude.{◌≡◌};
ghost use Rattle.recovery_line.specs.Resends.{write_resend_answer, write_resend_out, write_resend_length, read_resend_answer, read_resend_list};

use book::Counter;

// The list of the tables' restart order to the start of a buffer, and its length.
#[unsafe(no_mangle)]
pub extern "C" fn recovery_line_write_resend(
    shape: &[u64],
    sent: &[Counter],
    received: &[Counter],
    purpose: u64,
    out: &mut [u8],
    length: &mut u64,
) -> u32
    ensures value { result ≡ write_resend_answer shape.now sent.now received.now purpose out.old }
    ensures out_after { out.new ≡ write_resend_out shape.now sent.now received.now purpose out.old }
    ensures length_after { length.new ≡ write_resend_length shape.now sent.now received.now purpose out.old length.old }
{
    recovery_line::resends::recovery_line_write_resend(shape, sent, received, purpose, out, length)
}

// A list among n processes from its bytes.
#[unsafe(no_mangle)]
pub extern "C" fn recovery_line_read_resend(n: u64, bytes: &[u8], resend: &mut [u64]) -> u32
    ensures value { result ≡ read_resend_answer n bytes.now resend.old }
    ensures resend_after { resend.new ≡ read_resend_list n bytes.now resend.old }
{
    recovery_line::resends::recovery_line_read_resend(n, bytes, resend)
}
