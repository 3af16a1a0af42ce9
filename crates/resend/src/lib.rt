#![tactic(auto)]
// Lists of what to send again (document 02, E5): definitions alone. The value is restart's `Resend`; the calls are in the crates above.
