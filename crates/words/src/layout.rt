// How long each slice of words is, and where its parts stand: each begins where the one before it ends. The definitions are
// those of specs/, and include/recovery_line.h has the same names.
pub const SHAPE_COUNTS_AT: usize = 1;

pub const SHAPE_WORDS: usize = SHAPE_COUNTS_AT + book::MOST_PROCESSES;

pub const SET_WORDS: usize = book::MOST_PROCESSES;

pub const PAIR_WORDS: usize = 2;

pub const LENGTHS_WORDS: usize = book::MOST_PROCESSES;

// What to send again: the first messages, and the last ones.
pub const RESEND_LAST_AT: usize = matrix::ENTRIES;

pub const RESEND_WORDS: usize = RESEND_LAST_AT + matrix::ENTRIES;

// After the checkpoints restarted from: how many go before, how many after, and what to send again.
pub const ORDER_BEFORE_AT: usize = SET_WORDS;

pub const ORDER_AFTER_AT: usize = ORDER_BEFORE_AT + book::MOST_PROCESSES;

pub const ORDER_RESEND_AT: usize = ORDER_AFTER_AT + book::MOST_PROCESSES;

pub const ORDER_WORDS: usize = ORDER_RESEND_AT + RESEND_WORDS;

// A participant's state, n first.
pub const PARTICIPANT_PROCESS_AT: usize = 1;

pub const PARTICIPANT_INITIATOR_AT: usize = PARTICIPANT_PROCESS_AT + 1;

pub const PARTICIPANT_PURPOSE_AT: usize = PARTICIPANT_INITIATOR_AT + 1;

pub const PARTICIPANT_STAGE_AT: usize = PARTICIPANT_PURPOSE_AT + 1;

pub const PARTICIPANT_CANDIDATE_AT: usize = PARTICIPANT_STAGE_AT + 1;

pub const PARTICIPANT_ROW_AT: usize = PARTICIPANT_CANDIDATE_AT + 1;

pub const PARTICIPANT_COLUMN_AT: usize = PARTICIPANT_ROW_AT + book::MOST_PROCESSES;

pub const PARTICIPANT_WORDS: usize = PARTICIPANT_COLUMN_AT + book::MOST_PROCESSES;

// An initiator's state, n first.
pub const INITIATOR_PROCESS_AT: usize = 1;

pub const INITIATOR_PURPOSE_AT: usize = INITIATOR_PROCESS_AT + 1;

pub const INITIATOR_ENDED_AT: usize = INITIATOR_PURPOSE_AT + 1;

pub const INITIATOR_CANDIDATE_AT: usize = INITIATOR_ENDED_AT + 1;

pub const INITIATOR_ROUNDS_AT: usize = INITIATOR_CANDIDATE_AT + 1;

pub const INITIATOR_AWAITED_AT: usize = INITIATOR_ROUNDS_AT + 1;

pub const INITIATOR_MATRIX_AT: usize = INITIATOR_AWAITED_AT + book::MOST_PROCESSES;

pub const INITIATOR_COPY_AT: usize = INITIATOR_MATRIX_AT + matrix::ENTRIES;

pub const INITIATOR_WORDS: usize = INITIATOR_COPY_AT + matrix::ENTRIES;

// A session, n first: who the initiator is, the purpose, the initiator's words, the participants', how many bytes wait on each
// strand, and how many messages were delivered.
pub const SESSION_INITIATOR_AT: usize = 1;

pub const SESSION_PURPOSE_AT: usize = SESSION_INITIATOR_AT + 1;

pub const SESSION_MACHINE_AT: usize = SESSION_PURPOSE_AT + 1;

pub const SESSION_PARTICIPANTS_AT: usize = SESSION_MACHINE_AT + INITIATOR_WORDS;

pub const SESSION_LENGTHS_AT: usize = SESSION_PARTICIPANTS_AT
    + book::MOST_PROCESSES * PARTICIPANT_WORDS;

pub const SESSION_DELIVERED_AT: usize = SESSION_LENGTHS_AT + book::MOST_PROCESSES;

pub const SESSION_WORDS: usize = SESSION_DELIVERED_AT + 1;
