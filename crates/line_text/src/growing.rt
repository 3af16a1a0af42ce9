// The text while it grows.
ghost use Rattle.std.specs.Prelude.{◌≤◌};

use book::Checkpoint;

// Room for the longest text: sixteen checkpoint numbers, four other numbers, each of at most 20 digits, and the words.
pub const ROOM: usize = 512;

// The first `len` bytes are the text.
#[derive(Clone, Copy)]
pub struct Text {
    pub bytes: [u8; ROOM],
    pub len: usize,
    ghost inside: { len ≤ 512 },
}

impl Text {
    ghost use Rattle.std.specs.Prelude.{◌≡◌, [], ◌∷◌, ◌+◌, ◌<◌, length};
    ghost use Rattle.line_text.specs.Text.{decimal, spaced, labelled, checkpoint_numbers, first_lines};
    ghost use Rattle.line_text.specs.Parts.{Grown};

    pub fn empty() -> Text
        ensures { result.len ≡ 0 }
    {
        Text {
            bytes: [0; ROOM],
            len: 0,
        }
    }

    // One byte more.
    fn push(&mut self, b: u8)
        requires { self.old.len < 512 }
        ensures { Grown self.old self.new (b ∷ []) }
    {
        self.bytes[self.len] = b;
        self.len += 1;
    }

    // The bytes of a word more.
    fn word(&mut self, w: &[u8])
        requires { self.old.len + length w.now ≤ 512 }
        ensures { Grown self.old self.new w.now }
    {
        let end = self.len + w.len();
        self.bytes[self.len..end].copy_from_slice(w);
        self.len = end;
    }

    // The digits of a number more: those of a tenth of it, and its last digit.
    fn number(&mut self, v: u64)
        requires { self.old.len + length (decimal v) ≤ 512 }
        ensures { Grown self.old self.new (decimal v) }
    {
        let last = 48 + (v % 10) as u8;
        if v < 10 {
            self.push(last);
            return;
        }
        self.number(v / 10);
        self.push(last);
    }

    // A space and a number more.
    fn spaced(&mut self, v: u64)
        requires { self.old.len ≤ 491 }
        ensures { Grown self.old self.new (spaced v) }
    {
        self.push(b' ');
        self.number(v);
    }

    // A line more: a word, a space and a number.
    pub fn labelled(&mut self, w: &[u8], v: u64)
        requires { self.old.len + length w.now ≤ 490 }
        ensures { Grown self.old self.new (labelled w.now v) }
    {
        self.word(w);
        self.spaced(v);
        self.push(b'\n');
    }

    // The checkpoint numbers of the first n processes more, a space before each.
    fn checkpoint_numbers(&mut self, n: usize, set: [Checkpoint; 16])
        requires { (n ≤ 16) × (self.old.len ≤ 176) }
        ensures { Grown self.old self.new (checkpoint_numbers n set) }
    {
        for j in 0..n {
            self.spaced(set[j].0 as u64);
        }
    }

    // The number of processes and the line more, a line each.
    pub fn first_lines(&mut self, n: usize, set: [Checkpoint; 16])
        requires { (n ≤ 16) × (self.old.len ≤ 140) }
        ensures { Grown self.old self.new (first_lines n set) }
    {
        self.labelled(b"processes", n as u64);
        self.word(b"line");
        self.checkpoint_numbers(n, set);
        self.push(b'\n');
    }
}
