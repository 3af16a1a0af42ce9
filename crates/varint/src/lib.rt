#![tactic(auto)]
// Seven-bit numbers (document 01, "The book"): groups of seven bits, lowest group first, one group a byte; the
// byte's top bit is set when another group follows. Only the shortest form is a number.
ghost use Rattle.std.specs.Prelude.{◌≡◌, ◌+◌, ◌≤◌, ◌<◌, length};
ghost use Rattle.std.proofs.lemmas.List.Edits.{sets};
ghost use Rattle.varint.specs.Ending.{Ending, ended_by};
ghost use Rattle.varint.specs.Number.{encode, read_number};
ghost use Rattle.varint.specs.Write.{place_after, number_put};

// The number at a place and the place after it, in at most `groups` groups and at most `limit`: none where it is not whole, not
// shortest, of too many groups or too large. Nine groups are the most that a `u64` holds.
pub fn read_number(s: &[u8], at: usize, groups: u32, limit: u64) -> Option<(u64, usize)>
    requires { groups ≤ 9 }
    ensures { result ≡ read_number groups limit s.now at }
{
    let mut value: u64 = 0;
    let mut shift: u32 = 0;
    let mut i = at;
    for k in 0..groups {
        if s.len() <= i {
            return None;
        }
        let b = u64::from(s[i]);
        if b < 128 {
            if b == 0 && 0 < k {
                return None;
            }
            let v = value | (b << shift);
            if limit < v {
                return None;
            }
            return Some((v, i + 1));
        }
        value = value | ((b & 127) << shift);
        shift += 7;
        i += 1;
    }
    None
}

// The last group, above `shift` bits that make `value`: not zero where groups went before, and the number within the limit.
// `read_number` says it for itself: with a call here its loop compiles to more instructions.
fn ended(shift: u32, limit: u64, value: u64, b: u64, next: usize) -> Option<(u64, usize)>
    requires { Ending shift value b }
    ensures { result ≡ ended_by shift limit value b next }
{
    if b == 0 && 0 < shift {
        return None;
    }
    let v = value | (b << shift);
    if limit < v {
        return None;
    }
    Some((v, next))
}

// A number of at most five groups, where five bytes are left: `read_number` without its loop, for readers of many numbers.
fn read_five(s: &[u8], at: usize, limit: u64) -> Option<(u64, usize)>
    requires { at + 5 ≤ length s.now }
    ensures { result ≡ read_number 5 limit s.now at }
{
    let b0 = u64::from(s[at]);
    if b0 < 128 {
        return ended(0, limit, 0, b0, at + 1);
    }
    let v0 = b0 & 127;
    let b1 = u64::from(s[at + 1]);
    if b1 < 128 {
        return ended(7, limit, v0, b1, at + 2);
    }
    let v1 = v0 | ((b1 & 127) << 7);
    let b2 = u64::from(s[at + 2]);
    if b2 < 128 {
        return ended(14, limit, v1, b2, at + 3);
    }
    let v2 = v1 | ((b2 & 127) << 14);
    let b3 = u64::from(s[at + 3]);
    if b3 < 128 {
        return ended(21, limit, v2, b3, at + 4);
    }
    let v3 = v2 | ((b3 & 127) << 21);
    let b4 = u64::from(s[at + 4]);
    if b4 < 128 {
        return ended(28, limit, v3, b4, at + 5);
    }
    None
}

// The number at a place, in at most five groups and at most `limit`.
pub fn read_short(s: &[u8], at: usize, limit: u64) -> Option<(u64, usize)>
    ensures { result ≡ read_number 5 limit s.now at }
{
    if 5 <= s.len() && at <= s.len() - 5 {
        return read_five(s, at, limit);
    }
    read_number(s, at, 5, limit)
}

// How many bytes a number takes.
pub fn size_of(v: u64) -> usize
    ensures { result ≡ length (encode v) }
{
    let mut rest = v;
    let mut n: usize = 1;
    // Not a `for`: how many turns there are is what is asked.
    while 128 <= rest {
        rest = rest >> 7;
        n += 1;
    }
    n
}

// The number's bytes written at a place, for a caller that has made sure of the room; it returns the place after them.
pub fn put_number(v: u64, out: &mut [u8], at: usize) -> usize
    requires { at + length (encode v) ≤ length out.old }
    ensures next { result ≡ at + length (encode v) }
    ensures bytes { out.new ≡ sets out.old at (encode v) }
{
    let mut left = v;
    let mut i = at;
    // Not a `for`: it would have to know the number's size first.
    while 128 <= left {
        out[i] = ((left & 127) | 128) as u8;
        left = left >> 7;
        i += 1;
    }
    out[i] = left as u8;
    i + 1
}

// The number's bytes written at a place, where there is room for them: the place after them, none where there is no room and nothing
// was written.
pub fn write_number(v: u64, out: &mut [u8], at: usize) -> Option<usize>
    ensures answer { result ≡ place_after v out.old at }
    ensures bytes { out.new ≡ number_put v out.old at }
{
    let n = size_of(v);
    if out.len() < at {
        return None;
    }
    if out.len() - at < n {
        return None;
    }
    let next = put_number(v, out, at);
    Some(next)
}
