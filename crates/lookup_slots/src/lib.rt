// The slots of an index beside a catalog: the hash of a key, and how many slots an index uses. Not in the Rust, whose HashMap does both.
#![tactic(auto)]

ghost use Rattle.std.specs.Prelude.{◌≡◌, ◌+◌, ◌%◌, ◌^◌, ◌<◌, ◌≤◌, length};
ghost use Rattle.text.specs.Bytes.{within, all};
ghost use Rattle.lookup_slots.specs.Used.{used};
ghost use Rattle.lookup_slots.specs.Promise.{Hashes, room_in};
ghost use Rattle.lookup_slots.specs.Private.{word_at, Masks, Polys, Lowers, IsPlain};

// The hash of a text, and whether the text has no byte below 5. The one who does not ask for the second does not pay for it: the compiler leaves it out.
#[derive(Clone, Copy)]
pub struct Hash {
    pub value: usize,
    pub plain: bool,
}

// The hash of the bytes after those whose hash is `start`, byte after byte.
fn hash_bytes(start: usize, s: &[u8]) -> usize
    requires { start < 4294967296 }
    ensures { Hashes start s.now result }
{
    let mut h = start;
    for &b in s {
        h = (h * 33 + usize::from(b)) % 4294967296;
    }
    h
}

// Eight bytes as a number, from its lowest byte on.
fn word(s: &[u8], i: usize) -> usize
    requires { i + 8 ≤ length s.now }
    ensures { result ≡ word_at s.now i }
{
    usize::from(s[i])
        + usize::from(s[i + 1]) * 256
        + usize::from(s[i + 2]) * 65536
        + usize::from(s[i + 3]) * 16777216
        + usize::from(s[i + 4]) * 4294967296
        + usize::from(s[i + 5]) * 1099511627776
        + usize::from(s[i + 6]) * 281474976710656
        + usize::from(s[i + 7]) * 72057594037927936
}

// Of four pairs of bytes the first of each.
fn evens(x: usize) -> usize
    ensures { Masks x 71777214294589695 result }
{
    x & 71777214294589695
}

// Of four fields of 16 bits the first and the third.
fn halves(x: usize) -> usize
    ensures { Masks x 281470681808895 result }
{
    x & 281470681808895
}

// What eight bytes add to a hash, before the remainder: by pairs, fours, eights, side by side in one word.
fn poly(x: usize) -> usize
    ensures { Polys x result }
{
    let pairs = evens(x) * 33 + evens(x / 256);
    let fours = halves(pairs) * 1089 + halves(pairs / 65536);
    fours % 4294967296 * 1185921 + fours / 4294967296
}

// 33 to the power of so many bytes, modulo 2^32.
fn power(r: usize) -> usize
    requires { (0 < r) × (r ≤ 8) }
    ensures { result ≡ (33 ^ r) % 4294967296 }
{
    match r {
        1 => 33,
        2 => 1089,
        3 => 35937,
        4 => 1185921,
        5 => 39135393,
        6 => 1291467969,
        7 => 3963737313,
        _ => 1954312449,
    }
}

// The least byte at each of the eight places of a word, over the words that were seen. They are kept side by side, so that the machine takes them at once.
#[derive(Clone, Copy)]
struct Least {
    a: u8,
    b: u8,
    c: u8,
    d: u8,
    e: u8,
    f: u8,
    g: u8,
    h: u8,
}

// The same with eight bytes more.
fn least_at(z: Least, s: &[u8], i: usize) -> Least
    requires { i + 8 ≤ length s.now }
    ensures { Lowers z s.now i result }
{
    Least {
        a: z.a.min(s[i]),
        b: z.b.min(s[i + 1]),
        c: z.c.min(s[i + 2]),
        d: z.d.min(s[i + 3]),
        e: z.e.min(s[i + 4]),
        f: z.f.min(s[i + 5]),
        g: z.g.min(s[i + 6]),
        h: z.h.min(s[i + 7]),
    }
}

fn is_plain(z: Least) -> bool
    ensures { IsPlain z result }
{
    let p = z.a.min(z.b).min(z.c.min(z.d));
    let q = z.e.min(z.f).min(z.g.min(z.h));
    5 <= p.min(q)
}

// The hash of the bytes after those whose hash is `start`, and whether all of them are 5 or more. The first one to eight bytes come first, so that whole words are
// left; the word comes round the loop, so that its load stays whole.
pub fn hash_plain(start: usize, s: &[u8]) -> Hash
    requires { start < 4294967296 }
    ensures value { Hashes start s.now result.value }
    ensures plain { result.plain ≡ all (within (5, 255)) s.now }
{
    let n = s.len();
    if n < 8 {
        return Hash {
            value: hash_bytes(start, s),
            plain: text::all_within(s, 5, 255),
        };
    }
    let none = Least {
        a: 255,
        b: 255,
        c: 255,
        d: 255,
        e: 255,
        f: 255,
        g: 255,
        h: 255,
    };
    let mut h = start;
    let mut i = (n - 1) % 8 + 1;
    let mut factor = power(i);
    let mut cut = 64 - 8 * i;
    let mut x = word(s, 0);
    let mut least = least_at(none, s, 0);
    loop {
        h = ((h * factor) % 4294967296 + poly(x << cut)) % 4294967296;
        if n <= i {
            return Hash {
                value: h,
                plain: is_plain(least),
            };
        }
        x = word(s, i);
        least = least_at(least, s, i);
        i += 8;
        factor = 1954312449;
        cut = 0;
    }
}

// The hash alone.
pub fn hash_from(start: usize, s: &[u8]) -> usize
    requires { start < 4294967296 }
    ensures { Hashes start s.now result }
{
    let r = hash_plain(start, s);
    r.value
}

// The slots that an index of so many entries uses: the smallest power of two that is at least twice as many. Twice the largest count has 33 bits.
pub fn used_by(count: u32) -> usize
    ensures { result ≡ used count }
{
    let twice = 2 * count as usize;
    twice.next_power_of_two()
}

// The same, unless fewer are lent.
pub fn room_for(count: u32, lent: usize) -> Option<usize>
    ensures { result ≡ room_in count lent }
{
    let size = used_by(count);
    if lent < size {
        return None;
    }
    Some(size)
}
