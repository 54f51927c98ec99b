// Fingerprints of names: where two differ, the names do. Numbers are quicker to compare than names.
ghost use Rattle.std.specs.Prelude.{◌≡◌, ◌+◌, ◌<◌, ◌≤◌, length};
ghost use Rattle.zone.specs.Survey.{folded, word_at, ends_of, fingerprint_words, among, mark_of, repeated};

use octets::word;

// The eight octets from a place on, without the bits that tell capital letters.
fn word(s: &[u8], i: usize) -> u64
    requires { i + 8 ≤ length s.now }
    ensures { result ≡ word_at s.now i }
{
    word::eight_caseless(
        s[i],
        s[i + 1],
        s[i + 2],
        s[i + 3],
        s[i + 4],
        s[i + 5],
        s[i + 6],
        s[i + 7],
    )
}

// A number of 64 bits in 32.
fn fold(x: u64) -> u32
    ensures { result ≡ folded x }
{
    ((x % 4294967296 + x / 4294967296 * 40503) % 4294967296) as u32
}

// The first four octets and the last four.
fn ends(s: &[u8]) -> u64
    requires { 4 ≤ length s.now }
    ensures { result ≡ ends_of s.now }
{
    let n = s.len();
    word::eight_caseless(
        s[0],
        s[1],
        s[2],
        s[3],
        s[n - 4],
        s[n - 3],
        s[n - 2],
        s[n - 1],
    )
}

// Of fewer than eight octets. Fewer than four, a name of one label of one octet, have none of their own.
fn of_short(s: &[u8]) -> u32
    requires { length s.now < 8 }
    ensures { result ≡ fingerprint_words s.now }
{
    if s.len() < 4 {
        return 0;
    }
    fold(ends(s))
}

// The most words that are summed up beside the last one.
const MOST_WORDS: usize = 15;

// Words of eight octets are summed up, and their running sums in turn, so that it matters where a word
// stands. The last word ends where the octets do, and may share some with the one before it. Of a name
// of more than 128 octets the first 120 and the last eight count.
pub fn fingerprint(s: &[u8]) -> u32
    ensures { result ≡ fingerprint_words s.now }
{
    if s.len() < 8 {
        return of_short(s);
    }
    let mut sum: u64 = 0;
    let mut sums: u64 = 0;
    let words = ((s.len() - 1) / 8).min(MOST_WORDS);
    for i in 0..words {
        let w = word(s, 8 * i);
        sum = sum.wrapping_add(w);
        sums = sums.wrapping_add(sum);
    }
    let last = word(s, s.len() - 8);
    fold(sums.wrapping_add(sum.wrapping_add(last)))
}

// Whether a fingerprint is one of these. There is no early way out, so that it compiles to vector code.
fn is_among(p: &[u32], x: u32) -> bool
    ensures { result ≡ among x p.now }
{
    p.iter().fold(false, |hit, y| hit | (*y == x))
}

// The mark of a fingerprint.
fn mark(x: u32) -> usize
    ensures { (result ≡ mark_of x) × (result < 1024) }
{
    (u64::from(x) * 2654435769 / 4194304 % 1024) as usize
}

// Whether two fingerprints are equal, each compared with those behind it.
fn few_repeat(p: &[u32]) -> bool
    ensures { result ≡ repeated p.now }
{
    let mut rest = p;
    while let Some((x, behind)) = rest.split_first() {
        if is_among(behind, *x) {
            return true;
        }
        rest = behind;
    }
    false
}

// The same by marks, for which many are worth it. Equal fingerprints have one mark: only where it is
// set already is a fingerprint compared with those behind it.
fn many_repeat(p: &[u32]) -> bool
    ensures { result ≡ repeated p.now }
{
    let mut seen = [false; 1024];
    for i in (0..p.len()).rev() {
        let x = p[i];
        let m = mark(x);
        if !seen[m] {
            seen[m] = true;
            continue;
        }
        if is_among(&p[i + 1..], x) {
            return true;
        }
    }
    false
}

// Whether two fingerprints are equal.
pub fn repeats(p: &[u32]) -> bool
    ensures { result ≡ repeated p.now }
{
    if p.len() < 8 {
        few_repeat(p)
    } else {
        many_repeat(p)
    }
}
