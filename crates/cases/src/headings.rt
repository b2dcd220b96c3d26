// The heading of a case: its word, the budget, and the numbers of the lent store.
ghost use Rattle.std.specs.Prelude.{◌≤◌, ◌<◌, length};

// The byte at p, a line feed past the end.
pub(crate) fn byte_at(text: &[u8], p: usize) -> u8 {
    if p < text.len() { text[p] } else { b'\n' }
}

// A number with one more digit; one of eighteen digits stays.
fn and_digit(n: u64, b: u8) -> u64
    requires { n < 1000000000000000000 }
    ensures { result < 1000000000000000000 }
{
    if n < 100000000000000000 && b.is_ascii_digit() {
        n * 10 + digit_of(b)
    } else {
        n
    }
}

// The number that a digit is.
// Kept: a byte of the file is no `str`, and `parse` would want one: no heap and no copy.
fn digit_of(b: u8) -> u64
    ensures { result < 10 }
{
    (b as u64 + 2) % 10
}

// The number whose digits stand from p on.
// Kept: it stops where the digits end; a `take_while` with a `fold` would want the sum's bound in its closure: no plainer.
pub(crate) fn number_at(text: &[u8], p: usize) -> u64
    ensures { result < 1000000000000000000 }
{
    let mut n = 0;
    let mut q = p;
    while q < text.len() && text[q].is_ascii_digit() {
        n = and_digit(n, text[q]);
        q += 1;
    }
    n
}

// The integer that stands at p.
fn integer_at(text: &[u8], p: usize) -> i64 {
    if p < text.len() && text[p] == b'-' {
        negative(number_at(text, p + 1))
    } else {
        positive(number_at(text, p))
    }
}

// A number as an integer.
fn positive(n: u64) -> i64
    requires { n < 1000000000000000000 }
{
    n as i64
}

// The integer so far below 0.
fn negative(n: u64) -> i64
    requires { n < 1000000000000000000 }
{
    0 - n as i64
}

// The budget that stands at p.
pub(crate) fn budget_at(text: &[u8], p: usize) -> u32 {
    u32::try_from(number_at(text, p)).unwrap_or(u32::MAX)
}

// The mark that stands at p.
fn mark_at(text: &[u8], p: usize) -> u8 {
    u8::try_from(number_at(text, p)).unwrap_or(u8::MAX)
}

// The word after the one at p on its line; the line's end if there is none.
// Kept: nothing says that p is within the text, so a `position` in `text[p..]` would want a test before it: no plainer.
pub(crate) fn word_after(text: &[u8], p: usize) -> usize {
    let mut q = p;
    while q < text.len() && text[q] != b'\n' {
        if text[q] == b' ' {
            return q + 1;
        }
        q += 1;
    }
    q
}

// Sets a number of the store; past the end nothing is set.
fn set_at<T: Copy>(list: &mut [T], i: usize, x: T) {
    if i < list.len() {
        list[i] = x;
    }
}

// Puts the numbers from p on into the store, value and mark by turns; how many numbers there were, at most 4096.
pub(crate) fn lend(text: &[u8], p: usize, values: &mut [i64], marks: &mut [u8]) -> usize {
    let mut q = p;
    for n in 0..4096 {
        if byte_at(text, q) == b'\n' {
            return n;
        }
        if n % 2 == 0 {
            set_at(values, n / 2, integer_at(text, q));
        } else {
            set_at(marks, n / 2, mark_at(text, q));
        }
        q = word_after(text, q);
    }
    4096
}
