// Lines of the text, and the passes over their bytes: refused bytes (row 3), brackets (row 4).
ghost use Rattle.std.specs.Prelude.{◌≡◌, ◌<◌, ◌≤◌, drop};
ghost use Rattle.law.specs.Lines.{refused_at};
ghost use Rattle.law.specs.Trees.{before, inside, past, opened, closed, spelled};
ghost use Rattle.text_lines.specs.Passes.{line_of, is_refused, feeds, place_of, is_after_now, balanced_from, after_line};

use leaf_bytes::bytes::{Class, class_of};

// Where a byte of a line stands, for row 4.
// Kept: the states of row 4's automaton, of which `Faulty` is one like the others; a Result is no plainer.
#[derive(Clone, Copy)]
pub enum Standing {
    Before,
    Inside(u32), // so many brackets are open inside the outermost
    After,
    Faulty,
}

// Whether a byte of class k is refused.
fn is_refused(k: Class) -> bool
    ensures { result ≡ is_refused k }
{
    matches!(k, Class::Refused)
}

// The line feeds up to a byte of class k, where there were n before it.
#[tactic(auto, using(crate::proofs::LinePasses::feeds_laws))]
fn feeds_after(k: Class, n: usize) -> usize
    requires { n < 18446744073709551615 }
    ensures { result ≡ feeds k n }
{
    match k {
        Class::Feed => n + 1,
        _ => n,
    }
}

// Row 3: the line of the first refused byte.
pub fn refused_line(text: &[u8]) -> Option<usize>
    ensures { result ≡ line_of (refused_at 1 text.now) }
{
    let mut n = 0;
    for p in 0..text.len() {
        let k = class_of(text[p]);
        if is_refused(k) {
            return Some(n + 1);
        }
        n = feeds_after(k, n);
    }
    None
}

// How many brackets may be open around the innermost: "Bracket depth is at most 32".
const INNERMOST: u32 = 31;

// One bracket more.
#[tactic(auto, using(crate::proofs::Standings::deeper_laws))]
fn deeper(n: u32) -> Standing
    ensures { place_of result ≡ opened (inside n) }
{
    if n < INNERMOST {
        Standing::Inside(n + 1)
    } else {
        Standing::Faulty
    }
}

// One bracket fewer.
#[tactic(auto, using(crate::proofs::Standings::shallower_laws))]
fn shallower(n: u32) -> Standing
    ensures { place_of result ≡ closed (inside n) }
{
    if n == 0 {
        Standing::After
    } else {
        Standing::Inside(n - 1)
    }
}

// Past an opening bracket.
#[tactic(auto, using(crate::proofs::Standings::open_laws))]
fn past_open(q: Standing) -> Standing
    ensures { place_of result ≡ opened (place_of q) }
{
    match q {
        Standing::Before => Standing::Inside(0),
        Standing::Inside(n) => deeper(n),
        Standing::After | Standing::Faulty => Standing::Faulty,
    }
}

// Past a closing bracket.
#[tactic(auto, using(crate::proofs::Standings::close_laws))]
fn past_close(q: Standing) -> Standing
    ensures { place_of result ≡ closed (place_of q) }
{
    match q {
        Standing::Inside(n) => shallower(n),
        Standing::Before | Standing::After | Standing::Faulty => Standing::Faulty,
    }
}

// Past a byte of a word.
#[tactic(auto, using(crate::proofs::Standings::spell_laws))]
fn past_word(q: Standing) -> Standing
    ensures { place_of result ≡ spelled (place_of q) }
{
    match q {
        Standing::Inside(n) => Standing::Inside(n),
        Standing::Before | Standing::After | Standing::Faulty => Standing::Faulty,
    }
}

// Past a byte of class k.
#[tactic(auto, using(crate::proofs::Standings::byte_laws))]
fn past_byte(k: Class, q: Standing) -> Standing
    ensures { place_of result ≡ past k (place_of q) }
{
    match k {
        Class::Space => q,
        Class::Open => past_open(q),
        Class::Close => past_close(q),
        Class::Visible => past_word(q),
        Class::Feed | Class::Refused => Standing::Faulty,
    }
}

// Whether the form has ended.
fn is_after(q: Standing) -> bool
    ensures { result ≡ is_after_now q }
{
    matches!(q, Standing::After)
}

// Row 4: whether the line at `at` is one balanced form with a line feed at its end.
pub fn balance(text: &[u8], at: usize) -> bool
    ensures { result ≡ balanced_from (drop at text.now) before }
{
    let mut q = Standing::Before;
    for p in at..text.len() {
        if text[p] == 10 {
            return is_after(q);
        }
        q = past_byte(class_of(text[p]), q);
    }
    false
}

// The offset after the line that `at` is in.
pub fn next_line(text: &[u8], at: usize) -> usize
    ensures { (drop result text.now ≡ after_line (drop at text.now)) × (at ≤ result) }
{
    for p in at..text.len() {
        if text[p] == 10 {
            return p + 1;
        }
    }
    at.max(text.len())
}
