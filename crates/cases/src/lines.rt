// The lines of the file of cases.
ghost use Rattle.std.specs.Prelude.{◌≤◌, ◌<◌, length};

use host_input::line_end;

// The start of the line after the one at p.
pub(crate) fn line_after(text: &[u8], p: usize) -> usize
    requires { p < length text.now }
    ensures { (p < result) × (result ≤ length text.now) }
{
    let q = line_end(text, p);
    if q < text.len() { q + 1 } else { q }
}

// Whether a line is the sign between a script and what is expected of it.
fn signs(line: &[u8]) -> bool {
    line.starts_with(b"=\n")
}

// Whether a case begins with a line.
fn heads(line: &[u8]) -> bool {
    line.starts_with(b"run ")
        || line.starts_with(b"cut ")
        || line.starts_with(b"short ")
        || line.starts_with(b"drive ")
        || line.starts_with(b"mark ")
}

// The first line from p on that is such a one.
fn line_from<F: Fn(&[u8]) -> bool>(text: &[u8], p: usize, is_one: F) -> usize
    requires at { p ≤ length text.now }
    requires called { F.IsAlwaysCallable is_one }
    ensures { (p ≤ result) × (result ≤ length text.now) }
{
    let mut q = p;
    while q < text.len() && !is_one(&text[q..]) {
        q = line_after(text, q);
    }
    q
}

// The first line from p on that is the sign between a script and what is expected of it.
pub(crate) fn sign_from(text: &[u8], p: usize) -> usize
    requires { p ≤ length text.now }
    ensures { (p ≤ result) × (result ≤ length text.now) }
{
    line_from(text, p, signs)
}

// The first line from p on that begins a case.
pub(crate) fn case_from(text: &[u8], p: usize) -> usize
    requires { p ≤ length text.now }
    ensures { (p ≤ result) × (result ≤ length text.now) }
{
    line_from(text, p, heads)
}
