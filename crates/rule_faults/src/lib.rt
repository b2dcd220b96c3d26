// The fault that a part of a line has, the lower of two, and the answer that a walk over a part gives.

#![tactic(auto)]

ghost use Rattle.std.specs.Prelude.{◌≡◌};
ghost use Rattle.rule_faults.specs.Got.{lowest as lowest_of, is_form, is_clear, failed_got};

// A fault that a part of a line has: of row 8, 7 or 6, or none; the lower row is the greater.
#[derive(Clone, Copy, PartialEq, Eq, PartialOrd, Ord)]
pub enum Fault {
    Clear,
    Kind,
    Name,
    Form,
}

// The answer for a part: its fault; with no fault its kind (a target's type, also where that is known behind a fault of row 8) and the
// place of its code; where the next part stands, and the free place.
// Kept: behind a fault of row 7 or 8 the walk goes on at `next` and `top`, and a target's kind is known; a Result would have them on both sides.
#[derive(Clone, Copy)]
pub struct Got {
    pub fault: Fault,
    pub kind: u32,
    pub place: u32,
    pub next: usize,
    pub top: u32,
}

// Whether it is a fault of row 6, which ends the walk.
pub fn is_form(f: Fault) -> bool
    ensures { result ≡ is_form f }
{
    f == Fault::Form
}

// Whether there is no fault.
pub fn is_clear(f: Fault) -> bool
    ensures { result ≡ is_clear f }
{
    f == Fault::Clear
}

// The fault of the lower row.
pub fn lowest(f: Fault, g: Fault) -> Fault
    ensures { result ≡ lowest_of f g }
{
    f.max(g)
}

// An answer that is a fault; the kind matters of targets alone.
pub fn failed(fault: Fault, kind: u32, next: usize, top: u32) -> Got
    ensures { result ≡ failed_got fault kind next top }
{
    Got {
        fault,
        kind,
        place: 0,
        next,
        top,
    }
}
