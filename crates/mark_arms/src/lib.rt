// The arm of a `case` that a value takes, as the marking machine finds it: labels are met in text order up to the match, and one of another kind sticks.

#![tactic(auto)]

ghost use Rattle.std.specs.Prelude.{◌≡◌, ◌+◌, ◌≤◌};
ghost use Rattle.mark_arms.specs.Arms.{Labels, Spots, Meets, EndsAt, EntersForm, Enters, Turns, Chooses};

use mark_counts::count_statements;
use rule_atoms::constant;
use rule_faults::is_clear;
use table_scope::Scope;
use text_heads::{ArmHead, arm_head};
use text_parts::{Part, end_at, part_at};
use text_skips::skip;

// A label: its kind and its value.
#[derive(Clone, Copy)]
pub struct Label {
    pub kind: u32,
    pub value: i64,
}

// The machine sticks, since a value meets a label of another kind.
#[derive(Clone, Copy)]
pub struct Stuck;

// An arm or an `else` by the offset after its head, or none is left.
// Kept: three ways on, none of them a failure: an Option of one of two offsets is no plainer.
#[derive(Clone, Copy)]
pub enum Entry {
    Labelled(usize),
    Other(usize),
    Over,
}

// What the arm at an offset says: its statement is taken; there is none; it sticks; or the next arm stands at an offset.
#[derive(Clone, Copy)]
pub enum Turn {
    Taken(usize),
    Absent,
    Stuck,
    On(usize),
}

// The arm that a value takes: the offset of its statement and the number of the last statement before it.
#[derive(Clone, Copy)]
pub enum Arm {
    Taken(usize, u32),
    Absent,
    Stuck,
}

// The label at an offset. `(- #80000000)` is the only constant past the integers.
fn label_at(text: &[u8], work: &[u32], scope: Scope, at: usize) -> Label
    ensures { Labels text.now work.now scope at result }
{
    let v = constant(text, work, scope, at);
    let f = v.fault;
    if is_clear(f) {
        return Label {
            kind: v.kind,
            value: v.value,
        };
    }
    Label {
        kind: 0,
        value: 2147483648,
    }
}

// The offset of the next part, if a label stands at an offset in an arm: a part that is not the last.
fn spot_at(text: &[u8], at: usize) -> Option<usize>
    ensures { Spots text.now at result }
{
    let e = end_at(text, at);
    match e {
        Some(_) => None,
        None => {
            let q = skip(text, at);
            let f = end_at(text, q);
            match f {
                Some(_) => None,
                None => Some(q),
            }
        }
    }
}

// Whether z, of a kind, is a label of the arm whose labels begin at an offset.
fn fit_at(
    text: &[u8],
    work: &[u32],
    scope: Scope,
    kind: u32,
    z: i64,
    at: usize,
) -> Result<bool, Stuck>
    ensures { Meets text.now work.now scope kind z at result }
{
    let mut p = at;
    while let Some(q) = spot_at(text, p) {
        let v = label_at(text, work, scope, p);
        if v.kind != kind {
            return Err(Stuck);
        }
        if v.value == z {
            return Ok(true);
        }
        p = q;
    }
    Ok(false)
}

// The offset of an arm's last part, its statement.
fn last_part(text: &[u8], at: usize) -> usize
    ensures { EndsAt text.now at result }
{
    let mut p = at;
    while let Some(q) = spot_at(text, p) {
        p = q;
    }
    p
}

// Into the form whose parts begin at an offset.
fn entry_in(text: &[u8], at: usize) -> Entry
    ensures { EntersForm text.now at result }
{
    match part_at(text, at) {
        Part::Leaf(w, _, q) => {
            let h = arm_head(w);
            match h {
                ArmHead::Arm => Entry::Labelled(q),
                ArmHead::Else => Entry::Other(q),
                ArmHead::Nothing => Entry::Over,
            }
        }
        _ => Entry::Over,
    }
}

// Into the arm at an offset.
fn entry_at(text: &[u8], at: usize) -> Entry
    ensures { Enters text.now at result }
{
    match part_at(text, at) {
        Part::Form(p) => entry_in(text, p),
        _ => Entry::Over,
    }
}

// What the arm at an offset says of z, which is of a kind.
fn turn_at(text: &[u8], work: &[u32], scope: Scope, kind: u32, z: i64, at: usize) -> Turn
    ensures { Turns text.now work.now scope kind z at result }
{
    let e = entry_at(text, at);
    match e {
        Entry::Labelled(q) => {
            let Ok(hit) = fit_at(text, work, scope, kind, z, q) else {
                return Turn::Stuck;
            };
            if hit {
                Turn::Taken(last_part(text, q))
            } else {
                Turn::On(skip(text, at))
            }
        }
        Entry::Other(q) => Turn::Taken(q),
        Entry::Over => Turn::Absent,
    }
}

// The number k after n, as far as there are numbers.
pub fn later(n: u32, k: usize) -> u32
    ensures { n + k ≤ 4294967295 → result ≡ n + k }
{
    if k > 4294967295 {
        return n;
    }
    let m = n as usize + k;
    if m > 4294967295 {
        return n;
    }
    m as u32
}

// The arm that z, of a kind, takes among those from an offset on; n is the number of the last statement before them.
pub fn choose_arm(
    text: &[u8],
    work: &[u32],
    scope: Scope,
    kind: u32,
    z: i64,
    n: u32,
    at: usize,
) -> Arm
    ensures { Chooses text.now work.now scope kind z n at result }
{
    let mut p = at;
    let mut m = n;
    loop {
        let t = turn_at(text, work, scope, kind, z, p);
        match t {
            Turn::Taken(q) => {
                return Arm::Taken(q, m);
            }
            Turn::Absent => {
                return Arm::Absent;
            }
            Turn::Stuck => {
                return Arm::Stuck;
            }
            Turn::On(q) => {
                m = later(m, count_statements(text, p));
                p = q;
            }
        }
    }
}
