// The labels of an arm: none is past the integers.
ghost use Rattle.rule_restrictions.specs.ArmParts.{LabelBefore, SomePart, Labelled, AfterLabels};

use rule_constants::plain_part;
use text_parts::end_at;
use text_skips::skip;

// A part of an arm: none is left; the last one, its statement; a label (the offset after it); or a label past the integers.
// Kept: an Option or a Result is no plainer, since each of the four answers has its own way on.
#[derive(Clone, Copy)]
pub enum ArmPart {
    Missing,
    Last,
    Label(usize),
    Bad,
}

// An arm's statement, after its labels; a label past the integers; or the arm is no arm.
// Kept: a Result of an Option is no plainer, since what is no arm breaks no rule and is no arm's statement either.
#[derive(Clone, Copy)]
pub enum AfterArm {
    Stmt(usize),
    Broken,
    Nothing,
}

// The part of an arm before q, where that is not its end.
fn label_at(text: &[u8], at: usize, q: usize) -> ArmPart
    ensures { LabelBefore text.now at q result }
{
    if plain_part(text, at) {
        ArmPart::Label(q)
    } else {
        ArmPart::Bad
    }
}

// The part of an arm at an offset, where there is one.
fn some_part(text: &[u8], at: usize) -> ArmPart
    ensures { SomePart text.now at result }
{
    let q = skip(text, at);
    let e = end_at(text, q);
    match e {
        Some(_) => ArmPart::Last,
        None => label_at(text, at, q),
    }
}

// The part of an arm at an offset.
fn arm_part(text: &[u8], at: usize) -> ArmPart
    ensures { Labelled text.now at result }
{
    let e = end_at(text, at);
    match e {
        Some(_) => ArmPart::Missing,
        None => some_part(text, at),
    }
}

// Past the labels of an arm, from past its head word on.
pub fn after_labels(text: &[u8], at: usize) -> AfterArm
    ensures { AfterLabels text.now at result }
{
    let mut p = at;
    loop {
        let x = arm_part(text, p);
        match x {
            ArmPart::Missing => {
                return AfterArm::Nothing;
            }
            ArmPart::Last => {
                return AfterArm::Stmt(p);
            }
            ArmPart::Label(q) => {
                p = q;
            }
            ArmPart::Bad => {
                return AfterArm::Broken;
            }
        }
    }
}
