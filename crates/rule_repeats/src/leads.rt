// The names with which the parts of a form begin: a word itself, or the first word of a form.
ghost use Rattle.std.specs.Prelude.{◌≡◌};
ghost use Rattle.rule_repeats.specs.Leads.{lead_by, LeadsIn, Nexts};

use crate::keys::{Keyed, key_at};
use text_skips::past_form;
use text_words::sight::{Sight, look};

// A name's offset, and its key.
#[derive(Clone, Copy)]
pub struct Lead {
    pub at: usize,
    pub low: u32,
    pub high: u32,
}

// A name at an offset from its key.
fn lead_at(at: usize, k: Keyed) -> Lead
    ensures { result ≡ lead_by at k }
{
    Lead {
        at: at,
        low: k.low,
        high: k.high,
    }
}

// The offset of the word with which the parts at an offset begin; the text's end where they begin with none.
#[tactic(auto, using(crate::proofs::LeadParts::in_laws))]
fn lead_in(text: &[u8], at: usize) -> usize
    ensures { LeadsIn text.now at result }
{
    match look(text, at) {
        Sight::Leaf(p) => p,
        _ => text.len(),
    }
}

// The name with which the part at an offset begins, and the offset after the part; `None` where no part is left.
#[tactic(auto, using(crate::proofs::LeadParts::next_laws))]
pub fn next_name(text: &[u8], at: usize) -> Option<(Lead, usize)>
    ensures { Nexts text.now at result }
{
    match look(text, at) {
        Sight::Form(p) => {
            let y = lead_in(text, p);
            let k = key_at(text, y);
            Some((lead_at(y, k), past_form(text, p)))
        }
        Sight::Leaf(p) => {
            let k = key_at(text, p);
            Some((lead_at(p, k), k.next))
        }
        Sight::Shut(_) => None,
    }
}
