// The working list: numbers at places, numbers laid at the free place, and the list left as document 01 says.

// Kept (6): nodes and entries are numbers at the free place of the lent working list: fixed memory and no heap, as document 01 has it.

#![tactic(auto)]

ghost use Rattle.std.specs.Prelude.{◌≡◌, [], ◌∷◌, ◌≤◌, length, get_or, set};
ghost use Rattle.code.specs.Layout.{lay as laid};
ghost use Rattle.law.specs.Whole.{work_after};
ghost use Rattle.table_list.specs.Laid.{Laid};

// How many numbers of a working list are used; refusal 1 is for one that is "shorter than 16,384".
pub const WORK_LENGTH: usize = 16384;

// The same as a place: one past the last.
const WORK_END: u32 = WORK_LENGTH as u32;

// How many bytes a text has at most; refusal 2 is for a "text over 32,768 bytes".
pub const TEXT_LENGTH: usize = 32768;

// The number at a place, 0 past the end.
// Kept: the contract names the number that is read where nothing stands: `get_or .. 0` of the law; an Option would be asked for it at each call.
#[tactic(auto, using(crate::proofs::Laying::at_past))]
pub fn at(work: &[u32], p: usize) -> u32
    ensures { result ≡ get_or work.now p 0 }
{
    if p < work.len() { work[p] } else { 0 }
}

// Sets the number at a place; past the end nothing is set.
#[tactic(auto, using(crate::proofs::Laying::put_past))]
pub fn put(work: &mut [u32], p: usize, n: u32)
    ensures { work.new ≡ set work.old p n }
{
    if p < work.len() {
        work[p] = n;
    }
}

// Numbers at the free place, if there is room; the free place then.
#[tactic(auto, using(crate::proofs::Laying::lay_laws))]
pub fn lay(work: &mut [u32], top: u32, ns: &[u32]) -> u32
    ensures { Laid (laid ns.now top work.old) result work.new }
{
    if ns.len() > WORK_LENGTH {
        return top;
    }
    let width = ns.len() as u32;
    if top > WORK_END - width {
        return top;
    }
    let p = top as usize;
    for (i, x) in ns.iter().enumerate() {
        put(work, p + i, *x);
    }
    top + width
}

// A slot for the first link of a chain, none yet; the free place then.
pub fn slot(work: &mut [u32], top: u32) -> u32
    ensures { Laid (laid (0 ∷ []) top work.old) result work.new }
{
    lay(work, top, &[0])
}

// Leaves the list as every call must: the first 16,384 numbers are 0, or all if there are fewer.
pub fn clear(work: &mut [u32])
    ensures { work.new ≡ work_after work.old }
{
    let n = work.len().min(WORK_LENGTH);
    work[..n].fill(0);
}
