// The bodies of a script as the marking machine finds them: a table of eight numbers for each, and the types that it sees.

#![tactic(auto)]

ghost use Rattle.std.specs.Prelude.{◌≡◌, get_or};
ghost use Rattle.table_bodies.specs.Table.{clip, Clips};

use table_list::at;

// How many numbers a body's line in the table has.
pub const LINE_LENGTH: usize = 8;

// How many bodies a script has at most: those of 32 procedures, and main's.
const MOST_BODIES: usize = 33;

// How many numbers the table has.
pub const TABLE_LENGTH: usize = LINE_LENGTH * MOST_BODIES;

// The place of type i as a body sees it that knows n types: 0 of a later one.
// Kept: the contract names the number that is read where nothing stands: `get_or .. 0` of the law; an Option would be asked for it at each call.
#[tactic(auto, using(crate::proofs::Clipping::read_laws))]
fn clipped(types: &[u32], n: u32, i: usize) -> u32
    ensures { result ≡ get_or (clip n types.now) i 0 }
{
    if i < n as usize { at(types, i) } else { 0 }
}

// The places of the first n types; those of later ones are 0.
#[tactic(auto, using(crate::proofs::Clipping::clip_laws))]
pub fn clip_types(types: &[u32], n: u32, to: &mut [u32])
    ensures { Clips types.now n to.old to.new }
{
    for (i, place) in to.iter_mut().enumerate() {
        *place = clipped(types, n, i);
    }
}
