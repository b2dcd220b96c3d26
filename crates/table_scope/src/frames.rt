// The parameters of a procedure, by the place of its body's node: the node's fifth number is the place of the frame, 0 for none. A frame begins with
// the first parameter's cell and the parameters' count; right before it stand their types.
ghost use Rattle.std.specs.Prelude.{◌≡◌, ◌+◌, get_or};
ghost use Rattle.table_scope.specs.Frames.{framed, frame_at, frame_in};

use table_list::at;

// The most parameters of a procedure, "up to 8 value parameters".
pub const MOST_PARAMETERS: u32 = 8;

// How many there are, the place of their types, and the first one's cell.
#[derive(Clone, Copy)]
pub struct Frame {
    pub count: u32,
    pub types: u32,
    pub base: u32,
}

// A frame from its parts.
fn frame_by(count: u32, types: u32, base: u32) -> Frame
    ensures { result ≡ framed count types base }
{
    Frame { count, types, base }
}

// The frame at a place, of n parameters.
#[tactic(auto, using(crate::proofs::FrameWays::at_laws))]
fn frame_at(work: &[u32], f: u32, n: u32) -> Frame
    ensures { result ≡ frame_at work.now f n }
{
    if n > f {
        frame_by(0, 0, 0)
    } else {
        frame_by(n, f - n, at(work, f as usize))
    }
}

// The frame of the procedure whose body's node stands at a place.
#[tactic(auto, using(crate::proofs::FrameWays::in_laws))]
pub fn frame_of(work: &[u32], place: u32) -> Frame
    ensures { result ≡ frame_in work.now place }
{
    let f = at(work, place as usize + 4);
    if f == 0 {
        frame_by(0, 0, 0)
    } else {
        frame_at(work, f, at(work, f as usize + 1))
    }
}

// The type of parameter j.
pub fn parameter_type(work: &[u32], x: Frame, j: u32) -> u32
    ensures { result ≡ get_or work.now (x.types + j) 0 }
{
    at(work, x.types as usize + j as usize)
}
