// What a walk over expressions looks into.
use table_scope::Scope;

// The text, the tables of names and types, and what is known on the line. Its methods are in `words` and `walk`.
#[derive(Clone, Copy)]
pub struct Tables<'a> {
    pub text: &'a [u8],
    pub work: &'a [u32],
    pub types: &'a [u32],
    pub scope: Scope,
}
