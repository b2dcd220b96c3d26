// Places, 40 to 42. A part is the place of its node, a bound its 32 bits.

// A whole variable: its first cell.
pub const CELL: u32 = 40;

// An element: the array's place, the index, its bounds, the element's size.
pub const INDEX: u32 = 41;

// A field: the record's place, the field's offset.
pub const SHIFT: u32 = 42;
