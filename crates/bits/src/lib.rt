// Fields of bits in bytes: fields follow one another without a gap, most significant bit first, and
// bit 0 is the most significant of the first byte. A field is told by its place, `bytes, at` and `width`: who reads or
// writes on keeps a place of its own.
#![tactic(auto)]

mod place;
pub mod reading;
pub mod writing;
