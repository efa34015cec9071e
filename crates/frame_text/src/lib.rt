// The text of frames: what is read of it, and the lines that are printed.
//
// `reading` asks question 11, and takes a text that passes it apart into a side, a level and an outline. `printing` puts the line of the edge count and the
// root, those of the greys, or that of a refusal, over the start of a slice. `hex` has the digits of both.
#![tactic(auto)]

mod hex;
pub mod printing;
pub mod reading;

// The longest text that is a frame. A caller that reads one byte more can tell a text that is too long.
pub const TEXT_LIMIT: usize = 16384;
