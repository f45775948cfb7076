//! Streams: an input taken line by line, and bytes written whole.
//!
//! A layer without any knowledge of what the lines say. Reading takes no memory but two buffers of a fixed
//! size, made before the first read; writing takes none. What is proved of readers and writers holds for
//! every way in which they cut their bytes into pieces.
#![tactic(auto)]

mod buffer;
mod laws;
mod line;
mod write;

pub use buffer::{LineBuffer, READ_LENGTH, ReadFault};
pub use laws::line_laws;
pub use line::Line;
pub use write::{WriteFault, write_whole};
