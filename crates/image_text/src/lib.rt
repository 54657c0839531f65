//! A Verilog memory text of bytes, as `$readmemh` reads it (IEEE Std 1364, "Loading memory data
//! from a file").
//!
//! In comes a text and the range of RAM. Out come the bytes and where they stand, or the first
//! fault with its line: what `image_of` (`specs/Image.antt`) gives over the text's tokens
//! (`specs/Tokens.antt`).
#![tactic(auto)]

mod fault;
mod image;
mod pieces;
mod tokens;
mod word;

pub use fault::{FaultKind, ImageError, ImageFault};
pub use image::read_image;
pub use pieces::{PiecePage, Pieces};
