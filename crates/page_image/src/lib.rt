//! The memory that an image describes, before a hart's first step.
//!
//! In come an image's pieces and the range of RAM. Out comes a memory that is never written: each
//! address has the image's byte, or 0 (`byte_of` and `with_zeros`, `specs/Bytes.antt`). It has
//! pages (`Page`, `specs/Pages.antt`).
#![tactic(auto)]

mod image;
mod near_pages;
mod page;
mod page_numbers;
mod shared_page;

pub use image::PageImage;
pub use page::Page;
pub use page_numbers::{PAGES, PageNumbers};
pub use shared_page::SharedPage;
