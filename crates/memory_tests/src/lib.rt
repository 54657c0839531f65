//! Examples of memory images, of memory, of its protection and of its page tables.
//!
//! The crate has tests alone, and stands above the crates of memory. In come texts of images, ELF
//! files, writes, entries of protection and page tables; out come the bytes that memory holds, the
//! first fault of a text, whether an access is allowed, and where an address leads. The expected
//! values are from the standards.
#![tactic(auto)]

#[cfg(test)]
mod elf_files;
#[cfg(test)]
mod image_texts;
#[cfg(test)]
mod layers;
#[cfg(test)]
mod pages;
#[cfg(test)]
mod protection;
#[cfg(test)]
mod walks;
