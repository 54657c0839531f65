//! The pages of an image by their number.

ghost use Rattle.std.specs.Prelude.{◌≡◌, ◌+◌, ◌*◌, ◌<◌, ◌≤◌, ℕ, Decides, IfOk, length};
ghost use Rattle.std.specs.BTreeMap.{btree_map_len};
ghost use Rattle.page_image.specs.declared.image.TheConstants.{NEAR, NEAR_A_PAGE};
ghost use Rattle.page_image.specs.PageNumbers.{has_number};
ghost use Rattle.page_image.specs.Pages.{IsNonzero, byte_or_zero, page_at, page_in};

use crate::near_pages::near_pages;
use crate::page::Page;
use crate::page_numbers::PageNumbers;
use crate::shared_page::SharedPage;
use hart_words::{NoMemory, PAGE_SIZE, Span};
use image_text::Pieces;
use std::alloc::Global;
use std::collections::HashMap;

/// How many pages from the lowest on are found by their place: so many, and some more for each page
/// that is there. So the list of them stays small beside the pages.
const NEAR: u64 = 4096;

const NEAR_A_PAGE: u64 = 4;

/// The bytes of RAM before the first step: those of an image, and 0 elsewhere.
#[derive(Drop)]
pub struct PageImage {
    ram: Span,
    pages: HashMap<u64, SharedPage>,
    /// The number of the page at the first place.
    lowest: u64,
    /// The pages of the numbers from that one on. Nearly all reads are of these, and need no search.
    near: Vec<Option<SharedPage>>,
    /// The numbers of those that hold a byte other than 0.
    nonzero: PageNumbers,
    ghost listed: { (number : ℕ) → Decides (has_number nonzero number) (IsNonzero (page_at pages number)) },
    ghost placed: { (place pa : ℕ) → place < length near.items
        → byte_or_zero (page_in near.items place) pa
        ≡ byte_or_zero (page_at pages (lowest + place)) pa },
}

impl PageImage {
    ghost use Rattle.std.specs.Prelude.{◌≡◌, ◌/◌, ◌%◌, ℕ, IfOk, IfSome, option_copied};
    ghost use Rattle.image_text.specs.Bytes.{byte_at};
    ghost use Rattle.hart_words.specs.declared.span.TheConstants.{PAGE_SIZE};
    ghost use Rattle.page_image.specs.Pages.{byte_among, byte_or_zero, page_at, page_of};
    ghost use Rattle.page_image.specs.Bytes.{byte_of, with_zeros};
    ghost use Rattle.page_image.specs.NextPages.{FindsNextPage};

    /// The memory in which each address has the byte that the pieces have there, or 0.
    #[tactic(auto, unfolding(crate::specs::Bytes::byte_of))]
    pub fn build(alloc: Global, pieces: &Pieces, ram: Span) -> Result<PageImage, NoMemory>
        ensures bytes { IfOk result (λ image. byte_of image ≡ with_zeros (byte_at pieces.now)) }
        ensures ram { IfOk result (λ image. image.ram ≡ ram) }
    {
        let pages = Self::pages_of(alloc, pieces)?;
        let nonzero = nonzero_numbers(alloc, &pages)?;
        let (lowest, end) = near_numbers(pieces);
        let near = near_pages(alloc, &pages, lowest, end)?;
        Ok(PageImage {
            ram,
            pages,
            lowest,
            near,
            nonzero,
        })
    }

    /// The pages of pieces by their number.
    fn pages_of(alloc: Global, pieces: &Pieces) -> Result<HashMap<u64, SharedPage>, NoMemory>
        ensures { IfOk result (λ pages. byte_among pages ≡ with_zeros (byte_at pieces.now)) }
    {
        let mut pages = HashMap::new(alloc);
        for (number, page) in pieces.pages().iter() {
            let page = Page::of(page.plain());
            pages.insert(*number, SharedPage::of(alloc, page)?)?;
        }
        Ok(pages)
    }

    /// The pages by their number.
    pub fn pages(&self) -> &HashMap<u64, SharedPage>
        ensures { result.now ≡ self.now.pages }
    {
        &self.pages
    }

    /// The page of a number, if the image has it: the addresses that divided by 4,096 give it.
    #[tactic(auto, unfolding(crate::specs::Bytes::byte_of))]
    pub fn page(&self, number: u64) -> Option<&Page>
        ensures { (pa : ℕ) → pa / PAGE_SIZE ≡ number
            → byte_of self.now pa ≡ byte_or_zero (option_copied result) pa }
    {
        match self.near_page(number) {
            Some(Some(shared)) => Some(shared.page()),
            Some(None) => None,
            None => self.far_page(number),
        }
    }

    /// What stands at the place of a number, where it has one.
    fn near_page(&self, number: u64) -> Option<&Option<SharedPage>>
        ensures { IfSome result (λ found. (pa : ℕ) → byte_or_zero (page_of found.now) pa
            ≡ byte_or_zero (page_at self.now.pages number) pa) }
    {
        let place = number.checked_sub(self.lowest)?;
        self.near.get(place as usize)
    }

    /// The page of a number, wherever it lies.
    fn far_page(&self, number: u64) -> Option<&Page>
        ensures { option_copied result ≡ page_at self.now.pages number }
    {
        let shared = self.pages.get(&number)?;
        Some(shared.page())
    }

    /// The byte at an address.
    pub fn byte(&self, pa: u64) -> u8
        ensures { result ≡ byte_of self.now pa }
    {
        match self.page(pa / PAGE_SIZE) {
            Some(page) => page.byte(pa),
            None => 0,
        }
    }

    /// The addresses that are RAM.
    pub fn ram(&self) -> Span
        ensures { result ≡ self.now.ram }
    {
        self.ram
    }

    /// The address of the first page at or after `from` that holds a byte other than 0.
    pub fn next_page(&self, from: u64) -> Option<u64>
        requires { from % PAGE_SIZE ≡ 0 }
        ensures { FindsNextPage (byte_of self.now) from result }
    {
        match self.nonzero.next(from / PAGE_SIZE) {
            Some(number) => Some(number * PAGE_SIZE),
            None => None,
        }
    }
}

/// The number of the first page of pieces, and one above the last that is to be found by its place.
/// There are few between them, however far apart the pages are.
fn near_numbers(pieces: &Pieces) -> (u64, u64)
    ensures few { result.1 ≤ result.0 + (NEAR + NEAR_A_PAGE * btree_map_len pieces.now.pages) }
{
    let pages = pieces.pages();
    let most = (pages.len() as u64)
        .saturating_mul(NEAR_A_PAGE)
        .saturating_add(NEAR);
    match (pages.first_key_value(), pages.last_key_value()) {
        (Some((first, _)), Some((last, _))) => {
            (
                *first,
                last.saturating_add(1).min(first.saturating_add(most)),
            )
        }
        _ => (0, 0),
    }
}

/// The numbers of the pages that hold a byte other than 0.
fn nonzero_numbers(alloc: Global, pages: &HashMap<u64, SharedPage>) -> Result<PageNumbers, NoMemory>
    ensures { IfOk result (λ nonzero. (number : ℕ)
        → Decides (has_number nonzero number) (IsNonzero (page_at pages.now number))) }
{
    let mut nonzero = PageNumbers::none(alloc);
    for (number, page) in pages.iter() {
        if !page.page().is_zero() {
            nonzero.add(*number)?;
        }
    }
    Ok(nonzero)
}
