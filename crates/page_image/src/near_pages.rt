//! Pages that are found by their place, with no search.

ghost use Rattle.std.specs.Prelude.{◌≡◌, ◌+◌, ◌<◌, ◌≤◌, ℕ, IfOk, length};
ghost use Rattle.page_image.specs.Pages.{page_at, page_in, page_of};

use crate::shared_page::SharedPage;
use hart_words::NoMemory;
use std::alloc::Global;
use std::collections::HashMap;

/// The pages of the numbers from one on and before another, each at its place. A page stands at no
/// other place than its own.
pub(crate) fn near_pages(
    alloc: Global,
    pages: &HashMap<u64, SharedPage>,
    lowest: u64,
    end: u64,
) -> Result<Vec<Option<SharedPage>>, NoMemory>
    ensures { IfOk result (λ near. (place : ℕ) → place < length near.items
        → page_in near.items place ≡ page_at pages.now (lowest + place)) }
{
    let mut near = Vec::new(alloc);
    for number in lowest..end {
        near.push(page_again(pages, number)?)?;
    }
    Ok(near)
}

/// The page of a number, shared once more.
fn page_again(pages: &HashMap<u64, SharedPage>, number: u64) -> Result<Option<SharedPage>, NoMemory>
    ensures { IfOk result (λ page. page_of page ≡ page_at pages.now number) }
{
    match pages.get(&number) {
        Some(page) => Ok(Some(page.clone()?)),
        None => Ok(None),
    }
}
