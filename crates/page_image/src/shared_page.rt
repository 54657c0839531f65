//! A page that several places share.

ghost use Rattle.std.specs.Prelude.{◌≡◌};

use crate::page::Page;
use std::alloc::{AllocError, Global};
use std::sync::Arc;

/// A page that several places share. Nobody changes it any more.
#[derive(Drop)]
pub struct SharedPage {
    page: Arc<Page>,
}

impl Clone for SharedPage {
    ghost use Rattle.std.specs.Prelude.{◌≡◌};

    ghost is_clone = { λ shared other. other.page.value ≡ shared.page.value };

    fn clone(&self) -> Result<SharedPage, AllocError> {
        Ok(SharedPage {
            page: self.page.clone()?,
        })
    }
}

impl SharedPage {
    ghost use Rattle.std.specs.Prelude.{◌≡◌, IfOk};

    /// The page, at one place yet.
    pub(crate) fn of(alloc: Global, page: Page) -> Result<SharedPage, AllocError>
        ensures { IfOk result (λ shared. shared.page.value ≡ page) }
    {
        Ok(SharedPage {
            page: Arc::new(alloc, page)?,
        })
    }

    /// The page.
    pub fn page(&self) -> &Page
        ensures { result.now ≡ self.now.page.value }
    {
        &self.page
    }
}
