//! Where a run starts.

use hart_step::Core;
use page_image::PageImage;

/// Harts before their first step, and the image of their memory.
#[derive(Drop)]
pub struct Start {
    pub image: PageImage,
    pub cores: Vec<Core>,
}
