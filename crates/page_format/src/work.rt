//! The buffers for the work on pages.
ghost use Rattle.std.specs.Prelude.{◌≡◌};
ghost use Rattle.ssd_model.specs.Page.{zero_page};

use ssd_model::PageBuf;

/// Four buffers of a page each, for whoever works on pages.
#[derive(Drop)]
pub struct Work {
    /// The page last checked.
    pub page: PageBuf,
    /// The left one of two neighbours.
    pub left: PageBuf,
    /// The right one of two neighbours.
    pub right: PageBuf,
    /// A page that is compared with another.
    pub spare: PageBuf,
}

impl Work {
    /// Four buffers of zeros.
    pub fn new() -> Work
        ensures page { result.page ≡ zero_page }
        ensures left { result.left ≡ zero_page }
        ensures right { result.right ≡ zero_page }
        ensures spare { result.spare ≡ zero_page }
    {
        Work {
            page: PageBuf::zero(),
            left: PageBuf::zero(),
            right: PageBuf::zero(),
            spare: PageBuf::zero(),
        }
    }

    /// The page last checked.
    pub fn page(&self) -> &PageBuf
        ensures { result.now ≡ self.now.page }
    {
        &self.page
    }
}
