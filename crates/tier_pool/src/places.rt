//! Where a page lies, and which page lies where, as the map says it.
ghost use Rattle.std.specs.Prelude.{◌≡◌, ◌<◌, IfSome, Some};
ghost use Rattle.store_model.specs.Layout.{pages};
ghost use Rattle.nvm_layout.specs.Sizes.{sizes_of};
ghost use Rattle.tier_pool.specs.Fields.{parts_of};
ghost use Rattle.tier_pool.specs.Places.{IsPlace};

use crate::pool::TierPool;
use tier_map::Place;

impl TierPool {
    /// The place of the page's copy.
    #[tactic(auto, using(crate::proofs::RangeLaws::place_in))]
    pub fn place(&self, page: u64) -> Place
        requires { page < pages (sizes_of self.now.geometry) }
        ensures place { result ≡ (parts_of self.now).map.place page }
        ensures within { IsPlace (parts_of self.now).plan result }
    {
        self.map.place(page)
    }

    /// The page's frame, if it has one.
    #[tactic(auto, using(crate::proofs::RangeLaws::nvm_in))]
    pub fn frame(&self, page: u64) -> Option<u32>
        requires { page < pages (sizes_of self.now.geometry) }
        ensures frame { result ≡ (parts_of self.now).map.nvm page }
        ensures within { IfSome result (λ k. k < self.now.geometry.frames) }
    {
        self.map.nvm(page)
    }

    /// The page in a frame, if there is one.
    #[tactic(auto, using(crate::proofs::RangeLaws::owner_in))]
    pub(crate) fn frame_page(&self, frame: u32) -> Option<u64>
        requires { frame < self.now.geometry.frames }
        ensures page { result ≡ (parts_of self.now).map.frame_page frame }
        ensures within { IfSome result (λ page. page < pages (sizes_of self.now.geometry)) }
        ensures placed { IfSome result (λ page. (parts_of self.now).map.nvm page ≡ Some frame) }
    {
        self.map.frame_page(frame)
    }

    /// The page whose full copy is in a place, if there is one.
    #[tactic(auto, using(crate::proofs::RangeLaws::full_page_in))]
    pub fn full_page(&self, full: u32) -> Option<u64>
        requires { full < self.now.policy.dram_frames }
        ensures page { result ≡ (parts_of self.now).map.full_page full }
        ensures within { IfSome result (λ page. page < pages (sizes_of self.now.geometry)) }
    {
        self.map.full_page(full)
    }

    /// The page whose mini copy is in a place, if there is one.
    #[tactic(auto, using(crate::proofs::RangeLaws::mini_owner_in))]
    pub fn mini_owner(&self, mini: u32) -> Option<u64>
        requires { mini < self.now.policy.minis }
        ensures page { result ≡ (parts_of self.now).map.mini_owner mini }
        ensures within { IfSome result (λ page. page < pages (sizes_of self.now.geometry)) }
    {
        self.map.mini_owner(mini)
    }
}
