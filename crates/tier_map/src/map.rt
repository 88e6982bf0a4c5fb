//! The map of all pages, kept in both directions.
ghost use Rattle.std.specs.Prelude.{◌≡◌, ◌<◌, ℕ, IfOk, None, Some, length, replicate, slice_index_or, slice_set};
ghost use Rattle.tier_map.specs.Placement.{Agrees, nothing_placed, with_full, with_mini, with_nvm, without_dram, without_nvm};
ghost use Rattle.tier_map.specs.Tables.{shown, nowhere};

use crate::place::{PagePlaces, Place};
use nvm_model::NoMemory;
use std::alloc::Global;

/// Of each page its places, and of each full place, mini place and NVM frame its page. Contracts see it by `placement_of`
/// and `sizes_of`. The two directions agree.
#[derive(Drop)]
pub struct TierMap {
    pages: Vec<PagePlaces>,
    fulls: Vec<Option<u64>>,
    minis: Vec<Option<u64>>,
    frames: Vec<Option<u64>>,
    ghost agrees: { Agrees (shown pages.items fulls.items minis.items frames.items) },
}

/// The copy of a page in DRAM becomes this one.
fn put_place(pages: &mut [PagePlaces], page: usize, place: Place)
    requires { page < length pages.old }
    ensures { let before = slice_index_or pages.old page nowhere in
        pages.new ≡ slice_set pages.old page (record before { place = place }) }
{
    pages[page].place = place;
}

/// The NVM frame of a page becomes this one.
fn put_frame(pages: &mut [PagePlaces], page: usize, frame: Option<u32>)
    requires { page < length pages.old }
    ensures { let before = slice_index_or pages.old page nowhere in
        pages.new ≡ slice_set pages.old page (record before { nvm = frame }) }
{
    pages[page].nvm = frame;
}

/// The page of a place becomes this one.
fn put_page(owners: &mut [Option<u64>], place: usize, page: Option<u64>)
    requires { place < length owners.old }
    ensures { owners.new ≡ slice_set owners.old place page }
{
    owners[place] = page;
}

/// So many places without a page.
fn free_places(alloc: Global, count: usize) -> Result<Vec<Option<u64>>, NoMemory>
    ensures { IfOk result (λ owners. owners.items ≡ replicate count None) }
{
    Ok(vec![in alloc; None; count]?)
}

/// So many pages that lie nowhere.
fn unplaced_pages(alloc: Global, count: usize) -> Result<Vec<PagePlaces>, NoMemory>
    ensures { IfOk result (λ made. made.items ≡ replicate count nowhere) }
{
    let nowhere = PagePlaces {
        place: Place::Absent,
        nvm: None,
    };
    Ok(vec![in alloc; nowhere; count]?)
}

impl TierMap {
    ghost use Rattle.tier_map.specs.Contents.{placement_of, sizes_of};

    /// A map of so many pages, full places, mini places and NVM frames, with nothing placed: 16 bytes each. `NoMemory`
    /// where they are not to be had.
    pub fn new(
        alloc: Global,
        pages: u64,
        full: u32,
        minis: u32,
        frames: u32,
    ) -> Result<TierMap, NoMemory>
        ensures placement { IfOk result (λ map. placement_of map ≡ nothing_placed) }
        ensures sizes { IfOk result (λ map.
            sizes_of map ≡ record { pages = pages; fulls = full; minis = minis; frames = frames }) }
    {
        Ok(TierMap {
            pages: unplaced_pages(alloc, pages as usize)?,
            fulls: free_places(alloc, full as usize)?,
            minis: free_places(alloc, minis as usize)?,
            frames: free_places(alloc, frames as usize)?,
        })
    }

    /// The copy of a page in DRAM.
    pub fn place(&self, page: u64) -> Place
        requires { page < (sizes_of self.now).pages }
        ensures { result ≡ (placement_of self.now).place page }
    {
        self.pages[page as usize].place
    }

    /// The NVM frame of a page, if it has one.
    pub fn nvm(&self, page: u64) -> Option<u32>
        requires { page < (sizes_of self.now).pages }
        ensures { result ≡ (placement_of self.now).nvm page }
    {
        self.pages[page as usize].nvm
    }

    /// The page whose full copy is in this place, if there is one.
    pub fn full_page(&self, place: u32) -> Option<u64>
        requires { place < (sizes_of self.now).fulls }
        ensures { result ≡ (placement_of self.now).full_page place }
    {
        self.fulls[place as usize]
    }

    /// The page whose mini copy is in this place, if there is one.
    pub fn mini_owner(&self, mini: u32) -> Option<u64>
        requires { mini < (sizes_of self.now).minis }
        ensures { result ≡ (placement_of self.now).mini_owner mini }
    {
        self.minis[mini as usize]
    }

    /// The page that lies in this NVM frame, if there is one.
    pub fn frame_page(&self, frame: u32) -> Option<u64>
        requires { frame < (sizes_of self.now).frames }
        ensures { result ≡ (placement_of self.now).frame_page frame }
    {
        self.frames[frame as usize]
    }

    /// The page gets a full copy in this place.
    pub fn set_full(&mut self, page: u64, place: u32)
        requires page { page < (sizes_of self.old).pages }
        requires place { place < (sizes_of self.old).fulls }
        requires absent { (placement_of self.old).place page ≡ Place.Absent }
        requires free { (placement_of self.old).full_page place ≡ None }
        ensures placement { placement_of self.new ≡ with_full page place (placement_of self.old) }
        ensures agrees { Agrees (placement_of self.new) }
        ensures sizes { sizes_of self.new ≡ sizes_of self.old }
    {
        put_place(&mut self.pages, page as usize, Place::Full(place));
        put_page(&mut self.fulls, place as usize, Some(page));
    }

    /// The page gets a mini copy in this place.
    pub fn set_mini(&mut self, page: u64, mini: u32)
        requires page { page < (sizes_of self.old).pages }
        requires place { mini < (sizes_of self.old).minis }
        requires absent { (placement_of self.old).place page ≡ Place.Absent }
        requires free { (placement_of self.old).mini_owner mini ≡ None }
        ensures placement { placement_of self.new ≡ with_mini page mini (placement_of self.old) }
        ensures agrees { Agrees (placement_of self.new) }
        ensures sizes { sizes_of self.new ≡ sizes_of self.old }
    {
        put_place(&mut self.pages, page as usize, Place::Mini(mini));
        put_page(&mut self.minis, mini as usize, Some(page));
    }

    /// The page gets this NVM frame.
    pub fn set_nvm(&mut self, page: u64, frame: u32)
        requires page { page < (sizes_of self.old).pages }
        requires frame { frame < (sizes_of self.old).frames }
        requires absent { (placement_of self.old).nvm page ≡ None }
        requires free { (placement_of self.old).frame_page frame ≡ None }
        ensures placement { placement_of self.new ≡ with_nvm page frame (placement_of self.old) }
        ensures agrees { Agrees (placement_of self.new) }
        ensures sizes { sizes_of self.new ≡ sizes_of self.old }
    {
        put_frame(&mut self.pages, page as usize, Some(frame));
        put_page(&mut self.frames, frame as usize, Some(page));
    }

    /// The page loses its copy in DRAM, and its place is free; where it has none, nothing changes.
    pub fn clear_dram(&mut self, page: u64)
        requires { page < (sizes_of self.old).pages }
        ensures placement { placement_of self.new ≡ without_dram page (placement_of self.old) }
        ensures agrees { Agrees (placement_of self.new) }
        ensures sizes { sizes_of self.new ≡ sizes_of self.old }
    {
        let place = self.place(page);
        put_place(&mut self.pages, page as usize, Place::Absent);
        match place {
            Place::Absent => {}
            Place::Full(full) => put_page(&mut self.fulls, full as usize, None),
            Place::Mini(mini) => put_page(&mut self.minis, mini as usize, None),
        }
    }

    /// The page loses its NVM frame, which is empty then; where it has none, nothing changes.
    pub fn clear_nvm(&mut self, page: u64)
        requires { page < (sizes_of self.old).pages }
        ensures placement { placement_of self.new ≡ without_nvm page (placement_of self.old) }
        ensures agrees { Agrees (placement_of self.new) }
        ensures sizes { sizes_of self.new ≡ sizes_of self.old }
    {
        if let Some(frame) = self.nvm(page) {
            put_frame(&mut self.pages, page as usize, None);
            put_page(&mut self.frames, frame as usize, None);
        }
    }
}
