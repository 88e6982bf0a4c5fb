//! The queue that decides which pages are admitted.
ghost use Rattle.std.specs.Prelude.{◌≡◌, ◌≤◌, ◌==◌, [], ℕ, IfOk, length};
ghost use Rattle.std.specs.VecDeque.{deque_capacity};
ghost use Rattle.std.specs.List.{position};
ghost use Rattle.migration_policy.specs.Admission.{is_queued, asked, queued};

use nvm_model::NoMemory;
use std::alloc::Global;
use std::collections::VecDeque;
use std::marker::Model;

/// The pages that were turned away last, the oldest first, and how many it may hold. Contracts see both.
#[derive(Drop)]
pub struct AdmissionQueue {
    pages: VecDeque<u64>,
    len: usize,
}

impl Model for AdmissionQueue {
    ghost use Rattle.std.specs.Prelude.{ℕ, List, ◌≤◌, length};
    ghost use Rattle.std.specs.VecDeque.{deque_capacity};
    ghost use Rattle.migration_policy.specs.Queue.{Queue};

    ghost Value = { Queue };

    ghost view = { λ q. record { len = q.len; pages = q.pages.items } };

    ghost invariant = { λ q. (length q.pages.items ≤ q.len) × (q.len ≤ deque_capacity q.pages) };
}

/// The place of a page in the queue: one pass over the pages before it.
fn place_of(pages: &VecDeque<u64>, page: u64) -> Option<usize>
    ensures { result ≡ position (λ queued. queued == page) pages.now.items }
{
    pages.iter().position(|queued| *queued == page)
}

/// Puts a page last; where the queue is full, the oldest is dropped first.
fn put_last(pages: &mut VecDeque<u64>, len: usize, page: u64)
    requires some { 1 ≤ len }
    requires fits { length pages.old.items ≤ len }
    requires room { len ≤ deque_capacity pages.old }
    ensures items { pages.new.items ≡ queued len page pages.old.items }
    ensures capacity { deque_capacity pages.new ≡ deque_capacity pages.old }
{
    if pages.len() >= len {
        pages.pop_front();
    }
    pages.push_back_reserved(page);
}

impl AdmissionQueue {
    /// An empty queue of at most `len` pages: eight bytes each, all taken here. `NoMemory` where they are not to be had.
    pub fn new(alloc: Global, len: u32) -> Result<AdmissionQueue, NoMemory>
        ensures { IfOk result (λ q. q ≡ record { len = len; pages = [] }) }
    {
        let len = len as usize;
        Ok(AdmissionQueue {
            pages: VecDeque::with_capacity(alloc, len)?,
            len,
        })
    }

    /// Whether the page stands in the queue. It is taken out then, and else put last, in place of the oldest where the
    /// queue is full. It takes no memory, and goes once over the queue at most: over the pages before the one that is found,
    /// of which, or of those behind it, the fewer move up; over all where it is not there.
    pub fn ask(&mut self, page: u64) -> bool
        requires { 1 ≤ self.old.len }
        ensures answer { result ≡ is_queued page self.old.pages }
        ensures queue { let pages = asked self.old.len page self.old.pages in
            self.new ≡ record { len = self.old.len; pages = pages } }
    {
        if let Some(at) = place_of(&self.pages, page) {
            self.pages.remove(at);
            return true;
        }
        put_last(&mut self.pages, self.len, page);
        false
    }
}
