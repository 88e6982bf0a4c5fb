//! A book over its device, as a store of pages.
ghost use Rattle.std.specs.Prelude.{◌≡◌, ◌≤◌};

use crate::book::Book;
use crate::snapshot::Snapshot;
use devices::{Devices, Failed};
use flat_nvm_log::eight;
use line_pages::{Pages, Stop, whole_line};
use nvm_model::Line;

/// A book over the device that it stands for.
#[derive(Drop)]
pub struct Store<'a, D> {
    pub(crate) book: &'a mut Book,
    pub(crate) dev: &'a mut D,
    /// The device as it was when the store was put over it.
    pub(crate) before: Snapshot<D>,
}

impl<'a, D: Devices> Store<'a, D> {
    /// The store of this book over this device.
    pub fn over(book: &'a mut Book, dev: &'a mut D) -> Store<'a, D>
        ensures same_references { (result.book.ghost_name ≡ book.entry.ghost_name)
            × (result.dev.ghost_name ≡ dev.entry.ghost_name) }
        ensures same { (result.book.now ≡ book.old) × (result.dev.now ≡ dev.old) }
        ensures before { result.before.value ≡ dev.old }
    {
        let before = Snapshot::of(&*dev);
        Store { book, dev, before }
    }
}

impl<'a, D: Devices> Pages for Store<'a, D> {
    ghost use Rattle.flat_transactions.specs.StoreStanding.{Apart as StoreApart, standing_of, book_sizes, IsReady, IsSteady};
    ghost use Rattle.flat_store_laws.specs.Steps.{MayLeave};
    ghost use Rattle.flat_transactions.specs.Laws.{committed_left};

    ghost Apart = { StoreApart };

    ghost standing = { λ s. standing_of s.book.now (D.standing s.dev.now) s.book.ghost_name s.dev.ghost_name
        (D.standing s.before.value).clock };

    ghost is_ready = { λ s. IsReady s.book.now (D.standing s.dev.now)
        × ((D.standing s.before.value).clock ≤ (D.standing s.dev.now).clock) };

    ghost is_steady = { λ s. IsSteady s.book.now (D.standing s.dev.now) };

    ghost may_leave = { λ s. MayLeave (book_sizes s.book.now) (D.standing s.dev.now) };

    fn page_count(&self) -> u64 {
        self.book.log.geometry.pages()
    }

    fn read_line(&mut self, page: u64, line: usize) -> Result<Line, Stop> {
        let book = &mut *self.book;
        book.accesses.touch(page, line, false);
        match self.dev.load(book.place(page, line)) {
            Ok(found) => Ok(whole_line(&found)),
            Err(Failed) => Err(Stop::Nvm),
        }
    }

    fn write_line(&mut self, page: u64, line: usize, value: &Line) -> Result<(), Stop> {
        let book = &mut *self.book;
        book.accesses.touch(page, line, true);
        eight(value);
        match book.write_in_place(self.dev, page, line, value) {
            Ok(()) => Ok(()),
            Err(Failed) => Err(Stop::Nvm),
        }
    }

    fn rest(&mut self) {
        let book = &mut *self.book;
        book.rest();
    }

    ghost left_now = { λ s ready steady told lines left. committed_left s.book.now (D.standing s.dev.now)
        steady told lines left };
}
