//! Transactions over a world in memory, each fault in turn, and a damaged log.
ghost use Rattle.std.specs.Prelude.{◌≡◌, ◌≤◌, ◌<◌, ◌^◌, true, false, IfSome, OnOk};
ghost use Rattle.flat_nvm_layout.specs.Sizes.{sizes_of};

use crate::{Book, Store};
use damage::Evidence;
use devices::{Devices, Failed, Fault, FaultKind, MemWorld};
use flat_nvm_layout::{Geometry, Super};
use flat_nvm_log::Log;
use line_pages::{LineSet, Pages, Stop};
use nvm_model::Line;
use ssd_model::PageBuf;
use std::alloc::Global;

/// A world of whose content nothing is told, so that a store may stand over it as it is.
#[derive(Drop)]
struct Untold {
    world: MemWorld,
}

impl Devices for Untold {
    ghost standing = { λ s. record (⟦<MemWorld as Devices>⟧.standing s.world) { told = false } };

    fn nvm_lines(&self) -> u64 {
        self.world.nvm_lines()
    }

    fn ssd_blocks(&self) -> u64 {
        self.world.ssd_blocks()
    }

    fn load(&mut self, line: u64) -> Result<Line, Failed> {
        self.world.load(line)
    }

    fn store_word(&mut self, line: u64, word: usize, value: u64) -> Result<(), Failed> {
        self.world.store_word(line, word, value)
    }

    fn store_line(&mut self, line: u64, value: &Line) -> Result<(), Failed> {
        self.world.store_line(line, value)
    }

    fn flush(&mut self, line: u64) -> Result<(), Failed> {
        self.world.flush(line)
    }

    fn fence(&mut self) -> Result<(), Failed> {
        self.world.fence()
    }

    fn read_block(&mut self, block: u64, into: &mut PageBuf) -> Result<(), Failed> {
        self.world.read_block(block, into)
    }

    fn write_block(&mut self, block: u64, from: &PageBuf) -> Result<(), Failed> {
        self.world.write_block(block, from)
    }

    fn sync(&mut self) -> Result<(), Failed> {
        self.world.sync()
    }
}

ghost use Rattle.flat_store_meaning.specs.Layout.{pages};
ghost use Rattle.flat_transactions.specs.StoreStanding.{IsReady, book_sizes};

/// One table of two rows, with each of its ten pages in a frame.
fn small() -> Geometry
    ensures { sizes_of result
        ≡ record { tables = 1; rows = 2; writes = 1; frames = 10; log_blocks = 31 } }
{
    Geometry {
        tables: 1,
        rows: 2,
        writes: 1,
        frames: 10,
        log_blocks: 31,
    }
}

/// An empty log of the small store, which begins two lines before the end of its ring.
fn small_log(geometry: &Geometry) -> Log
    requires { sizes_of geometry.now
        ≡ record { tables = 1; rows = 2; writes = 1; frames = 10; log_blocks = 31 } }
    ensures geometry { result.geometry ≡ geometry.now }
    ensures start { result.start ≡ 1982 }
    ensures tail { result.tail ≡ 1982 }
{
    let gates = Super {
        geometry: *geometry,
        start: 1982,
        drained: 0,
        tail: 1982,
    };
    Log::open(geometry, &gates)
}

/// The small store over zeros.
fn opened(alloc: Global, fail: &[Fault]) -> Option<(Book, Untold)>
    ensures ready { IfSome result (λ made. IsReady made.0 (⟦<Untold as Devices>⟧.standing made.1)) }
    ensures closed { IfSome result (λ made. made.0.is_open ≡ false) }
    ensures pages { IfSome result (λ made. 3 < pages (book_sizes made.0)) }
{
    let geometry = small();
    let loose = LineSet::new(alloc, 10).ok()?;
    let world = MemWorld::new(alloc, 2706, 46, b"", b"", fail).ok()?;
    let log = small_log(&geometry);
    let book = Book::new(log, loose, &geometry);
    Some((book, Untold { world }))
}

/// A line with this first word.
fn line(first: u64) -> Line {
    Line {
        words: [first, 0, 0, 0, 0, 0, 0, 9],
    }
}

/// Lines 0, 5 and 4 of page 3.
fn three_lines<D: Devices>(store: &mut Store<'_, D>) -> Result<[Line; 3], Stop>
    requires ready { IsReady store.old.book.now (D.standing store.old.dev.now) }
    requires since { (D.standing store.old.before.value).clock
        ≤ (D.standing store.old.dev.now).clock }
    requires pages { 3 < pages (book_sizes store.old.book.now) }
    ensures ready { OnOk result (IsReady store.new.book.now (D.standing store.new.dev.now)) }
    ensures since { OnOk result
        ((D.standing store.new.before.value).clock ≤ (D.standing store.new.dev.now).clock) }
    ensures apart { (store.new.book.now.is_open ≡ store.old.book.now.is_open)
        × (store.new.book.now.log.geometry ≡ store.old.book.now.log.geometry) }
{
    store.rest();
    let first = store.read_line(3, 0)?;
    let second = store.read_line(3, 5)?;
    let beside = store.read_line(3, 4)?;
    Ok([first, second, beside])
}

/// Ends a transaction as a commit or as an abort.
fn end<D: Devices>(store: &mut Store<'_, D>, stands: bool) -> Result<(), Stop>
    requires ready { IsReady store.old.book.now (D.standing store.old.dev.now) }
    requires since { (D.standing store.old.before.value).clock
        ≤ (D.standing store.old.dev.now).clock }
    requires is_open { store.old.book.now.is_open ≡ true }
    ensures ready { OnOk result (IsReady store.new.book.now (D.standing store.new.dev.now)) }
    ensures since { OnOk result
        ((D.standing store.new.before.value).clock ≤ (D.standing store.new.dev.now).clock) }
    ensures closed { OnOk result (store.new.book.now.is_open ≡ false) }
    ensures geometry { store.new.book.now.log.geometry ≡ store.old.book.now.log.geometry }
{
    if stands {
        store.commit()
    } else {
        store.abort()
    }
}

/// Writes lines 0 and 5 of page 3, and ends that as a commit or as an abort. None where the log is too long.
fn change_two<D: Devices>(
    store: &mut Store<'_, D>,
    values: (u64, u64),
    stands: bool,
) -> Option<Result<(), Stop>>
    requires ready { IsReady store.old.book.now (D.standing store.old.dev.now) }
    requires since { (D.standing store.old.before.value).clock
        ≤ (D.standing store.old.dev.now).clock }
    requires closed { store.old.book.now.is_open ≡ false }
    requires pages { 3 < pages (book_sizes store.old.book.now) }
    ensures ready { IfSome result
        (λ done. OnOk done (IsReady store.new.book.now (D.standing store.new.dev.now))) }
    ensures since { IfSome result
        (λ done. OnOk done ((D.standing store.new.before.value).clock
        ≤ (D.standing store.new.dev.now).clock)) }
    ensures closed { IfSome result (λ done. OnOk done (store.new.book.now.is_open ≡ false)) }
    ensures geometry { store.new.book.now.log.geometry ≡ store.old.book.now.log.geometry }
{
    if store.book.log.tail() <= 0x2000_0000_0000_0000 {
        Some(change(store, values, stands))
    } else {
        None
    }
}

/// The same where the log is short enough.
fn change<D: Devices>(
    store: &mut Store<'_, D>,
    values: (u64, u64),
    stands: bool,
) -> Result<(), Stop>
    requires ready { IsReady store.old.book.now (D.standing store.old.dev.now) }
    requires since { (D.standing store.old.before.value).clock
        ≤ (D.standing store.old.dev.now).clock }
    requires closed { store.old.book.now.is_open ≡ false }
    requires low { store.old.book.now.log.tail ≤ 2 ^ 61 }
    requires pages { 3 < pages (book_sizes store.old.book.now) }
    ensures ready { OnOk result (IsReady store.new.book.now (D.standing store.new.dev.now)) }
    ensures since { OnOk result
        ((D.standing store.new.before.value).clock ≤ (D.standing store.new.dev.now).clock) }
    ensures closed { OnOk result (store.new.book.now.is_open ≡ false) }
    ensures geometry { store.new.book.now.log.geometry ≡ store.old.book.now.log.geometry }
{
    store.begin()?;
    store.write_line(3, 0, &line(values.0))?;
    store.write_line(3, 5, &line(values.1))?;
    store.next_write();
    end(store, stands)
}

/// Three such transactions that commit.
fn commit_three<D: Devices>(store: &mut Store<'_, D>) -> Option<Result<(), Stop>>
    requires ready { IsReady store.old.book.now (D.standing store.old.dev.now) }
    requires since { (D.standing store.old.before.value).clock
        ≤ (D.standing store.old.dev.now).clock }
    requires closed { store.old.book.now.is_open ≡ false }
    requires pages { 3 < pages (book_sizes store.old.book.now) }
    ensures ready { IfSome result
        (λ done. OnOk done (IsReady store.new.book.now (D.standing store.new.dev.now))) }
    ensures since { IfSome result
        (λ done. OnOk done ((D.standing store.new.before.value).clock
        ≤ (D.standing store.new.dev.now).clock)) }
    ensures closed { IfSome result (λ done. OnOk done (store.new.book.now.is_open ≡ false)) }
    ensures geometry { IfSome result
        (λ done. store.new.book.now.log.geometry ≡ store.old.book.now.log.geometry) }
{
    let Ok(()) = change_two(store, (1, 2), true)? else {
        return None;
    };
    let Ok(()) = change_two(store, (3, 4), true)? else {
        return None;
    };
    change_two(store, (5, 6), true)
}

/// Begins a transaction and writes line 0 of page 3.
fn change_one<D: Devices>(store: &mut Store<'_, D>) -> Option<Result<(), Stop>>
    requires ready { IsReady store.old.book.now (D.standing store.old.dev.now) }
    requires since { (D.standing store.old.before.value).clock
        ≤ (D.standing store.old.dev.now).clock }
    requires closed { store.old.book.now.is_open ≡ false }
    requires pages { 3 < pages (book_sizes store.old.book.now) }
    ensures ready { IfSome result
        (λ done. OnOk done (IsReady store.new.book.now (D.standing store.new.dev.now))) }
    ensures since { IfSome result
        (λ done. OnOk done ((D.standing store.new.before.value).clock
        ≤ (D.standing store.new.dev.now).clock)) }
    ensures is_open { IfSome result (λ done. OnOk done (store.new.book.now.is_open ≡ true)) }
{
    if store.book.log.tail() > 0x2000_0000_0000_0000 {
        return None;
    }
    match store.begin() {
        Ok(()) => Some(store.write_line(3, 0, &line(7))),
        Err(stop) => Some(Err(stop)),
    }
}

/// Spoils a word of the NVM.
fn spoil(store: &mut Store<'_, Untold>, place: u64, word: usize, value: u64) -> Option<Failed>
    requires ready { IsReady store.old.book.now (⟦<Untold as Devices>⟧.standing store.old.dev.now) }
    requires since { (⟦<Untold as Devices>⟧.standing store.old.before.value).clock
        ≤ (⟦<Untold as Devices>⟧.standing store.old.dev.now).clock }
    ensures ready { IsReady store.new.book.now (⟦<Untold as Devices>⟧.standing store.new.dev.now) }
    ensures since { (⟦<Untold as Devices>⟧.standing store.new.before.value).clock
        ≤ (⟦<Untold as Devices>⟧.standing store.new.dev.now).clock }
    ensures is_open { store.new.book.now.is_open ≡ store.old.book.now.is_open }
{
    if place < store.dev.nvm_lines() && word < 8 {
        store.dev.store_word(place, word, value).err()
    } else {
        None
    }
}

#[test]
fn a_commit_stands_and_an_abort_does_not(rt: HostRuntime) {
    let Some((mut book, mut dev)) = opened(rt.alloc(), &[]) else {
        return assert!(rt; false, "no memory");
    };
    let blank = Line { words: [0; 8] };
    let mut store = Store::over(&mut book, &mut dev);
    let Some(Ok(())) = change_two(&mut store, (7, 8), true) else {
        return assert!(rt; false, "no commit");
    };
    let Ok(found) = three_lines(&mut store) else {
        return assert!(rt; false, "no read");
    };
    assert_eq!(rt; found, [line(7), line(8), blank]);
    let Some(Ok(())) = change_two(&mut store, (9, 10), false) else {
        return assert!(rt; false, "no abort");
    };
    let Ok(found) = three_lines(&mut store) else {
        return assert!(rt; false, "no read");
    };
    assert_eq!(rt; found, [line(7), line(8), blank]);
    assert_eq!(rt; store.drain(), Ok(()));
    assert_eq!(rt; store.clean(2), Ok(()));
    let Ok(()) = store.checkpoint() else {
        return assert!(rt; false, "no checkpoint");
    };
    assert_eq!(rt; three_lines(&mut store), Ok([line(7), line(8), blank]));
    assert_eq!(rt; book.is_open(), false);
    assert_eq!(rt; book.accepted(), 1);
    // seven lines each, over the end of the ring
    assert_eq!(rt; (book.log.start(), book.log.tail()), (1996, 1996));
}

#[test]
fn a_transaction_without_room_begins_with_a_checkpoint(rt: HostRuntime) {
    let Some((mut book, mut dev)) = opened(rt.alloc(), &[]) else {
        return assert!(rt; false, "no memory");
    };
    let mut store = Store::over(&mut book, &mut dev);
    // nine transactions of seven lines leave room for one more of 1,921
    let Some(Ok(())) = commit_three(&mut store) else {
        return assert!(rt; false, "no commit");
    };
    let Some(Ok(())) = commit_three(&mut store) else {
        return assert!(rt; false, "no commit");
    };
    let Some(Ok(())) = commit_three(&mut store) else {
        return assert!(rt; false, "no commit");
    };
    let Some(Ok(())) = change_two(&mut store, (7, 8), true) else {
        return assert!(rt; false, "no commit");
    };
    assert_eq!(rt; store.book.log.start(), 1982);
    let Some(Ok(())) = change_two(&mut store, (9, 10), true) else {
        return assert!(rt; false, "no commit");
    };
    assert_eq!(rt; store.book.log.start(), 2052);
    assert_eq!(rt; store.book.log.tail(), 2059);
}

#[test]
fn each_call_of_a_transaction_may_fail(rt: HostRuntime) {
    for (stands, calls) in [(true, 32), (false, 40)] {
        for nth in 0..calls + 1 {
            let fail = [Fault {
                kind: FaultKind::Nvm,
                nth,
            }];
            let Some((mut book, mut dev)) = opened(rt.alloc(), &fail) else {
                return assert!(rt; false, "no memory");
            };
            let mut store = Store::over(&mut book, &mut dev);
            let wanted = if nth < calls { Err(Stop::Nvm) } else { Ok(()) };
            assert_eq!(rt;
                change_two(&mut store, (7, 8), stands),
                Some(wanted),
                "at {nth}"
            );
        }
    }
}

#[test]
fn each_call_of_a_checkpoint_may_fail(rt: HostRuntime) {
    for nth in 0..5 {
        let fail = [Fault {
            kind: FaultKind::Nvm,
            nth,
        }];
        let Some((mut book, mut dev)) = opened(rt.alloc(), &fail) else {
            return assert!(rt; false, "no memory");
        };
        let wanted = if nth < 4 { Err(Stop::Nvm) } else { Ok(()) };
        let mut store = Store::over(&mut book, &mut dev);
        assert_eq!(rt; store.checkpoint(), wanted, "at {nth}");
    }
}

#[test]
fn an_abort_tells_a_damaged_head(rt: HostRuntime) {
    // the head stands at line 2000: its kind, its page, its line
    for (word, value, check, words) in [
        (0, 4, 7, [4, 3, 0, 0, 0, 0, 0, 0]),
        (0, 2, 7, [2, 3, 0, 0, 0, 0, 0, 0]),
        (1, 10, 8, [1, 10, 0, 0, 0, 0, 0, 0]),
        (2, 64, 8, [1, 3, 64, 0, 0, 0, 0, 0]),
    ] {
        let Some((mut book, mut dev)) = opened(rt.alloc(), &[]) else {
            return assert!(rt; false, "no memory");
        };
        let mut store = Store::over(&mut book, &mut dev);
        let Some(Ok(())) = change_one(&mut store) else {
            return assert!(rt; false, "no write");
        };
        assert_eq!(rt; spoil(&mut store, 2000, word, value), None);
        let kept = Evidence::Log {
            offset: 1982,
            line: Line { words },
            tail: 1985,
            check,
        };
        assert_eq!(rt; store.abort(), Err(Stop::Damaged(kept)));
    }
}
