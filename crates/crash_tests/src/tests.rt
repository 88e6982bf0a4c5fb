//! Transactions and recoveries over a world in memory that are stopped after each event, and what a recovery finds of that.
ghost use Rattle.std.specs.Prelude.{◌≡◌, ◌+◌, ◌≤◌, ◌^◌, true, false, IfOk, OnOk};
ghost use Rattle.flat_transactions.specs.StoreStanding.{IsReady, reach};

use devices::{Devices, MemWorld};
use flat_nvm_layout::Geometry;
use flat_recovery::{format, recover};
use flat_transactions::{Book, Store};
use line_pages::Pages;
use nvm_model::{Choice, Line};
use ssd_model::BlockChoice;
use std::alloc::Global;
use std::process::Abort;
use std::test::Fail;

/// The words of lines 0 and 5 of page 3 in the store as it was.
const OLD: [u64; 2] = [7, 8];

/// The words that a transaction writes there.
const NEW: [u64; 2] = [9, 10];

/// Four tables of a hundred rows: 233 pages, 82,033 lines of NVM.
fn large() -> Geometry {
    Geometry {
        tables: 4,
        rows: 100,
        writes: 32,
        frames: 256,
        log_blocks: 1024,
    }
}

/// One table of two rows, with each of its ten pages in a frame: 2,706 lines of NVM.
fn small() -> Geometry {
    Geometry {
        tables: 1,
        rows: 2,
        writes: 1,
        frames: 10,
        log_blocks: 31,
    }
}

/// A line of eight such words.
fn filled(word: u64) -> Line {
    Line { words: [word; 8] }
}

/// Two lines of such words.
fn lines_of(words: [u64; 2]) -> [Line; 2] {
    [filled(words[0]), filled(words[1])]
}

/// A book over the store that is recovered.
fn opened<D: Devices>(alloc: Global, dev: &mut D) -> Result<Book, Fail>
    ensures ready { IfOk result (λ book. IsReady book (D.standing dev.new)) }
    ensures closed { IfOk result (λ book. book.is_open ≡ false) }
    ensures low { IfOk result (λ book. reach book ≤ 2 ^ 61) }
{
    let parts = recover(alloc, dev)?;
    Ok(Book::new(parts.log, parts.loose, &parts.geometry))
}

/// Lines 0 and 5 of page 3.
fn read_two<D: Devices>(book: &mut Book, dev: &mut D) -> Result<[Line; 2], Fail>
    requires { IsReady book.old (D.standing dev.old) }
{
    let mut store = Store::over(book, dev);
    if store.page_count() <= 3 {
        return Err("no page 3")?;
    }
    let first = store.read_line(3, 0)?;
    let fifth = store.read_line(3, 5)?;
    Ok([first, fifth])
}

/// Begins a transaction, and writes lines 0 and 5 of page 3.
fn change<D: Devices>(store: &mut Store<'_, D>, words: [u64; 2]) -> Result<(), Fail>
    requires ready { IsReady store.old.book.now (D.standing store.old.dev.now) }
    requires since { (D.standing store.old.before.value).clock
        ≤ (D.standing store.old.dev.now).clock }
    requires closed { store.old.book.now.is_open ≡ false }
    requires low { reach store.old.book.now ≤ 2 ^ 61 + 2 ^ 45 }
    ensures ready { OnOk result (IsReady store.new.book.now (D.standing store.new.dev.now)) }
    ensures is_open { OnOk result (store.new.book.now.is_open ≡ true) }
    ensures rises { OnOk result (reach store.new.book.now ≤ reach store.old.book.now + 1921) }
    ensures same_references { (store.new.book.ghost_name ≡ store.old.book.ghost_name)
        × (store.new.dev.ghost_name ≡ store.old.dev.ghost_name) }
{
    if store.page_count() <= 3 {
        return Err("no page 3")?;
    }
    store.begin()?;
    store.write_line(3, 0, &filled(words[0]))?;
    store.write_line(3, 5, &filled(words[1]))?;
    Ok(())
}

/// The same over a book and its device.
fn write_two<D: Devices>(book: &mut Book, dev: &mut D, words: [u64; 2]) -> Result<(), Fail>
    requires ready { IsReady book.old (D.standing dev.old) }
    requires closed { book.old.is_open ≡ false }
    requires low { reach book.old ≤ 2 ^ 61 + 2 ^ 45 }
    ensures ready { OnOk result (IsReady book.new (D.standing dev.new)) }
    ensures is_open { OnOk result (book.new.is_open ≡ true) }
    ensures rises { OnOk result (reach book.new ≤ reach book.old + 1921) }
{
    let mut store = Store::over(book, dev);
    change(&mut store, words)?;
    Ok(())
}

/// Ends the transaction: it stands, or is taken back.
fn end<D: Devices>(book: &mut Book, dev: &mut D, stands: bool) -> Result<(), Fail>
    requires ready { IsReady book.old (D.standing dev.old) }
    requires is_open { book.old.is_open ≡ true }
    ensures ready { OnOk result (IsReady book.new (D.standing dev.new)) }
    ensures closed { OnOk result (book.new.is_open ≡ false) }
    ensures rises { OnOk result (reach book.new ≤ reach book.old + 1921) }
{
    let mut store = Store::over(book, dev);
    if stands {
        store.commit()?;
    } else {
        store.abort()?;
    }
    Ok(())
}

/// Empties the log.
fn checkpoint<D: Devices>(book: &mut Book, dev: &mut D) -> Result<(), Fail>
    requires ready { IsReady book.old (D.standing dev.old) }
    requires closed { book.old.is_open ≡ false }
{
    let mut store = Store::over(book, dev);
    store.checkpoint()?;
    Ok(())
}

/// The world that a crash leaves after so many events.
fn left(alloc: Global, world: &MemWorld, events: u64, choice: Choice) -> Result<MemWorld, Fail> {
    if events > world.events() {
        return Err("no such event")?;
    }
    let images = world.images_at(alloc, events, choice, BlockChoice::Fill(0xA5))?;
    Ok(MemWorld::from_images(alloc, &images, b"", b"", &[])?)
}

/// What a recovery finds on lines 0 and 5 of page 3 after such a crash.
fn found(alloc: Global, world: &MemWorld, events: u64, choice: Choice) -> Result<[Line; 2], Fail> {
    let mut again = left(alloc, world, events, choice)?;
    let mut book = opened(alloc, &mut again)?;
    read_two(&mut book, &mut again)
}

/// How many events there were before a transaction, before the call that ends it, and behind that.
#[derive(Clone, Copy)]
struct Events {
    begun: u64,
    asked: u64,
    answered: u64,
}

/// Opens the store; a transaction writes these words and ends; a checkpoint.
fn transact(
    alloc: Global,
    world: &mut MemWorld,
    words: [u64; 2],
    stands: bool,
) -> Result<Events, Fail> {
    let mut book = opened(alloc, world)?;
    let begun = world.events();
    write_two(&mut book, world, words)?;
    let asked = world.events();
    end(&mut book, world, stands)?;
    let answered = world.events();
    checkpoint(&mut book, world)?;
    Ok(Events {
        begun,
        asked,
        answered,
    })
}

/// A world with an empty store.
fn empty(alloc: Global, geometry: &Geometry) -> Result<MemWorld, Fail> {
    let lines = geometry.nvm_lines();
    let blocks = geometry.ssd_blocks();
    let mut world = MemWorld::new(alloc, lines, blocks, b"", b"", &[])?;
    format(&mut world, geometry)?;
    Ok(world)
}

/// Stops a transaction after each of its events, and the checkpoint behind it too, with this choice of versions. A recovery finds
/// the old lines up to the call that ends it, and from its answer on the new ones where it stands, and else the old ones; in
/// between, where it stands, either.
fn crashes(rt: &impl Abort, alloc: Global, stands: bool, choice: Choice) -> Result<(), Fail> {
    let mut first = empty(alloc, &large())?;
    transact(alloc, &mut first, OLD, true)?;
    let mut world = left(alloc, &first, first.events(), Choice::Newest)?;
    let at = transact(alloc, &mut world, NEW, stands)?;
    for events in at.begun..=world.events() {
        let lines = found(alloc, &world, events, choice)?;
        let is_old = lines == lines_of(OLD);
        let is_new = lines == lines_of(NEW);
        let may_be_old = !stands || events < at.answered;
        let may_be_new = stands && events > at.asked;
        assert!(rt;
            (is_old && may_be_old) || (is_new && may_be_new),
            "at {events}"
        );
    }
    Ok(())
}

#[test]
fn a_commit_that_leaves_the_oldest_versions(rt: HostRuntime) -> Result<(), Fail> {
    crashes(&rt, rt.alloc(), true, Choice::Oldest)
}

#[test]
fn a_commit_that_leaves_the_newest_versions(rt: HostRuntime) -> Result<(), Fail> {
    crashes(&rt, rt.alloc(), true, Choice::Newest)
}

#[test]
fn a_commit_that_leaves_old_and_new_versions(rt: HostRuntime) -> Result<(), Fail> {
    crashes(&rt, rt.alloc(), true, Choice::Alternating)
}

#[test]
fn an_abort_that_leaves_the_oldest_versions(rt: HostRuntime) -> Result<(), Fail> {
    crashes(&rt, rt.alloc(), false, Choice::Oldest)
}

#[test]
fn an_abort_that_leaves_the_newest_versions(rt: HostRuntime) -> Result<(), Fail> {
    crashes(&rt, rt.alloc(), false, Choice::Newest)
}

#[test]
fn an_abort_that_leaves_old_and_new_versions(rt: HostRuntime) -> Result<(), Fail> {
    crashes(&rt, rt.alloc(), false, Choice::Alternating)
}

/// A world that a crash left in a transaction behind one that stands, both in the log.
fn interrupted(alloc: Global, geometry: &Geometry) -> Result<MemWorld, Fail> {
    let mut world = empty(alloc, geometry)?;
    let mut book = opened(alloc, &mut world)?;
    write_two(&mut book, &mut world, OLD)?;
    end(&mut book, &mut world, true)?;
    write_two(&mut book, &mut world, NEW)?;
    left(alloc, &world, world.events(), Choice::Newest)
}

/// Stops a recovery with this choice of versions: after each of its first 40 events and its last 8, and in between this far
/// apart. A second recovery finds what the first one did.
fn recoveries(
    rt: &impl Abort,
    alloc: Global,
    geometry: &Geometry,
    apart: u64,
    choice: Choice,
) -> Result<(), Fail>
    requires { 1 ≤ apart }
{
    let mut world = interrupted(alloc, geometry)?;
    let mut book = opened(alloc, &mut world)?;
    let last = world.events();
    assert!(rt; read_two(&mut book, &mut world)? == lines_of(OLD));
    for events in 0..=last {
        if events < 40 || events % apart == 0 || last - events < 8 {
            let lines = found(alloc, &world, events, choice)?;
            assert!(rt; lines == lines_of(OLD), "at {events}");
        }
    }
    Ok(())
}

/// Each of its moments.
#[test]
fn a_recovery_of_a_small_store(rt: HostRuntime) -> Result<(), Fail> {
    for choice in [Choice::Oldest, Choice::Newest, Choice::Alternating] {
        recoveries(&rt, rt.alloc(), &small(), 1, choice)?;
    }
    Ok(())
}

/// A sample of its 15,000 moments, since each costs a recovery more: those while the log is read and replayed, those at the end,
/// and each thousandth while all lines are flushed.
#[test]
fn a_recovery_that_leaves_the_oldest_versions(rt: HostRuntime) -> Result<(), Fail> {
    recoveries(&rt, rt.alloc(), &large(), 1000, Choice::Oldest)
}

/// The same sample.
#[test]
fn a_recovery_that_leaves_the_newest_versions(rt: HostRuntime) -> Result<(), Fail> {
    recoveries(&rt, rt.alloc(), &large(), 1000, Choice::Newest)
}

/// The same sample.
#[test]
fn a_recovery_that_leaves_old_and_new_versions(rt: HostRuntime) -> Result<(), Fail> {
    recoveries(&rt, rt.alloc(), &large(), 1000, Choice::Alternating)
}
