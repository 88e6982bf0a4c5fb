//! Worked scripts over a world in memory, each fault in turn, and what a crash leaves of a script.
ghost use Rattle.std.specs.Prelude.{◌<◌, ◌≤◌, ◌^◌};

use devices::{Fault, FaultKind, MemWorld};
use engine::{Engine, OpenError};
use flat_nvm_layout::Geometry;
use flat_recovery::format;
use nvm_model::Choice;
use plain_machine::PlainMachine;
use runner::run_script;
use script::{Reason, Reply, reply_text};
use ssd_model::BlockChoice;
use std::alloc::Global;
use std::process::Abort;
use std::test::Fail;
use table_store::Limits;

/// The limit of a script's bytes that the program has.
const LIMIT: u64 = 1 << 32;

/// A store of one table of one row, with one write to a transaction.
fn tiny() -> Geometry {
    Geometry {
        tables: 1,
        rows: 1,
        writes: 1,
        frames: 9,
        log_blocks: 31,
    }
}

/// A store of one table of three rows, with four writes to a transaction.
fn small() -> Geometry {
    Geometry {
        tables: 1,
        rows: 3,
        writes: 4,
        frames: 10,
        log_blocks: 121,
    }
}

/// A store of one table of three rows, with eight writes to a transaction.
fn full() -> Geometry {
    Geometry {
        tables: 1,
        rows: 3,
        writes: 8,
        frames: 10,
        log_blocks: 241,
    }
}

/// A store of one table of nine rows, with one write to a transaction.
fn nine() -> Geometry {
    Geometry {
        tables: 1,
        rows: 9,
        writes: 1,
        frames: 13,
        log_blocks: 31,
    }
}

/// A store of two tables of four rows, with three writes to a transaction.
fn few() -> Geometry {
    Geometry {
        tables: 2,
        rows: 4,
        writes: 3,
        frames: 21,
        log_blocks: 91,
    }
}

/// A store of two tables of many rows.
fn large() -> Geometry {
    Geometry {
        tables: 2,
        rows: 100,
        writes: 32,
        frames: 117,
        log_blocks: 961,
    }
}

/// A world that holds an empty store, with this script.
fn formatted(
    alloc: Global,
    geometry: &Geometry,
    script: &[u8],
    fail: &[Fault],
) -> Result<MemWorld, Fail> {
    let lines = geometry.nvm_lines();
    let blocks = geometry.ssd_blocks();
    let mut world = MemWorld::new(alloc, lines, blocks, b"", script, fail)?;
    match format(&mut world, geometry) {
        Ok(()) => Ok(world),
        Err(_) => Err("no store was made")?,
    }
}

/// Opens the store and runs the script, of at most so many bytes. The status is 6 where the opening met a fault of the NVM.
fn run(alloc: Global, world: &mut MemWorld, limit: u64) -> Result<u8, Fail>
    requires { limit ≤ 2 ^ 32 }
{
    match Engine::open(alloc, world) {
        Ok(mut engine) => Ok(run_script(&mut engine, world, limit)),
        Err(OpenError::Nvm) => Ok(6),
        Err(_) => Err("the store was not opened")?,
    }
}

/// The world that the devices hold when all is settled, with this script and these faults.
fn failing(
    alloc: Global,
    world: &MemWorld,
    script: &[u8],
    fail: &[Fault],
) -> Result<MemWorld, Fail> {
    let images = world.images_at(alloc, world.events(), Choice::Newest, BlockChoice::Current)?;
    Ok(MemWorld::from_images(alloc, &images, b"", script, fail)?)
}

/// The world that the devices hold when all is settled, with this script.
fn reopened(alloc: Global, world: &MemWorld, script: &[u8]) -> Result<MemWorld, Fail> {
    failing(alloc, world, script, &[])
}

/// Runs a script over an empty store, and compares what it sends.
fn sends(
    rt: &impl Abort,
    alloc: Global,
    geometry: &Geometry,
    script: &[u8],
    replies: &[u8],
) -> Result<MemWorld, Fail> {
    let mut world = formatted(alloc, geometry, script, &[])?;
    assert_eq!(rt; run(alloc, &mut world, LIMIT)?, 0);
    assert_eq!(rt; world.output(), replies);
    Ok(world)
}

#[test]
fn the_first_session(rt: HostRuntime) -> Result<(), Fail> {
    sends(
        &rt,
        rt.alloc(),
        &small(),
        b"begin\ncreate a\nput a 7 x\ncommit\nget a 7\n",
        b"ok\nok\nok\ncommitted 1\nvalue x\n",
    )?;
    Ok(())
}

#[test]
fn refusals_come_in_their_order(rt: HostRuntime) -> Result<(), Fail> {
    sends(
        &rt,
        rt.alloc(),
        &small(),
        b"put a 1 x\nbegin\nbegin\nput a 1 x\ncommit\ncommit\n",
        b"refused transaction\nok\nrefused transaction\nrefused table\ncommitted 1\nrefused transaction\n",
    )?;
    sends(
        &rt,
        rt.alloc(),
        &small(),
        b"begin\ncreate a\ncreate a\ncreate b\n",
        b"ok\nok\nrefused table\nrefused tables\n",
    )?;
    sends(
        &rt,
        rt.alloc(),
        &small(),
        b"begin\ncreate a\nput a 1 x\nput a 2 x\nput a 3 x\nput a 4 x\ndel a 9\ncommit\nscan a 0 9\n",
        b"ok\nok\nok\nok\nok\nrefused writes\nrefused writes\ncommitted 1\nrow 1 x\nrow 2 x\nrow 3 x\nend 3\n",
    )?;
    sends(
        &rt,
        rt.alloc(),
        &small(),
        b"begin\ncreate a\nput a 1 x\nput a 2 x\nput a 3 x\ncommit\nbegin\nput a 4 x\nput a 2 y\ndel a 1\nput a 4 x\nfrobnicate\ncheckpoint\nabort\ncheckpoint\ndrain\nclean 1\nclean 0\n",
        b"ok\nok\nok\nok\nok\ncommitted 1\nok\nrefused full\nok\nok\nok\nrefused line\nrefused transaction\naborted\nok\nok\nok\nrefused line\n",
    )?;
    Ok(())
}

#[test]
fn a_full_table_in_one_transaction(rt: HostRuntime) -> Result<(), Fail> {
    sends(
        &rt,
        rt.alloc(),
        &full(),
        b"begin\ncreate a\nput a 1 x\nput a 2 x\nput a 3 x\nput a 4 x\nput a 2 y\ndel a 1\nput a 4 x\ncommit\nscan a 0 9\n",
        b"ok\nok\nok\nok\nok\nrefused full\nok\nok\nok\ncommitted 1\nrow 2 y\nrow 3 x\nrow 4 x\nend 3\n",
    )?;
    Ok(())
}

#[test]
fn the_smallest_and_the_largest_key(rt: HostRuntime) -> Result<(), Fail> {
    sends(
        &rt,
        rt.alloc(),
        &small(),
        b"begin\ncreate a\nput a 0 p\nput a 18446744073709551615 q\nscan a 0 18446744073709551615\nscan a 5 4\nget a 18446744073709551616\n",
        b"ok\nok\nok\nok\nrow 0 p\nrow 18446744073709551615 q\nend 2\nend 0\nrefused line\n",
    )?;
    Ok(())
}

/// A line of this beginning and so many letters.
fn long_line(script: &mut Vec<u8>, begin: &[u8], letters: u64) -> Result<(), Fail> {
    script.extend_from_slice(begin)?;
    for _ in 0..letters {
        script.push(b'v')?;
    }
    Ok(script.push(b'\n')?)
}

#[test]
fn values_and_lines_of_every_length(rt: HostRuntime) -> Result<(), Fail> {
    let mut script = Vec::new(rt.alloc());
    script.extend_from_slice(b"begin\ncreate a\n")?;
    for letters in [480, 481, 1100] {
        long_line(&mut script, b"put a 1 ", letters)?;
    }
    script.extend_from_slice(b"put a 1 \nget a 1\nput a 1\nput a 007 x\nget a 1\r\n")?;
    for letters in [1024, 1025] {
        long_line(&mut script, b"", letters)?;
    }
    long_line(&mut script, b"#", 2000)?;
    script.extend_from_slice(b"\nget a 1")?;
    sends(
        &rt,
        rt.alloc(),
        &small(),
        script.as_slice(),
        b"ok\nok\nok\nrefused line\nrefused line\nok\nvalue \nrefused line\nrefused line\nrefused line\nrefused line\nrefused line\nvalue \n",
    )?;
    Ok(())
}

#[test]
fn a_script_beyond_the_limit(rt: HostRuntime) -> Result<(), Fail> {
    for (limit, status, replies) in [
        (6, 12, b"ok\n".as_slice()),
        (11, 12, b"ok\n".as_slice()),
        (12, 0, b"ok\naborted\n".as_slice()),
    ] {
        let mut world = formatted(rt.alloc(), &tiny(), b"begin\nabort\n", &[])?;
        assert_eq!(rt; run(rt.alloc(), &mut world, limit)?, status, "at {limit}");
        assert_eq!(rt; world.output(), replies);
    }
    Ok(())
}

#[test]
fn a_transaction_that_is_open_at_the_end(rt: HostRuntime) -> Result<(), Fail> {
    let world = sends(
        &rt,
        rt.alloc(),
        &small(),
        b"begin\ncreate a\nput a 1 x\n",
        b"ok\nok\nok\n",
    )?;
    let mut again = reopened(rt.alloc(), &world, b"get a 1\nbegin\ncheckpoint\n")?;
    assert_eq!(rt; run(rt.alloc(), &mut again, LIMIT)?, 0);
    assert_eq!(rt;
        again.output(),
        b"refused table\nok\nrefused transaction\n".as_slice()
    );
    Ok(())
}

/// A `put` of 480 letters at a key of one digit.
fn long_put(script: &mut Vec<u8>, digit: u8) -> Result<(), Fail> {
    long_line(
        script,
        &[b'p', b'u', b't', b' ', b'a', b' ', digit, b' '],
        480,
    )
}

/// Nine rows of long values in one transaction, with `create a`.
fn nine_rows(script: &mut Vec<u8>) -> Result<(), Fail> {
    script.extend_from_slice(b"begin\ncreate a\n")?;
    for digit in b"123456789" {
        long_put(script, *digit)?;
    }
    Ok(script.extend_from_slice(b"commit\n")?)
}

#[test]
fn a_tree_of_two_leaves_joins_by_deletes(rt: HostRuntime) -> Result<(), Fail> {
    let mut script = Vec::new(rt.alloc());
    nine_rows(&mut script)?;
    script.extend_from_slice(
        b"begin\ndel a 1\ndel a 2\ndel a 3\ndel a 4\ndel a 5\ndel a 6\ndel a 7\ndel a 8\ndel a 9\ndel a 9\nscan a 0 9\ncommit\nscan a 0 9\n",
    )?;
    sends(
        &rt,
        rt.alloc(),
        &large(),
        script.as_slice(),
        b"ok\nok\nok\nok\nok\nok\nok\nok\nok\nok\nok\ncommitted 1\nok\nok\nok\nok\nok\nok\nok\nok\nok\nok\nnone\nend 0\ncommitted 2\nend 0\n",
    )?;
    Ok(())
}

#[test]
fn a_tree_of_two_leaves_joins_by_shorter_values(rt: HostRuntime) -> Result<(), Fail> {
    let mut script = Vec::new(rt.alloc());
    nine_rows(&mut script)?;
    script.extend_from_slice(b"begin\nput a 1 y\nput a 2 y\nput a 3 y\ncommit\nscan a 1 3\n")?;
    sends(
        &rt,
        rt.alloc(),
        &large(),
        script.as_slice(),
        b"ok\nok\nok\nok\nok\nok\nok\nok\nok\nok\nok\ncommitted 1\nok\nok\nok\nok\ncommitted 2\nrow 1 y\nrow 2 y\nrow 3 y\nend 3\n",
    )?;
    Ok(())
}

/// A source of numbers: a linear congruential generator.
#[derive(Drop)]
struct Numbers {
    state: u64,
}

impl Numbers {
    /// The next number below `end`.
    fn below(&mut self, end: u64) -> u64
        requires { 0 < end }
        ensures { result < end }
    {
        self.state = self
            .state
            .wrapping_mul(6364136223846793005)
            .wrapping_add(1442695040888963407);
        (self.state >> 33) % end
    }
}

/// How many kinds of reply there are, each refusal counted by itself.
const KINDS: usize = 13;

/// The kind of a reply, by its number.
fn kind_of(reply: &Reply) -> usize
    ensures { result < 13 }
{
    match reply {
        Reply::Fine => 0,
        Reply::Found(_) => 1,
        Reply::Absent => 2,
        Reply::Row(_, _) => 3,
        Reply::Finish(_) => 4,
        Reply::Committed(_) => 5,
        Reply::Aborted => 6,
        Reply::Refused(Reason::Form) => 7,
        Reply::Refused(Reason::Transaction) => 8,
        Reply::Refused(Reason::Table) => 9,
        Reply::Refused(Reason::Writes) => 10,
        Reply::Refused(Reason::Tables) => 11,
        Reply::Refused(Reason::Full) => 12,
    }
}

/// A name with a space before it, seldom of the third table.
fn generated_name(numbers: &mut Numbers, script: &mut Vec<u8>) -> Result<(), Fail> {
    script.push(b' ')?;
    Ok(script.push(match numbers.below(7) {
        0..=2 => b'a',
        3..=5 => b'b',
        _ => b'c',
    })?)
}

/// A key of two digits with a space before it; the first digit is one of so many.
fn generated_key(numbers: &mut Numbers, tens: u64, script: &mut Vec<u8>) -> Result<(), Fail>
    requires some { 0 < tens }
    requires few { tens ≤ 9 }
{
    script.push(b' ')?;
    script.push(b'1' + numbers.below(tens) as u8)?;
    Ok(script.push(b'0' + numbers.below(10) as u8)?)
}

/// A line that changes or looks up rows.
fn generated_row(numbers: &mut Numbers, tens: u64, script: &mut Vec<u8>) -> Result<(), Fail>
    requires some { 0 < tens }
    requires few { tens ≤ 9 }
{
    let form = numbers.below(20);
    script.extend_from_slice(match form {
        0..=10 => b"put".as_slice(),
        11..=14 => b"del",
        15..=17 => b"get",
        _ => b"scan",
    })?;
    generated_name(numbers, script)?;
    generated_key(numbers, tens, script)?;
    if form <= 10 {
        return long_line(script, b" ", numbers.below(200));
    }
    if form > 17 {
        generated_key(numbers, tens, script)?;
    }
    Ok(script.push(b'\n')?)
}

/// A line of no form, or one that is silent.
fn generated_aside(numbers: &mut Numbers, script: &mut Vec<u8>) -> Result<(), Fail> {
    Ok(script.extend_from_slice(match numbers.below(8) {
        0 => b"\n".as_slice(),
        1 => b"# put a 12 x\n",
        2 => b"put a 12\n",
        3 => b"get a 12 \n",
        4 => b"del a 012\n",
        5 => b"scan a 12\n",
        6 => b"clean 0\n",
        _ => b"commit \n",
    })?)
}

/// A line of a generated script: mostly of rows, in transactions that are now and then aborted.
fn generated_line(numbers: &mut Numbers, tens: u64, script: &mut Vec<u8>) -> Result<(), Fail>
    requires some { 0 < tens }
    requires few { tens ≤ 9 }
{
    match numbers.below(32) {
        0..=17 => generated_row(numbers, tens, script)?,
        18 | 19 => {
            script.extend_from_slice(b"create")?;
            generated_name(numbers, script)?;
            script.push(b'\n')?;
        }
        20..=23 => script.extend_from_slice(b"begin\n")?,
        24 | 25 => script.extend_from_slice(b"commit\n")?,
        26 => script.extend_from_slice(b"abort\n")?,
        27 => script.extend_from_slice(b"checkpoint\n")?,
        28 => script.extend_from_slice(b"drain\n")?,
        29 => script.extend_from_slice(b"clean 3\n")?,
        _ => generated_aside(numbers, script)?,
    }
    Ok(())
}

/// The plain machine beside the store: what it was asked, what it replied, and which kinds of reply have come.
#[derive(Drop)]
struct Beside {
    plain: PlainMachine,
    script: Vec<u8>,
    replies: Vec<u8>,
    come: [bool; KINDS],
}

impl Beside {
    /// A machine for stores of this geometry.
    fn new(alloc: Global, geometry: &Geometry) -> Beside {
        let limits = Limits {
            tables: geometry.tables,
            rows: geometry.rows,
        };
        Beside {
            plain: PlainMachine::new(alloc, &limits, geometry.writes),
            script: Vec::new(alloc),
            replies: Vec::new(alloc),
            come: [false; KINDS],
        }
    }

    /// A new run over the committed tables.
    fn restart(&mut self) {
        self.plain.restart();
        self.script.clear();
        self.replies.clear();
    }

    /// Asks the line that stands in the script from here on.
    fn ask_from(&mut self, begun: usize) -> Result<(), Fail> {
        let Some(line) = self.script.get(begun..self.script.len().saturating_sub(1)) else {
            return Err("no line")?;
        };
        for reply in &self.plain.answer(line)? {
            self.come[kind_of(reply)] = true;
            self.replies
                .extend_from_slice(reply_text(reply).as_slice())?;
        }
        Ok(())
    }

    /// Asks for all rows of each table.
    fn ask_rows(&mut self) -> Result<(), Fail> {
        for scan in [
            b"scan a 0 18446744073709551615\n",
            b"scan b 0 18446744073709551615\n",
        ] {
            let begun = self.script.len();
            self.script.extend_from_slice(scan)?;
            self.ask_from(begun)?;
        }
        Ok(())
    }

    /// Asks a script of so many lines, between two scans of each table.
    fn ask(&mut self, numbers: &mut Numbers, tens: u64, lines: u32) -> Result<(), Fail>
        requires some { 0 < tens }
        requires few { tens ≤ 9 }
    {
        self.restart();
        self.ask_rows()?;
        for _ in 0..lines {
            let begun = self.script.len();
            generated_line(numbers, tens, &mut self.script)?;
            self.ask_from(begun)?;
        }
        self.ask_rows()
    }
}

/// Three scripts of so many lines each, in runs over one store and over the plain machine: the replies are the same.
/// The kinds of reply that came are handed back.
fn generated_runs(
    rt: &impl Abort,
    alloc: Global,
    geometry: &Geometry,
    seed: u64,
    tens: u64,
    lines: u32,
) -> Result<[bool; KINDS], Fail>
    requires some { 0 < tens }
    requires few { tens ≤ 9 }
{
    let mut beside = Beside::new(alloc, geometry);
    let mut numbers = Numbers { state: seed };
    let mut world = formatted(alloc, geometry, b"", &[])?;
    for _ in 0..3 {
        beside.ask(&mut numbers, tens, lines)?;
        world = reopened(alloc, &world, beside.script.as_slice())?;
        assert_eq!(rt; run(alloc, &mut world, LIMIT)?, 0);
        assert!(rt; world.output() == beside.replies.as_slice());
    }
    Ok(beside.come)
}

#[test]
fn generated_scripts_over_few_rows(rt: HostRuntime) -> Result<(), Fail> {
    for seed in 1..5 {
        let come = generated_runs(&rt, rt.alloc(), &few(), seed, 1, 300)?;
        assert_eq!(rt; come, [true; KINDS]);
    }
    Ok(())
}

#[test]
fn generated_scripts_over_many_rows(rt: HostRuntime) -> Result<(), Fail> {
    for seed in 5..7 {
        generated_runs(&rt, rt.alloc(), &large(), seed, 9, 600)?;
    }
    Ok(())
}

#[test]
fn each_fault_has_its_status(rt: HostRuntime) -> Result<(), Fail> {
    let script = b"begin\ncreate a\ncommit\nget a 1\n";
    let whole = b"ok\nok\ncommitted 1\nnone\n".as_slice();
    for (kind, status) in [(FaultKind::Source, 8), (FaultKind::Sink, 9)] {
        for nth in 0..4 {
            let mut world = formatted(rt.alloc(), &tiny(), script, &[Fault { kind, nth }])?;
            let ended = run(rt.alloc(), &mut world, LIMIT)?;
            assert!(rt;
                ended == status || (ended == 0 && world.faults(kind) == 0),
                "{ended}"
            );
            assert!(rt; whole.starts_with(world.output()));
        }
    }
    Ok(())
}

/// How many commits this output acknowledges; of replies where nothing is refused no other one has a `c`.
fn acknowledged(output: &[u8]) -> usize {
    output.iter().filter(|byte| **byte == b'c').count()
}

/// Whether a store that holds this is one after so many commits, or after one more.
fn is_after(after: &[&[u8]], commits: usize, found: &[u8]) -> bool {
    for text in after.iter().skip(commits).take(2) {
        if *text == found {
            return true;
        }
    }
    false
}

/// Two commits: a table, and a row of it.
const TWICE: &[u8] = b"begin\ncreate a\ncommit\nbegin\nput a 1 x\ncommit\n";

/// What a scan finds after none, one and both of them.
const AFTER_TWICE: [&[u8]; 3] = [b"refused table\n", b"end 0\n", b"row 1 x\nend 1\n"];

/// Makes the two commits over an empty store with one call of a device failing: the replies are a beginning of those without
/// a fault, and what was acknowledged stands. The answer is whether the fault came.
fn comes(
    rt: &impl Abort,
    alloc: Global,
    empty: &MemWorld,
    fault: Fault,
    status: u8,
) -> Result<bool, Fail> {
    let whole = b"ok\nok\ncommitted 1\nok\nok\ncommitted 2\n".as_slice();
    let mut world = failing(alloc, empty, TWICE, &[fault])?;
    let ended = run(alloc, &mut world, LIMIT)?;
    let came = world.faults(fault.kind) > 0;
    assert_eq!(rt; ended, if came { status } else { 0 });
    assert!(rt; whole.starts_with(world.output()) && (came || world.output() == whole));
    let mut next = reopened(alloc, &world, b"scan a 0 9\n")?;
    assert_eq!(rt; run(alloc, &mut next, LIMIT)?, 0);
    assert!(rt;
        is_after(&AFTER_TWICE, acknowledged(world.output()), next.output()),
        "{}",
        fault.nth
    );
    Ok(came)
}

#[test]
fn each_nvm_fault_keeps_what_was_acknowledged(rt: HostRuntime) -> Result<(), Fail> {
    let empty = formatted(rt.alloc(), &tiny(), b"", &[])?;
    let empty = reopened(rt.alloc(), &empty, b"")?;
    let kind = FaultKind::Nvm;
    for nth in 0..10000 {
        if !comes(&rt, rt.alloc(), &empty, Fault { kind, nth }, 6)? {
            assert!(rt; nth > 100);
            return Ok(());
        }
    }
    Err("there are too many calls")?
}

#[test]
fn a_run_asks_nothing_of_the_disk(rt: HostRuntime) -> Result<(), Fail> {
    let empty = formatted(rt.alloc(), &tiny(), b"", &[])?;
    let kind = FaultKind::Ssd;
    assert!(rt; !comes(&rt, rt.alloc(), &empty, Fault { kind, nth: 0 }, 7)?);
    Ok(())
}

/// Opens what a crash leaves after so many events: a scan finds what stood after the commits that were acknowledged by then,
/// or after one more.
fn opens(
    rt: &impl Abort,
    alloc: Global,
    world: &MemWorld,
    events: u64,
    choice: Choice,
    after: &[&[u8]],
) -> Result<(), Fail> {
    if events > world.events() {
        return Err("no such event")?;
    }
    let Some(sent) = world.output().get(..world.sent_at(events)) else {
        return Err("less was sent")?;
    };
    let images = world.images_at(alloc, events, choice, BlockChoice::Fill(0xA5))?;
    let mut left = MemWorld::from_images(alloc, &images, b"", b"scan a 0 9\n", &[])?;
    assert_eq!(rt; run(alloc, &mut left, LIMIT)?, 0);
    assert!(rt;
        is_after(after, acknowledged(sent), left.output()),
        "{events}"
    );
    Ok(())
}

/// Runs a script over a store, and stops it after each event: with each choice of versions, or with one of them by turns.
fn crashes(
    rt: &impl Abort,
    alloc: Global,
    store: &MemWorld,
    script: &[u8],
    by_turns: bool,
    after: &[&[u8]],
) -> Result<(), Fail> {
    let mut world = reopened(alloc, store, script)?;
    assert_eq!(rt; run(alloc, &mut world, LIMIT)?, 0);
    for events in 0..=world.events() {
        for (turn, choice) in [
            (0, Choice::Oldest),
            (1, Choice::Newest),
            (2, Choice::Alternating),
        ] {
            if !by_turns || events % 3 == turn {
                opens(rt, alloc, &world, events, choice, after)?;
            }
        }
    }
    Ok(())
}

#[test]
fn a_crash_keeps_what_was_acknowledged(rt: HostRuntime) -> Result<(), Fail> {
    let empty = formatted(rt.alloc(), &tiny(), b"", &[])?;
    crashes(&rt, rt.alloc(), &empty, TWICE, false, &AFTER_TWICE)
}

/// What a scan finds where so many rows of long values stand.
fn long_rows(alloc: Global, rows: u8) -> Result<Vec<u8>, Fail>
    requires { rows ≤ 9 }
{
    let mut text = Vec::new(alloc);
    for digit in 1..rows + 1 {
        long_line(
            &mut text,
            &[b'r', b'o', b'w', b' ', b'0' + digit, b' '],
            480,
        )?;
    }
    text.extend_from_slice(&[b'e', b'n', b'd', b' ', b'0' + rows, b'\n'])?;
    Ok(text)
}

/// A transaction of one `put` of a long value.
fn put_alone(script: &mut Vec<u8>, digit: u8) -> Result<(), Fail> {
    script.extend_from_slice(b"begin\n")?;
    long_put(script, digit)?;
    Ok(script.extend_from_slice(b"commit\n")?)
}

/// The ninth row of long values cuts the leaf of the eight others.
#[test]
fn a_crash_keeps_a_leaf_that_is_cut(rt: HostRuntime) -> Result<(), Fail> {
    let alloc = rt.alloc();
    let mut script = Vec::new(alloc);
    script.extend_from_slice(b"begin\ncreate a\ncommit\n")?;
    for digit in b"12345678" {
        put_alone(&mut script, *digit)?;
    }
    let mut store = formatted(alloc, &nine(), script.as_slice(), &[])?;
    assert_eq!(rt; run(alloc, &mut store, LIMIT)?, 0);
    script.clear();
    put_alone(&mut script, b'9')?;
    let after = [long_rows(alloc, 8)?, long_rows(alloc, 9)?];
    crashes(
        &rt,
        alloc,
        &store,
        script.as_slice(),
        true,
        &[&after[0], &after[1]],
    )
}

#[test]
fn a_crash_in_an_abort_keeps_what_stood(rt: HostRuntime) -> Result<(), Fail> {
    let alloc = rt.alloc();
    let mut store = formatted(alloc, &tiny(), TWICE, &[])?;
    assert_eq!(rt; run(alloc, &mut store, LIMIT)?, 0);
    let script = b"begin\nput a 1 y\nabort\n";
    crashes(&rt, alloc, &store, script, false, &[b"row 1 x\nend 1\n"])
}
