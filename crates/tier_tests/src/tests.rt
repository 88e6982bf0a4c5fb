//! Worked examples, the words of the generator against those of another program, and the largest sizes.
ghost use Rattle.std.specs.Prelude.{◌≡◌, ◌<◌, ◌≤◌, IfOk, IsTrue, length};
ghost use Rattle.clock_sweep.specs.Clock.{any_stands};
ghost use Rattle.tier_map.specs.Contents.{sizes_of};
ghost use Rattle.tier_tests.specs.Largest.{largest};

use clock_sweep::{Clock, Steps};
use migration_policy::{AdmissionQueue, Draws, Policy, Question};
use nvm_model::NoMemory;
use rand_core::SeedableRng;
use rand_core::utils::NextWord;
use rand_pcg::Lcg64Xsh32;
use std::alloc::Global;
use std::test::Fail;
use tier_map::{Place, TierMap};

/// How many full places, mini places and pages in the queue there may be, and how many frames.
const PLACES: u32 = 65_536;

const FRAMES: u32 = 65_535;

/// The seeds, and the first eight words of each. They were computed with the crates `rand_pcg` 0.3.1 and
/// `rand_core` 0.6.3 for Rust, as Debian has them (`librust-rand-pcg-dev` 0.3.1-2), and `rustc`, by
/// `Lcg64Xsh32::seed_from_u64` and then eight times `next_u32`.
const WORDS: [(u64, [u32; 8]); 4] = [
    (
        0,
        [
            298703107, 4236525527, 336081875, 1056616254, 1060453275, 1616833669, 501767310,
            2864049166,
        ],
    ),
    (
        1,
        [
            866585574, 2109535214, 3403630417, 296513984, 4177522235, 689909480, 3719081784,
            441867712,
        ],
    ),
    (
        7,
        [
            2442223337, 414063806, 2743600285, 3524868804, 2371632060, 1368306093, 671954468,
            3804052768,
        ],
    ),
    (
        9223372036854775807,
        [
            3391299319, 3225704766, 1847434698, 1449080491, 1595319555, 3054264751, 3738057709,
            2227872202,
        ],
    ),
];

#[test]
fn a_clock_of_three(rt: HostRuntime) -> Result<(), Fail> {
    let mut clock = Clock::new(rt.alloc(), 3)?;
    assert!(rt; clock.empty() == Some(0));
    clock.insert(0);
    clock.insert(1);
    assert!(rt; clock.empty() == Some(2));
    clock.insert(2);
    assert!(rt; clock.empty().is_none());
    let mut steps = Steps::new();
    assert_eq!(rt; clock.victim(&mut steps), 0);
    assert_eq!(rt; steps.taken(), 4);
    clock.touch(1);
    assert_eq!(rt; clock.victim(&mut steps), 2);
    assert_eq!(rt; steps.taken(), 6);
    clock.remove(1);
    assert!(rt; clock.empty() == Some(0));
    Ok(())
}

#[test]
fn a_queue_of_two(rt: HostRuntime) -> Result<(), Fail> {
    let mut queue = AdmissionQueue::new(rt.alloc(), 2)?;
    let asked = [5, 5, 5, 6, 7, 5, 7];
    let answers = [false, true, false, false, false, false, true];
    for i in 0..7 {
        assert!(rt; queue.ask(asked[i]) == answers[i]);
    }
    Ok(())
}

/// Each word is told by the two probabilities next to it: with the lower one the answer is no, with the higher one yes.
#[test]
fn words_are_those_of_the_crate(rt: HostRuntime) {
    for (seed, words) in WORDS {
        let mut generator = Lcg64Xsh32::seed_from_u64(seed);
        let mut low = Draws::new(seed);
        let mut high = Draws::new(seed);
        for word in words {
            assert_eq!(rt; generator.next_word(), word, "seed {seed}");
            let part = (word % 1000) as u16;
            assert!(rt; !low.yes(part), "seed {seed}");
            assert!(rt; high.yes(part + 1), "seed {seed}");
        }
    }
}

/// A policy with these four probabilities, in thousandths.
fn policy(dr: u16, dw: u16, nr: u16, nw: u16) -> Policy
    requires { (dr ≤ 1000) × (dw ≤ 1000) × (nr ≤ 1000) × (nw ≤ 1000) }
{
    Policy {
        dr,
        dw,
        nr,
        nw,
        queue_len: 0,
        seed: 1,
        dram_frames: 1,
        minis: 0,
    }
}

/// Answers to each question, in order.
fn answers(policy: &Policy, draws: &mut Draws) -> [bool; 4] {
    [
        policy.decide(draws, Question::DramRead),
        policy.decide(draws, Question::DramWrite),
        policy.decide(draws, Question::NvmRead),
        policy.decide(draws, Question::NvmWrite),
    ]
}

/// One probability at a time is 1000, and the others are 0: the answer is yes to its question alone.
#[test]
fn each_question_has_its_probability(rt: HostRuntime) {
    let mut draws = Draws::new(1);
    for _ in 0..100 {
        assert!(rt; answers(&policy(1000, 0, 0, 0), &mut draws) == [true, false, false, false]);
        assert!(rt; answers(&policy(0, 1000, 0, 0), &mut draws) == [false, true, false, false]);
        assert!(rt; answers(&policy(0, 0, 1000, 0), &mut draws) == [false, false, true, false]);
        assert!(rt; answers(&policy(0, 0, 0, 1000), &mut draws) == [false, false, false, true]);
    }
}

#[test]
fn a_page_goes_up_and_down(rt: HostRuntime) -> Result<(), Fail> {
    let mut map = TierMap::new(rt.alloc(), 9, 2, 3, 4)?;
    assert!(rt; map.place(8) == Place::Absent);
    map.set_nvm(8, 3);
    map.set_mini(8, 2);
    assert!(rt; map.place(8) == Place::Mini(2));
    assert!(rt; map.mini_owner(2) == Some(8));
    map.clear_dram(8);
    assert!(rt; map.place(8) == Place::Absent);
    assert!(rt; map.mini_owner(2).is_none());
    map.set_full(8, 1);
    assert!(rt; map.place(8) == Place::Full(1));
    assert!(rt; map.full_page(1) == Some(8));
    assert!(rt; map.nvm(8) == Some(3));
    map.clear_nvm(8);
    assert!(rt; map.nvm(8).is_none());
    assert!(rt; map.frame_page(3).is_none());
    Ok(())
}

/// A map of 62 tables of 1,000,000 rows, with all places that a policy and a geometry may ask for.
fn largest_map(alloc: Global) -> Result<TierMap, NoMemory>
    ensures { IfOk result (λ map. sizes_of map ≡ largest) }
{
    TierMap::new(alloc, 31_000_497, PLACES, PLACES, FRAMES)
}

/// Gives a page a full copy in a place, where it has no copy and the place is free.
fn put_full(map: &mut TierMap, page: u64, place: u32) -> bool
    requires page { page < (sizes_of map.old).pages }
    requires place { place < (sizes_of map.old).fulls }
    ensures { sizes_of map.new ≡ sizes_of map.old }
{
    match (map.place(page), map.full_page(place)) {
        (Place::Absent, None) => {
            map.set_full(page, place);
            true
        }
        _ => false,
    }
}

/// Gives a page a mini copy in a place, where it has no copy and the place is free.
fn put_mini(map: &mut TierMap, page: u64, mini: u32) -> bool
    requires page { page < (sizes_of map.old).pages }
    requires place { mini < (sizes_of map.old).minis }
    ensures { sizes_of map.new ≡ sizes_of map.old }
{
    match (map.place(page), map.mini_owner(mini)) {
        (Place::Absent, None) => {
            map.set_mini(page, mini);
            true
        }
        _ => false,
    }
}

/// Gives a page a frame, where it has none and the frame is free.
fn put_frame(map: &mut TierMap, page: u64, frame: u32) -> bool
    requires page { page < (sizes_of map.old).pages }
    requires frame { frame < (sizes_of map.old).frames }
    ensures { sizes_of map.new ≡ sizes_of map.old }
{
    match (map.nvm(page), map.frame_page(frame)) {
        (None, None) => {
            map.set_nvm(page, frame);
            true
        }
        _ => false,
    }
}

/// Places the last pages in the full places, the first ones in the mini places, and pages all over in the frames.
fn place_all(map: &mut TierMap) -> bool
    requires { sizes_of map.old ≡ largest }
    ensures { sizes_of map.new ≡ largest }
{
    for i in 0..FRAMES {
        let page = u64::from(i);
        if !put_full(map, 31_000_496 - page, i)
            || !put_mini(map, page, i)
            || !put_frame(map, 473 * page, i)
        {
            return false;
        }
    }
    true
}

/// Whether each of these pages is where it was placed, and each place has its page.
fn all_found(map: &TierMap) -> bool
    requires { sizes_of map.now ≡ largest }
{
    for i in 0..FRAMES {
        let page = u64::from(i);
        if map.place(31_000_496 - page) != Place::Full(i)
            || map.full_page(i) != Some(31_000_496 - page)
            || map.place(page) != Place::Mini(i)
            || map.mini_owner(i) != Some(page)
            || map.nvm(473 * page) != Some(i)
            || map.frame_page(i) != Some(473 * page)
        {
            return false;
        }
    }
    true
}

#[test]
fn the_largest_map(rt: HostRuntime) -> Result<(), Fail> {
    let mut map = largest_map(rt.alloc())?;
    assert!(rt; place_all(&mut map));
    assert!(rt; all_found(&map));
    map.clear_dram(31_000_496);
    assert!(rt; map.full_page(0).is_none());
    assert!(rt; map.place(31_000_495) == Place::Full(1));
    assert!(rt; map.full_page(PLACES - 1).is_none());
    Ok(())
}

/// A clock of so many places, all of which stand.
fn full_clock(alloc: Global, places: u32) -> Result<Clock, Fail>
    requires { 0 < places }
    ensures size { IfOk result (λ clock. length clock ≡ places) }
    ensures stands { IfOk result (λ clock. IsTrue (any_stands clock)) }
{
    let mut clock = Clock::new(alloc, places)?;
    clock.insert(places - 1);
    for place in 0..places {
        clock.insert(place);
    }
    Ok(clock)
}

#[test]
fn the_largest_clock(rt: HostRuntime) -> Result<(), Fail> {
    let mut clock = full_clock(rt.alloc(), PLACES)?;
    let mut steps = Steps::new();
    assert!(rt; clock.empty().is_none());
    assert_eq!(rt; clock.victim(&mut steps), 0);
    assert_eq!(rt; steps.taken(), 65_537);
    assert!(rt; clock.empty() == Some(0));
    clock.remove(65_535);
    clock.insert(0);
    assert!(rt; clock.empty() == Some(65_535));
    Ok(())
}

/// Asks for pages that are not in the queue, from one on up to another.
fn ask_new(queue: &mut AdmissionQueue, from: u64, end: u64) -> bool
    requires { 1 ≤ queue.old.len }
    ensures { queue.new.len ≡ queue.old.len }
{
    for page in from..end {
        if queue.ask(page) {
            return false;
        }
    }
    true
}

/// Of the longest queue the oldest page is dropped, and no other.
#[test]
fn the_longest_queue(rt: HostRuntime) -> Result<(), Fail> {
    let mut queue = AdmissionQueue::new(rt.alloc(), PLACES)?;
    assert!(rt; ask_new(&mut queue, 0, 65_537));
    assert!(rt; !queue.ask(0));
    assert!(rt; queue.ask(2));
    assert!(rt; !queue.ask(1));
    assert!(rt; queue.ask(65_536));
    Ok(())
}
