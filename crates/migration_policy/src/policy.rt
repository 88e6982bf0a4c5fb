//! The numbers that a run chooses.
ghost use Rattle.std.specs.Prelude.{◌≡◌, ◌≤◌, ◌<◌, ◌^◌};

use crate::draws::Draws;

/// The four probabilities, each in thousandths from 0 to 1000, and the sizes that a run chooses.
#[derive(Clone, Copy, Debug, PartialEq, Eq)]
pub struct Policy {
    /// Of a page in NVM alone that is read: to be brought to DRAM.
    pub dr: u16,
    /// Of a page in NVM alone that is written: to be brought to DRAM.
    pub dw: u16,
    /// Of a page on the disk alone: to be read into NVM on its way up.
    pub nr: u16,
    /// Of a changed page that leaves DRAM: to be kept in NVM on its way down.
    pub nw: u16,
    /// How many pages the admission queue holds, from 0 to 65,536. With 0 the probability `nw` decides in its place.
    pub queue_len: u32,
    /// The seed of the draws, below 2^63.
    pub seed: u64,
    /// How many whole pages DRAM holds, from 1 to 65,536.
    pub dram_frames: u32,
    /// How many mini pages DRAM holds, from 0 to 65,536.
    pub minis: u32,
    ghost dr_in_range: { dr ≤ 1000 },
    ghost dw_in_range: { dw ≤ 1000 },
    ghost nr_in_range: { nr ≤ 1000 },
    ghost nw_in_range: { nw ≤ 1000 },
    ghost queue_in_range: { queue_len ≤ 65536 },
    ghost seed_in_range: { seed < 2 ^ 63 },
    ghost some_frame: { 1 ≤ dram_frames },
    ghost frames_in_range: { dram_frames ≤ 65536 },
    ghost minis_in_range: { minis ≤ 65536 },
}

/// Which of the four probabilities decides.
#[derive(Clone, Copy, Debug, PartialEq, Eq)]
pub enum Question {
    DramRead,
    DramWrite,
    NvmRead,
    NvmWrite,
}

impl Policy {
    ghost use Rattle.rand_pcg.specs.Pcg.{pcg32};
    ghost use Rattle.migration_policy.specs.Draws.{says_yes, AnswersByWord};
    ghost use Rattle.migration_policy.specs.Policies.{rate, rates_of};

    /// One draw with the probability that decides the question.
    pub fn decide(&self, draws: &mut Draws, question: Question) -> bool
        ensures answer { let p = rate (rates_of self.now) question in
            result ≡ says_yes p (pcg32 draws.old).0 }
        ensures next { draws.new ≡ (pcg32 draws.old).1 }
        ensures words { let p = rate (rates_of self.now) question in
            AnswersByWord p draws.old draws.new result }
    {
        draws.yes(self.probability(question))
    }

    /// The probability that decides the question, in thousandths.
    fn probability(&self, question: Question) -> u16
        ensures { result ≡ rate (rates_of self.now) question }
    {
        match question {
            Question::DramRead => self.dr,
            Question::DramWrite => self.dw,
            Question::NvmRead => self.nr,
            Question::NvmWrite => self.nw,
        }
    }
}
