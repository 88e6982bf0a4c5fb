//! Draws from a seeded generator.
ghost use Rattle.std.specs.Prelude.{◌≡◌, ◌≤◌, ◌^◌};
ghost use Rattle.rand_pcg.specs.Pcg.{pcg32};
ghost use Rattle.migration_policy.specs.Draws.{generator_after, says_yes, AnswersByWord};

use rand_core::SeedableRng;
use rand_core::utils::NextWord;
use rand_pcg::Lcg64Xsh32;
use std::marker::Model;

/// Answers with given probabilities, from a seeded generator.
#[derive(Drop)]
pub struct Draws {
    words: Lcg64Xsh32,
}

impl Model for Draws {
    ghost use Rattle.rand_pcg.specs.Lcg.{Lcg};

    ghost Value = { Lcg };

    ghost view = { λ d. d.words };
}

impl Draws {
    /// The generator that the seed makes, with no word drawn.
    pub fn new(seed: u64) -> Draws
        ensures { result ≡ generator_after seed 0 }
    {
        Draws {
            words: Lcg64Xsh32::seed_from_u64(seed),
        }
    }

    /// Whether the next word says yes, as `p` of a thousand do: `word % 1000 < p`.
    pub fn yes(&mut self, p: u16) -> bool
        ensures answer { result ≡ says_yes p (pcg32 self.old).0 }
        ensures next { self.new ≡ (pcg32 self.old).1 }
        ensures words { AnswersByWord p self.old self.new result }
    {
        self.draw(p)
    }

    /// One draw.
    fn draw(&mut self, p: u16) -> bool
        ensures answer { result ≡ says_yes p (pcg32 self.old).0 }
        ensures next { self.new ≡ (pcg32 self.old).1 }
    {
        self.words.next_word() % 1000 < u32::from(p)
    }
}
