//! The bytes of a page, each of them marked or free.
ghost use Rattle.std.specs.Prelude.{◌≡◌, ◌≤◌, ◌<◌, ◌+◌, ◌-◌, ◌*◌, ◌^◌, true};
ghost use Rattle.page_format.specs.Marks.{marked_in, no_marks, with_run, all_free};

/// A bit for each byte of a page, in words of 64. Contracts see it by `marked_in`.
#[derive(Drop)]
pub(crate) struct Marks {
    words: [u64; 64],
}

impl Marks {
    /// No byte is marked.
    pub(crate) fn new() -> Marks
        ensures { marked_in result.words ≡ no_marks }
    {
        Marks { words: [0; 64] }
    }

    /// Marks the bytes of a record, and says whether all of them were free. Where they were not, some of them are marked.
    pub(crate) fn take(&mut self, place: usize, size: usize) -> bool
        requires some { 1 ≤ size }
        requires within { place + size ≤ 4096 }
        ensures free { result ≡ all_free (marked_in self.old.words) place size }
        ensures marks { result ≡ true
            → marked_in self.new.words ≡ with_run place size (marked_in self.old.words) }
    {
        let mut at = place;
        for word in place / 64..(place + size - 1) / 64 + 1 {
            let until = part_of(word, place + size);
            if !self.take_part(word, at - 64 * word, until) {
                return false;
            }
            at = 64 * word + until;
        }
        true
    }

    /// Marks the bytes of one word, and says whether all of them were free.
    fn take_part(&mut self, word: usize, from: usize, until: usize) -> bool
        requires word { word < 64 }
        requires some { from < until }
        requires within { until ≤ 64 }
        ensures free { result
            ≡ all_free (marked_in self.old.words) (64 * word + from) (until - from) }
        ensures marks { marked_in self.new.words
            ≡ with_run (64 * word + from) (until - from) (marked_in self.old.words) }
    {
        let mask = mask_of(from, until);
        let is_free = self.words[word] & mask == 0;
        self.words[word] |= mask;
        is_free
    }
}

/// How many bytes of a word stand before an end.
fn part_of(word: usize, end: usize) -> usize
    requires { 64 * word < end }
    ensures some { 0 < result }
    ensures within { result ≤ 64 }
    ensures before { 64 * word + result ≤ end }
    ensures whole { 64 * word + result < end → result ≡ 64 }
{
    if 64 < end - 64 * word {
        64
    } else {
        end - 64 * word
    }
}

/// A word whose bits from a first one up to an end are set.
fn mask_of(from: usize, until: usize) -> u64
    requires some { from < until }
    requires within { until ≤ 64 }
    ensures { result ≡ 2 ^ until - 2 ^ from }
{
    (u64::MAX >> (64 - (until - from))) << from
}
