//! The five numbers of a store, and the places that they give.
//!
//! With f frames and b log blocks, the NVM holds, line by line:
//!
//! | Lines | What |
//! |---|---|
//! | 0 | word 0 the magic word; words 1 to 5 `tables`, `rows`, `writes`, `frames`, `log_blocks` |
//! | 1, 2, 3 | word 0 `start`, `drained`, `tail` |
//! | 4 to 15 | unused |
//! | `(f + 8) / 8` lines from 16 | the frame table: word k, of eight a line, is the entry of frame k, from 0 to f |
//! | then `64 * b` | the log ring: log line o stands at place `o % (64 * b)` |
//! | then `64 * (f + 1)` | the frames, of 64 lines each; frame f is the one through which pages pass |
//!
//! and the SSD `32 * writes + 4` blocks of log lines, and behind them a home block for each page.
ghost use Rattle.std.specs.Prelude.{◌≡◌, ◌≤◌, ◌<◌, ℕ};
ghost use Rattle.store_model.specs.Layout.Region.{table, ring, frames};
ghost use Rattle.store_model.specs.Layout.{ArePlaced, IsIn, pages, nvm_lines, ring_blocks, ssd_blocks, entry_line, entry_word, frame_line, ring_line, ring_block, page_block};

/// The five numbers of a store, each in its range.
#[derive(Clone, Copy, Debug, PartialEq, Eq)]
pub struct Geometry {
    /// How many tables there may be: 1 to 62.
    pub tables: u32,
    /// How many rows a table may have: 1 to 1,000,000.
    pub rows: u64,
    /// How many writes a transaction may have: 1 to 1,024.
    pub writes: u32,
    /// How many frames the NVM has for pages: 0 to 65,535.
    pub frames: u32,
    /// How many blocks of 64 lines the log ring in NVM has: 2 to 1,024.
    pub log_blocks: u32,
    ghost tables_some: { 1 ≤ tables },
    ghost tables_few: { tables ≤ 62 },
    ghost rows_some: { 1 ≤ rows },
    ghost rows_few: { rows ≤ 1000000 },
    ghost writes_some: { 1 ≤ writes },
    ghost writes_few: { writes ≤ 1024 },
    ghost frames_few: { frames ≤ 65535 },
    ghost blocks_some: { 2 ≤ log_blocks },
    ghost blocks_few: { log_blocks ≤ 1024 },
}

impl Geometry {
    ghost use Rattle.nvm_layout.specs.Sizes.{sizes_of};

    /// How many pages a store has: page 0, and `rows / 2 + 8` for each table.
    pub fn pages(&self) -> u64
        ensures { result ≡ pages (sizes_of self.now) }
    {
        1 + self.tables as u64 * (self.rows / 2 + 8)
    }

    /// How many NVM lines it needs. No two of its places are one.
    #[tactic(auto, using(home_laws::proofs::LayoutLaws::are_placed))]
    pub fn nvm_lines(&self) -> u64
        ensures size { result ≡ nvm_lines (sizes_of self.now) }
        ensures placed { ArePlaced (sizes_of self.now) }
    {
        let frames = self.frames as u64;
        16 + (frames + 8) / 8 + 64 * self.log_blocks as u64 + 64 * (frames + 1)
    }

    /// How many blocks the log ring on the SSD has.
    pub fn ring_blocks(&self) -> u64
        ensures { result ≡ ring_blocks (sizes_of self.now) }
    {
        32 * self.writes as u64 + 4
    }

    /// How many SSD blocks it needs.
    pub fn ssd_blocks(&self) -> u64
        ensures { result ≡ ssd_blocks (sizes_of self.now) }
    {
        self.ring_blocks() + self.pages()
    }

    /// The NVM line of a line of a frame; the frame through which pages pass has the number `frames`.
    pub fn frame_line(&self, frame: u32, line: usize) -> u64
        requires frame { frame ≤ self.now.frames }
        requires line { line < 64 }
        ensures place { result ≡ frame_line (sizes_of self.now) frame line }
        ensures part { IsIn (sizes_of self.now) frames result }
        ensures within { result < nvm_lines (sizes_of self.now) }
    {
        let table = (self.frames as u64 + 8) / 8;
        16 + table + 64 * self.log_blocks as u64 + (64 * frame as u64 + line as u64)
    }

    /// The NVM line of the table entry of a frame, and the word in it.
    pub fn table_word(&self, frame: u32) -> (u64, usize)
        requires { frame ≤ self.now.frames }
        ensures line { result.0 ≡ entry_line frame }
        ensures word { result.1 ≡ entry_word frame }
        ensures part { IsIn (sizes_of self.now) table result.0 }
        ensures within { result.0 < nvm_lines (sizes_of self.now) }
    {
        (16 + frame as u64 / 8, (frame % 8) as usize)
    }

    /// The NVM line of the log line at an offset.
    pub fn ring_line(&self, offset: u64) -> u64
        ensures place { result ≡ ring_line (sizes_of self.now) offset }
        ensures part { IsIn (sizes_of self.now) ring result }
        ensures within { result < nvm_lines (sizes_of self.now) }
    {
        16 + (self.frames as u64 + 8) / 8 + offset % (64 * self.log_blocks as u64)
    }

    /// The SSD block of the log line at an offset; it is line `offset % 64` of it.
    pub fn ring_block(&self, offset: u64) -> u64
        ensures place { result ≡ ring_block (sizes_of self.now) offset }
        ensures within { result < ssd_blocks (sizes_of self.now) }
    {
        offset / 64 % self.ring_blocks()
    }

    /// The home block of a page.
    pub fn page_block(&self, page: u64) -> u64
        requires { page < pages (sizes_of self.now) }
        ensures place { result ≡ page_block (sizes_of self.now) page }
        ensures within { result < ssd_blocks (sizes_of self.now) }
    {
        self.ring_blocks() + page
    }
}
