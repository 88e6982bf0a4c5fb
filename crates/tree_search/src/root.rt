//! The root of a tree, and what is expected of the pages under it.
ghost use Rattle.std.specs.Prelude.{◌≡◌, ◌-◌, ◌≤◌, true, false};
ghost use Rattle.rows.specs.Rows.{last_key};

use page_format::Expect;

/// The root page of a tree and the number of its levels, 1 to 4.
#[derive(Clone, Copy, Debug, PartialEq, Eq)]
pub struct Root {
    /// The number of the page.
    pub page: u64,
    /// How many levels the tree has: 1 where the root is a leaf.
    pub levels: u8,
}

/// What is expected of a root's page.
pub fn root_expect(root: &Root, count: u64) -> Expect
    requires { 1 ≤ root.now.levels }
    ensures { result
        ≡ record {
          level = root.now.levels - 1;
          low = 0;
          high = last_key;
          root = true;
          pages = count;
        } }
{
    Expect {
        level: root.levels - 1,
        low: 0,
        high: u64::MAX,
        root: true,
        pages: count,
    }
}

/// What is expected of a child with these bounds.
pub fn child_expect(expect: &Expect, low: u64, high: u64) -> Expect
    requires { 1 ≤ expect.now.level }
    ensures { result
        ≡ record {
          level = expect.now.level - 1;
          low = low;
          high = high;
          root = false;
          pages = expect.now.pages;
        } }
{
    Expect {
        level: expect.level - 1,
        low,
        high,
        root: false,
        pages: expect.pages,
    }
}
