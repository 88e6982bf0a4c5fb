//! The open access of a store of pages, and the touches so far, which are there for contracts alone and take no bytes.
ghost use Rattle.std.specs.Prelude.{◌≡◌, ℕ, Bool, Option, None, Some, List, [], ◌∷◌, ◌++◌};
ghost use Rattle.std.specs.Borrow.{ftrue};
ghost use Rattle.line_pages.specs.Touch.{Touch, touch_of};

use std::marker::Model;

/// The touches so far, the last one last.
#[derive(Drop)]
pub struct Touches {
    pub ghost list: { List Touch },
}

impl Model for Touches {
    ghost also_owns = { λ _. ftrue };
}

/// One touch of a line.
#[derive(Drop)]
pub(crate) struct Mark {
    /// The page.
    pub page: u64,
    /// The line, below 64.
    pub line: usize,
    /// Whether it was written.
    pub writes: bool,
    /// Whether an access began with it.
    pub begins: bool,
}

impl Touches {
    /// None so far.
    pub fn new() -> Touches
        ensures { result.list ≡ [] }
    {
        Touches {}
    }

    /// Those before, and this one.
    pub(crate) fn with(_before: &Touches, _mark: &Mark) -> Touches
        ensures { result.list
            ≡ _before.now.list
            ++ record {
              page = _mark.now.page;
              line = _mark.now.line;
              writes = _mark.now.writes;
              begins = _mark.now.begins;
            } ∷ [] }
    {
        Touches {}
    }
}

/// What a store of pages keeps of its accesses: the open one, and for contracts the touches so far.
#[derive(Drop)]
pub struct Accesses {
    /// The page of the open access and whether it writes.
    pub open_access: Option<(u64, bool)>,
    /// The touches so far.
    pub touches: Touches,
}

impl Accesses {
    /// None so far.
    pub fn new() -> Accesses
        ensures access { result.open_access ≡ None }
        ensures touches { result.touches.list ≡ [] }
    {
        Accesses {
            open_access: None,
            touches: Touches::new(),
        }
    }

    /// Touches a line, in the open access or in one that it begins.
    pub fn touch(&mut self, page: u64, line: usize, writes: bool)
        ensures access { self.new.open_access ≡ Some (page, writes) }
        ensures touches { self.new.touches.list
            ≡ self.old.touches.list ++ touch_of self.old.open_access page line writes ∷ [] }
    {
        let begins = match self.open_access {
            Some((open_page, open_writes)) => open_page != page || open_writes != writes,
            None => true,
        };
        let mark = Mark {
            page,
            line,
            writes,
            begins,
        };
        self.touches = Touches::with(&self.touches, &mark);
        self.open_access = Some((page, writes));
    }

    /// Ends the open access.
    pub fn end(&mut self)
        ensures access { self.new.open_access ≡ None }
        ensures touches { self.new.touches.list ≡ self.old.touches.list }
    {
        self.open_access = None;
    }
}
