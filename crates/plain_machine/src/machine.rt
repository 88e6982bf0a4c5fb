//! The machine: a state, and a step for each line.
ghost use Rattle.std.specs.Prelude.{◌≡◌, ◌<◌, ◌≤◌, ◌+◌, ◌∷◌, ◌++◌, [], None, Some, IfOk, OnOk, OnErr};
ghost use Rattle.texts.specs.Lines.{is_silent as silent};
ghost use Rattle.rows.specs.Rows.{row_put, row_delete};
ghost use Rattle.rows.specs.Tables.{with_rows};
ghost use Rattle.script.specs.Tables.{rows_or_none, with_table};
ghost use Rattle.script.specs.Grammar.{command_in};
ghost use Rattle.script.specs.Machine.{bounds_of, opening, Open, current as tables_now, writes_so_far, refusal as refusal_of, written, rows_in, accepted};
ghost use Rattle.script.specs.declared.command.Command.TheVariants as command;
ghost use Rattle.plain_machine.specs.Plain.{Answers, CountsOn, did};

use crate::refusals::{rows_spent, table_wrong, tables_spent, transaction_wrong, writes_spent};
use crate::tables::{self, PlainTable};
use nvm_model::NoMemory;
use rows::{Limits, Name, Value};
use script::{Command, Reason, Reply, is_silent, read_line};
use std::alloc::Global;
use std::marker::Model;

/// An open transaction: its copy of the tables, and how many writes it has had.
#[derive(Drop)]
struct PlainCopy {
    tables: Vec<PlainTable>,
    writes: u32,
}

impl Model for PlainCopy {
    ghost use Rattle.script.specs.Machine.{Open};

    ghost Value = { Open };

    ghost view = { λ copy. record { tables = copy.tables.items; writes = copy.writes } };
}

impl PlainCopy {
    /// Its tables.
    fn tables(&self) -> &[PlainTable]
        ensures { result.now ≡ self.now.tables }
    {
        self.tables.as_slice()
    }

    /// How many writes it has had.
    fn writes(&self) -> u32
        ensures { result ≡ self.now.writes }
    {
        self.writes
    }

    /// Makes a table.
    fn create(&mut self, alloc: Global, name: Name) -> Result<(), NoMemory>
        requires { self.old.writes < 4294967295 }
        ensures made { OnOk result
            (self.new ≡ record {
              tables = with_table name self.old.tables;
              writes = self.old.writes
                  + 1;
            }) }
        ensures stays { OnErr result (self.new ≡ self.old) }
    {
        tables::create(alloc, &mut self.tables, name)?;
        self.writes += 1;
        Ok(())
    }

    /// Puts a value at a key.
    fn put(&mut self, name: &Name, key: u64, value: Value) -> Result<(), NoMemory>
        requires { self.old.writes < 4294967295 }
        ensures put { OnOk result
            (self.new ≡ record {
              tables = with_rows name.now
                  (row_put key value (rows_or_none name.now self.old.tables)) self.old.tables;
              writes =
                  self.old.writes + 1;
            }) }
        ensures stays { OnErr result (self.new ≡ self.old) }
    {
        tables::put(&mut self.tables, name, key, value)?;
        self.writes += 1;
        Ok(())
    }

    /// Takes the row with a key away.
    fn delete(&mut self, name: &Name, key: u64)
        requires { self.old.writes < 4294967295 }
        ensures { self.new
            ≡ record {
              tables = with_rows name.now
                  (row_delete key (rows_or_none name.now self.old.tables)) self.old.tables;
              writes =
                  self.old.writes + 1;
            } }
    {
        tables::delete(&mut self.tables, name, key);
        self.writes += 1;
    }
}

/// The plain machine. Contracts see its bounds and its state.
#[derive(Drop)]
pub struct PlainMachine {
    alloc: Global,
    limits: Limits,
    writes: u32,
    tables: Vec<PlainTable>,
    transaction: Option<PlainCopy>,
    commits: u64,
}

impl Model for PlainMachine {
    ghost use Rattle.script.specs.Machine.{bounds_of};
    ghost use Rattle.plain_machine.specs.Plain.{Plain};

    ghost Value = { Plain };

    ghost view = { λ m. record {
      bounds = bounds_of m.limits m.writes;
      state = record { tables = m.tables.items; transaction = m.transaction; commits = m.commits };
    } };
}

impl PlainMachine {
    /// A machine without tables, with as many tables and rows as the limits say and this many writes in a transaction.
    pub fn new(alloc: Global, limits: &Limits, writes: u32) -> PlainMachine
        ensures { result ≡ record { bounds = bounds_of limits.now writes; state = opening [] } }
    {
        PlainMachine {
            alloc,
            limits: *limits,
            writes,
            tables: Vec::new(alloc),
            transaction: None,
            commits: 0,
        }
    }

    /// Begins a new run over the committed tables: no transaction is open, and the commits are counted from 1 again.
    pub fn restart(&mut self)
        ensures { self.new
            ≡ record { bounds = self.old.bounds; state = opening self.old.state.tables } }
    {
        self.transaction = None;
        self.commits = 0;
    }

    /// Answers a line, given without its line feed: the replies to it, none where it is silent. After `NoMemory` the machine
    /// is as it was.
    pub fn answer(&mut self, line: &[u8]) -> Result<Vec<Reply>, NoMemory>
        ensures answers { CountsOn self.old.state
            → IfOk result
            (λ replies. Answers self.old self.new (command_in line.now) replies.items) }
        ensures stays { OnErr result (self.new ≡ self.old) }
    {
        if is_silent(line) {
            return Ok(Vec::new(self.alloc));
        }
        match read_line(line) {
            Some(command) => self.step(command),
            None => one(self.alloc, Reply::Refused(Reason::Form)),
        }
    }

    /// Carries a command out, or refuses it.
    fn step(&mut self, command: Command) -> Result<Vec<Reply>, NoMemory>
        ensures answers { CountsOn self.old.state
            → IfOk result (λ replies. Answers self.old self.new (Some command ∷ []) replies.items) }
        ensures stays { OnErr result (self.new ≡ self.old) }
    {
        match self.refusal(&command) {
            Some(reason) => one(self.alloc, Reply::Refused(reason)),
            None => self.accept(command),
        }
    }

    /// Why a command is refused: the first test that holds.
    fn refusal(&self, command: &Command) -> Option<Reason>
        ensures reason { result ≡ refusal_of self.now.bounds self.now.state command.now }
        ensures few { self.now.bounds.writes ≤ 4294967295 }
    {
        let most = self.writes;
        if transaction_wrong(command, self.transaction.is_some()) {
            Some(Reason::Transaction)
        } else if table_wrong(command, self.current()) {
            Some(Reason::Table)
        } else if writes_spent(command, most, self.writes_so_far()) {
            Some(Reason::Writes)
        } else if tables_spent(command, self.limits.tables, self.current()) {
            Some(Reason::Tables)
        } else if rows_spent(command, self.limits.rows, self.current()) {
            Some(Reason::Full)
        } else {
            None
        }
    }

    /// The tables that a command sees.
    fn current(&self) -> &[PlainTable]
        ensures { result.now ≡ tables_now self.now.state }
    {
        match &self.transaction {
            Some(copy) => copy.tables(),
            None => self.tables.as_slice(),
        }
    }

    /// How many writes the open transaction has had.
    fn writes_so_far(&self) -> u32
        ensures { result ≡ writes_so_far self.now.state.transaction }
    {
        match &self.transaction {
            Some(copy) => copy.writes(),
            None => 0,
        }
    }

    /// Carries an accepted command out.
    fn accept(&mut self, command: Command) -> Result<Vec<Reply>, NoMemory>
        requires accepted { refusal_of self.old.bounds self.old.state command ≡ None }
        requires few { self.old.bounds.writes ≤ 4294967295 }
        ensures state { CountsOn self.old.state → OnOk result (self.new ≡ did self.old command) }
        ensures replies { CountsOn self.old.state
            → IfOk result (λ replies. replies.items ≡ (accepted self.old.state command).1) }
        ensures stays { OnErr result (self.new ≡ self.old) }
    {
        match command {
            Command::Begin => self.begin(),
            Command::Create(name) => self.create(name),
            Command::Put(name, key, value) => self.put(&name, key, value),
            Command::Del(name, key) => self.delete(&name, key),
            Command::Get(name, key) => self.get(&name, key),
            Command::Scan(name, low, high) => self.scan(&name, low, high),
            Command::Commit => self.commit(),
            Command::Abort => self.abort(),
            Command::Checkpoint | Command::Drain | Command::Clean(_) => one(
                self.alloc,
                Reply::Fine,
            ),
        }
    }

    /// A transaction opens.
    fn begin(&mut self) -> Result<Vec<Reply>, NoMemory>
        ensures state { OnOk result (self.new ≡ did self.old command.Begin) }
        ensures replies { IfOk result
            (λ replies. replies.items ≡ (accepted self.old.state command.Begin).1) }
        ensures stays { OnErr result (self.new ≡ self.old) }
    {
        let replies = one(self.alloc, Reply::Fine)?;
        let tables = tables::copy(self.alloc, &self.tables)?;
        self.transaction = Some(PlainCopy { tables, writes: 0 });
        Ok(replies)
    }

    /// A table without rows.
    fn create(&mut self, name: Name) -> Result<Vec<Reply>, NoMemory>
        requires { writes_so_far self.old.state.transaction < 4294967295 }
        ensures state { OnOk result (self.new ≡ did self.old (command.Create name)) }
        ensures replies { IfOk result
            (λ replies. replies.items ≡ (accepted self.old.state (command.Create name)).1) }
        ensures stays { OnErr result (self.new ≡ self.old) }
    {
        let replies = one(self.alloc, Reply::Fine)?;
        let alloc = self.alloc;
        if let Some(copy) = &mut self.transaction {
            copy.create(alloc, name)?;
        }
        Ok(replies)
    }

    /// A value at a key.
    fn put(&mut self, name: &Name, key: u64, value: Value) -> Result<Vec<Reply>, NoMemory>
        requires { writes_so_far self.old.state.transaction < 4294967295 }
        ensures state { OnOk result (self.new ≡ did self.old (command.Put name.now key value)) }
        ensures replies { IfOk result
            (λ replies. replies.items
            ≡ (accepted self.old.state (command.Put name.now key value)).1) }
        ensures stays { OnErr result (self.new ≡ self.old) }
    {
        let replies = one(self.alloc, Reply::Fine)?;
        if let Some(copy) = &mut self.transaction {
            copy.put(name, key, value)?;
        }
        Ok(replies)
    }

    /// No row with a key.
    fn delete(&mut self, name: &Name, key: u64) -> Result<Vec<Reply>, NoMemory>
        requires { writes_so_far self.old.state.transaction < 4294967295 }
        ensures state { OnOk result (self.new ≡ did self.old (command.Del name.now key)) }
        ensures replies { IfOk result
            (λ replies. replies.items ≡ (accepted self.old.state (command.Del name.now key)).1) }
        ensures stays { OnErr result (self.new ≡ self.old) }
    {
        if !tables::has_key(self.current(), name, key) {
            return one(self.alloc, Reply::Absent);
        }
        let replies = one(self.alloc, Reply::Fine)?;
        self.remove(name, key);
        Ok(replies)
    }

    /// Takes the row with a key away from the open transaction's copy.
    fn remove(&mut self, name: &Name, key: u64)
        requires { writes_so_far self.old.state.transaction < 4294967295 }
        ensures { self.new
            ≡ record {
              bounds = self.old.bounds;
              state = written
                  (with_rows name.now (row_delete key (rows_in name.now self.old.state))
                  (tables_now self.old.state)) self.old.state;
            } }
    {
        if let Some(copy) = &mut self.transaction {
            copy.delete(name, key);
        }
    }

    /// The value at a key.
    fn get(&mut self, name: &Name, key: u64) -> Result<Vec<Reply>, NoMemory>
        ensures state { OnOk result (self.new ≡ did self.old (command.Get name.now key)) }
        ensures replies { IfOk result
            (λ replies. replies.items ≡ (accepted self.old.state (command.Get name.now key)).1) }
        ensures stays { OnErr result (self.new ≡ self.old) }
    {
        match tables::get(self.current(), name, key) {
            Some(value) => one(self.alloc, Reply::Found(value)),
            None => one(self.alloc, Reply::Absent),
        }
    }

    /// The rows from one key to another.
    fn scan(&mut self, name: &Name, low: u64, high: u64) -> Result<Vec<Reply>, NoMemory>
        ensures state { OnOk result (self.new ≡ did self.old (command.Scan name.now low high)) }
        ensures replies { IfOk result
            (λ replies. replies.items
            ≡ (accepted self.old.state (command.Scan name.now low high)).1) }
        ensures stays { OnErr result (self.new ≡ self.old) }
    {
        let mut replies = Vec::new(self.alloc);
        tables::scan(self.current(), name, low, high, &mut replies)?;
        let count = replies.len() as u64;
        push(&mut replies, Reply::Finish(count))?;
        Ok(replies)
    }

    /// What the open transaction wrote stands.
    fn commit(&mut self) -> Result<Vec<Reply>, NoMemory>
        ensures state { CountsOn self.old.state
            → OnOk result (self.new ≡ did self.old command.Commit) }
        ensures replies { CountsOn self.old.state
            → IfOk result (λ replies. replies.items ≡ (accepted self.old.state command.Commit).1) }
        ensures stays { OnErr result (self.new ≡ self.old) }
    {
        let commits = self.commits.saturating_add(1);
        let replies = one(self.alloc, Reply::Committed(commits))?;
        if let Some(copy) = self.transaction.take() {
            self.tables = copy.tables;
        }
        self.commits = commits;
        Ok(replies)
    }

    /// What it wrote is dropped.
    fn abort(&mut self) -> Result<Vec<Reply>, NoMemory>
        ensures state { OnOk result (self.new ≡ did self.old command.Abort) }
        ensures replies { IfOk result
            (λ replies. replies.items ≡ (accepted self.old.state command.Abort).1) }
        ensures stays { OnErr result (self.new ≡ self.old) }
    {
        let replies = one(self.alloc, Reply::Aborted)?;
        self.transaction = None;
        Ok(replies)
    }
}

/// One reply.
fn one(alloc: Global, reply: Reply) -> Result<Vec<Reply>, NoMemory>
    ensures { IfOk result (λ replies. replies.items ≡ reply ∷ []) }
{
    let mut replies = Vec::new(alloc);
    push(&mut replies, reply)?;
    Ok(replies)
}

/// Puts a reply behind the others.
fn push(replies: &mut Vec<Reply>, reply: Reply) -> Result<(), NoMemory>
    ensures { OnOk result (replies.new.items ≡ replies.old.items ++ reply ∷ []) }
{
    let Ok(_) = replies.push(reply) else {
        return Err(NoMemory);
    };
    Ok(())
}
