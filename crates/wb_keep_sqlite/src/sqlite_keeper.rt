ghost use Rattle.std.specs.Prelude.{◌≡◌, IfOk, OnErr};
ghost use Rattle.wb_outer.specs.Faults.{counted};
ghost use Rattle.wb_outer.specs.Keeper.{Loads, Commits};
ghost use Rattle.wb_keep_sqlite.specs.Untold.{untold, load_failed, commit_failed};

use crate::database;
use crate::database::Database;
use crate::refusal::Refusal;
use std::alloc::{AllocError, Global};
use std::marker::Model;
use wb_base::List;
use wb_faults::raise;
use wb_outer::{Bytes, Committed, Keeper, Loaded, Row, RowChange};

/// Rows in a SQLite file, which is opened at the first call. It tells no rows.
pub struct SqliteKeeper {
    rt: HostRuntime,
    path: Bytes,
    database: Option<Database>,
    faults: u64,
}

impl Drop for SqliteKeeper {
    fn drop(self) {
        let SqliteKeeper {
            rt: _,
            path: _path,
            database: _database,
            faults: _,
        } = self;
    }
}

impl Model for SqliteKeeper {
    ghost use Rattle.std.specs.Prelude.{ℕ};

    ghost Value = { ℕ };

    ghost view = { λ k. k.faults };
}

// Opens the file, where it is not open yet.
fn open_once(
    rt: &HostRuntime,
    path: &Bytes,
    database: &mut Option<Database>,
) -> Result<(), Refusal> {
    if database.is_none() {
        *database = Some(database::open(rt, path)?);
    }
    Ok(())
}

fn load_from(alloc: Global, database: &mut Option<Database>) -> Result<List<Row>, Refusal> {
    match database {
        Some(database) => database::load(alloc, database),
        None => Err(Refusal::Failed),
    }
}

fn commit_to(database: &mut Option<Database>, changes: &[RowChange]) -> Result<(), Refusal> {
    match database {
        Some(database) => database::commit(database, changes),
        None => Err(Refusal::Failed),
    }
}

impl SqliteKeeper {
    /// A keeper over the file at a path.
    pub fn new(rt: &HostRuntime, path: Bytes) -> SqliteKeeper
        ensures { result ≡ 0 }
    {
        SqliteKeeper {
            rt: *rt,
            path,
            database: None,
            faults: 0,
        }
    }

    fn try_load(&mut self, alloc: Global) -> Result<List<Row>, Refusal>
        ensures { self.new ≡ self.old }
    {
        open_once(&self.rt, &self.path, &mut self.database)?;
        load_from(alloc, &mut self.database)
    }

    fn try_commit(&mut self, changes: &[RowChange]) -> Result<(), Refusal>
        ensures { self.new ≡ self.old }
    {
        open_once(&self.rt, &self.path, &mut self.database)?;
        commit_to(&mut self.database, changes)
    }
}

impl Keeper for SqliteKeeper {
    ghost told = { untold };

    fn load(&mut self, alloc: Global) -> Result<Loaded, AllocError>
        ensures loads { IfOk result (Loads (untold self.old) (untold self.new)) }
        ensures counted { IfOk result (λ loaded. self.new ≡ counted (load_failed loaded) self.old) }
        ensures memory { OnErr result (untold self.new ≡ untold self.old) }
    {
        match self.try_load(alloc) {
            Ok(rows) => Ok(Loaded::Rows(rows)),
            Err(Refusal::NoMemory) => Err(AllocError),
            Err(Refusal::Failed) => {
                self.faults = raise(self.faults);
                Ok(Loaded::Failed)
            }
        }
    }

    fn commit(&mut self, _alloc: Global, changes: &[RowChange]) -> Committed
        ensures commits { Commits (untold self.old) (untold self.new) changes.now result }
        ensures counted { self.new ≡ counted (commit_failed result) self.old }
    {
        match self.try_commit(changes) {
            Ok(()) => Committed::Done,
            Err(Refusal::NoMemory) => Committed::NoMemory,
            Err(Refusal::Failed) => {
                self.faults = raise(self.faults);
                Committed::Failed
            }
        }
    }
}
