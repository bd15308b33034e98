//! The file of rows: a table of keys and texts. Nothing is claimed of what it holds.
use crate::refusal::Refusal;
use sqlite::{Connection, File, FileStore, params};
use std::alloc::{AllocError, Global};
use wb_base::List;
use wb_outer::{Bytes, Row, RowChange};

pub type Database = Connection<FileStore<File>>;

const MAKE: &str = "CREATE TABLE IF NOT EXISTS kept(k BLOB PRIMARY KEY, t BLOB NOT NULL)";

const LOAD: &str = "SELECT k, t FROM kept ORDER BY k";

const PUT: &str =
    "INSERT INTO kept(k, t) VALUES (?1, ?2) ON CONFLICT(k) DO UPDATE SET t = excluded.t";

const ERASE: &str = "DELETE FROM kept WHERE k = ?1";

/// Opens the file at a path, and makes the table where there is none. Bytes that are no text are no path.
pub fn open(rt: &HostRuntime, path: &Bytes) -> Result<Database, Refusal> {
    let Ok(path) = std::str::from_utf8(path.as_slice()) else {
        return Err(Refusal::Failed);
    };
    let mut database = Connection::open(rt, path)?;
    database.execute_batch(MAKE)?;
    Ok(database)
}

fn read_row(row: &sqlite::Row) -> Result<Row, Refusal> {
    let key: Vec<u8> = row.get(0)?;
    let text: Vec<u8> = row.get(1)?;
    Ok(Row {
        key: Bytes::from_vec(key),
        text: Bytes::from_vec(text),
    })
}

fn keep(rows: &mut List<Row>, row: Row) -> Result<(), AllocError> {
    rows.push(row)?;
    Ok(())
}

/// All rows, ascending by key as the database orders them.
pub fn load(alloc: Global, database: &mut Database) -> Result<List<Row>, Refusal> {
    let found = database.query_all(LOAD, &[])?;
    let mut rows = List::new(alloc);
    for row in found.as_slice() {
        keep(&mut rows, read_row(row)?)?;
    }
    Ok(rows)
}

fn put(database: &mut Database, row: &Row) -> Result<(), Refusal> {
    database.execute(PUT, params![row.key.as_slice(), row.text.as_slice()])?;
    Ok(())
}

fn erase(database: &mut Database, key: &Bytes) -> Result<(), Refusal> {
    database.execute(ERASE, params![key.as_slice()])?;
    Ok(())
}

fn apply(database: &mut Database, change: &RowChange) -> Result<(), Refusal> {
    match change {
        RowChange::Put(row) => put(database, row),
        RowChange::Erase(key) => erase(database, key),
    }
}

fn apply_all(database: &mut Database, changes: &[RowChange]) -> Result<(), Refusal> {
    for change in changes {
        apply(database, change)?;
    }
    Ok(())
}

fn say(database: &mut Database, text: &str) -> Result<(), Refusal> {
    database.execute(text, &[])?;
    Ok(())
}

/// Makes all changes in one transaction, which is dropped at the first refusal.
pub fn commit(database: &mut Database, changes: &[RowChange]) -> Result<(), Refusal> {
    say(database, "BEGIN")?;
    match apply_all(database, changes) {
        Ok(()) => say(database, "COMMIT"),
        Err(refusal) => {
            let _ = say(database, "ROLLBACK");
            Err(refusal)
        }
    }
}
