ghost use Rattle.std.specs.Prelude.{◌≡◌, IfOk, OnOk, map, string_bytes};
ghost use Rattle.std.specs.FinMap as maps;
ghost use Rattle.wb_rows.specs.Texts.{row_of, rows_in};

use std::alloc::{AllocError, Global};
use std::collections::BTreeMap;
use std::marker::Model;
use wb_base::List;
use wb_outer::{Bytes, Row};

/// Rows that are put one after the other, by their keys.
#[derive(Drop)]
pub(crate) struct RowMap {
    texts: BTreeMap<Bytes, Bytes>,
}

impl Model for RowMap {
    ghost use Rattle.std.specs.Coded.{codes};
    ghost use Rattle.std.specs.FinMap as maps;
    ghost use Rattle.std.specs.FinMap.{is_sorted};
    ghost use Rattle.std.specs.Prelude.{T};
    ghost use Rattle.wb_rows.specs.Texts.{Texts, key_cmp};

    ghost Value = { Texts };

    ghost coded = { Prim.hlevel (codes, maps.code) };

    ghost view = { λ m. maps.from_sorted m.texts.entries };

    ghost invariant = { λ m. T (is_sorted key_cmp m.texts.entries) };
}

impl RowMap {
    /// No rows.
    pub(crate) fn new(alloc: Global) -> RowMap
        ensures { result ≡ maps.empty }
    {
        RowMap {
            texts: BTreeMap::new(alloc),
        }
    }

    /// Puts a row in place of an earlier one of its key.
    pub(crate) fn put(&mut self, key: String, text: Vec<u8>) -> Result<(), AllocError>
        ensures { OnOk result (self.new ≡ maps.insert self.old (string_bytes key) text.items) }
    {
        self.insert(Bytes::from_vec(key.into_bytes()), Bytes::from_vec(text))
    }

    fn insert(&mut self, key: Bytes, text: Bytes) -> Result<(), AllocError>
        ensures { OnOk result (self.new ≡ maps.insert self.old key text) }
    {
        self.texts.insert(key, text)?;
        Ok(())
    }

    /// The rows, ascending by key.
    pub(crate) fn into_rows(self, alloc: Global) -> Result<List<Row>, AllocError>
        ensures { IfOk result (λ rows. rows ≡ rows_in self) }
    {
        listed(alloc, self.texts)
    }
}

fn listed(alloc: Global, texts: BTreeMap<Bytes, Bytes>) -> Result<List<Row>, AllocError>
    ensures { IfOk result (λ rows. rows ≡ map row_of texts.entries) }
{
    let mut rows = Vec::new(alloc);
    for entry in texts {
        rows.push(row_of(entry))?;
    }
    Ok(List::from_vec(rows))
}

fn row_of(entry: (Bytes, Bytes)) -> Row
    ensures { result ≡ row_of entry }
{
    Row {
        key: entry.0,
        text: entry.1,
    }
}
