//! Reads the rows of a query one at a time.
ghost use Rattle.std.specs.Prelude.{◌≡◌, ◌<◌, false, length, IfOk, IfErr};
ghost use Rattle.sqlite.specs.Order.{column};
ghost use Rattle.sqlite.specs.State.{HasCleanDisk};
ghost use Rattle.sqlite.specs.Held.{state};
ghost use Rattle.dav_rows.specs.Loading.{ReadsText, ReadsNext};
ghost use Rattle.dav_rows.specs.Failing.{IsOutOfMemory, FailsNext, FailsText};

use sqlite::types::FromSql;
use sqlite::{Alter, Connection, Error, ErrorCode, Row, Rows};
use std::alloc::Global;

/// A row of a table, read from the values that a query shows.
pub(crate) trait TableRow: Drop {
    ghost use Rattle.sqlite.specs.Order.{Row as Values};

    /// What the row stands for.
    ghost Entry: { Type 0 };

    ghost entry: { Self → Entry };

    ghost entry_in: { Values → Entry };

    /// Only memory can run out where such values are read.
    ghost IsReadable: { Values → Type 0 };

    fn from_row(row: &Row) -> Result<Self, Error>
        ensures ok { IfOk result (λ r. entry r ≡ entry_in row.now) }
        ensures err { IfErr result (λ e. IsReadable row.now → IsOutOfMemory e) };
}

/// Reads a column. Where it has a value of this type, only memory can run out.
pub(crate) fn value_of<T: FromSql>(row: &Row, at: usize) -> Result<T, Error>
    ensures ok { IfOk result (λ x. (at < length row.now) × T.FromSql.reads_as (column row.now at) x) }
    ensures err { IfErr result (λ e. at < length row.now → T.FromSql.is_readable (column row.now at) → IsOutOfMemory e) }
{
    row.get(at)
}

/// Runs a query that only reads, and reads each row as it is given.
pub(crate) fn read_rows<S: Alter, T: TableRow>(
    conn: &mut Connection<S>,
    alloc: Global,
    sql: &str,
) -> Result<Vec<T>, Error>
    requires { conn.old.in_transaction ≡ false }
    ensures idle { conn.new.in_transaction ≡ false }
    ensures reads { ReadsText T.entry T.entry_in sql.now (state S.Store conn.old) (state S.Store conn.new) result }
    ensures err { FailsText T.IsReadable sql.now (state S.Store conn.old) (state S.Store conn.new) result }
{
    let mut all = Vec::new(alloc);
    let mut rows = conn.query(sql, &[])?;
    'rows: for _ in 0..u64::MAX {
        let Some(row) = next_row(&mut rows)? else {
            return Ok(all);
        };
        all.push(row)?;
    }
    Err(Error::SqliteFailure(ErrorCode::OutOfMemory))
}

fn next_row<S: Alter, T: TableRow>(rows: &mut Rows<'_, S>) -> Result<Option<T>, Error>
    ensures same_reference { rows.new.conn.ghost_name ≡ rows.old.conn.ghost_name }
    ensures idle { rows.old.conn.now.in_transaction ≡ false → rows.new.conn.now.in_transaction ≡ false }
    ensures reads { ReadsNext S.Store T.entry T.entry_in rows.old.conn.now rows.new.conn.now result }
    ensures err { HasCleanDisk (state S.Store rows.new.conn.now) → IfErr result (FailsNext S.Store T.IsReadable rows.old.conn.now rows.new.conn.now) }
{
    rows.advance()?;
    match rows.get() {
        Some(row) => Ok(Some(T::from_row(row)?)),
        None => Ok(None),
    }
}
