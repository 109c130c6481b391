//! The row of a key among rows in the order of their keys.
ghost use Rattle.std.specs.Prelude.{◌≡◌, length, option_map, IsTrue, IfOk, IfErr};
ghost use Rattle.std.specs.List.Sorted.{IsSearchInRange};
ghost use Rattle.s3_rows.specs.Keyed.{rises, row_at};
ghost use Rattle.row_lemmas.specs.Places.{Stands, GoesAt};

use s3_rows::{BlockRow, ContentRow, InodeRow, NameRow, ObjectRow, TargetRow};

/// A row with a key of its table.
pub trait Row {
    type Key: Ord + Copy + Drop;

    ghost key: { Self → Self.Key };

    fn key(&self) -> Self::Key
        ensures { result ≡ key self.now };
}

/// Where the row of a key is, or where it would go.
fn place<R: Row>(rows: &[R], key: R::Key) -> Result<usize, usize>
    requires { IsTrue (rises (record { compare = R.Key.cmp; key = R.key }) rows.now) }
    ensures found { IfOk result (Stands (record { compare = R.Key.cmp; key = R.key }) key rows.now) }
    ensures absent { IfErr result (GoesAt (record { compare = R.Key.cmp; key = R.key }) key rows.now) }
    ensures within { IsSearchInRange result (length rows.now) }
{
    rows.binary_search_by_key(&key, |row| row.key())
}

/// The row of a key.
pub fn row_of<R: Row>(rows: &[R], key: R::Key) -> Option<&R>
    requires { IsTrue (rises (record { compare = R.Key.cmp; key = R.key }) rows.now) }
    ensures { option_map (λ r. r.now) result ≡ row_at (record { compare = R.Key.cmp; key = R.key }) key rows.now }
{
    match place(rows, key) {
        Ok(at) => Some(&rows[at]),
        Err(_) => None,
    }
}

impl Row for InodeRow {
    type Key = u64;

    ghost key = { λ r. r.id };

    fn key(&self) -> u64 {
        self.id
    }
}

impl Row for NameRow {
    type Key = u64;

    ghost key = { λ r. r.id };

    fn key(&self) -> u64 {
        self.id
    }
}

impl Row for ContentRow {
    type Key = (u64, u64);

    ghost key = { λ r. (r.parent, r.name_id) };

    fn key(&self) -> (u64, u64) {
        (self.parent, self.name_id)
    }
}

impl Row for BlockRow {
    type Key = u64;

    ghost key = { λ r. r.id };

    fn key(&self) -> u64 {
        self.id
    }
}

impl Row for ObjectRow {
    type Key = u64;

    ghost key = { λ r. r.id };

    fn key(&self) -> u64 {
        self.id
    }
}

impl Row for TargetRow {
    type Key = u64;

    ghost key = { λ r. r.inode };

    fn key(&self) -> u64 {
        self.inode
    }
}
