//! Which entry names an inode.
ghost use Rattle.std.specs.Prelude.{◌≡◌, ◌==◌, [], option_map, unwrap_or};
ghost use Rattle.std.specs.Ordering.{is_gt};
ghost use Rattle.s3_rows.specs.Keyed.{row_at};
ghost use Rattle.s3_rows.specs.Tables.{Tables, by_name};
ghost use Rattle.s3_rows.specs.Selections.{holder_of};
ghost use Rattle.row_lists.specs.Listing.{by_place, lesser};

use crate::listing::names::NameTable;
use s3_rows::ContentRow;
use std::cmp::Ordering;

/// An entry that names the inode: the least by its parent and by the bytes of its name.
pub fn holder_of_inode<N: NameTable>(
    contents: &[ContentRow],
    names: &N,
    inode: u64,
) -> Option<ContentRow>
    requires { N.stands names.now }
    ensures { (t : Tables) → t.contents ≡ contents.now → t.names ≡ N.rows names.now → result ≡ holder_of t inode }
{
    let mut holder = None;
    let mut left = contents.len();
    while left > 0 {
        left -= 1;
        let row = contents[left];
        if row.inode == inode {
            holder = Some(lesser_of(names, row, holder));
        }
    }
    holder
}

/// The lesser of an entry and one behind it, and of two at one place the first.
fn lesser_of<N: NameTable>(names: &N, row: ContentRow, other: Option<ContentRow>) -> ContentRow
    requires { N.stands names.now }
    ensures { result ≡ lesser (by_place (N.rows names.now)) row other }
{
    match other {
        Some(other) => if comes_after(names, &row, &other) {
            other
        } else {
            row
        },
        None => row,
    }
}

/// Whether an entry comes after another by its parent and by the bytes of its name.
fn comes_after<N: NameTable>(names: &N, row: &ContentRow, other: &ContentRow) -> bool
    requires { N.stands names.now }
    ensures { let o = by_place (N.rows names.now) in result ≡ is_gt (o.compare (o.key row.now) (o.key other.now)) }
{
    match row.parent.cmp(&other.parent) {
        Ordering::Less => false,
        Ordering::Greater => true,
        Ordering::Equal => bytes_of(names, row.name_id)
            .cmp(bytes_of(names, other.name_id))
            .is_gt(),
    }
}

/// The bytes of a name, none where it has no row.
fn bytes_of<N: NameTable>(names: &N, id: u64) -> &[u8]
    requires { N.stands names.now }
    ensures { result.now ≡ unwrap_or (option_map (λ r. r.name) (row_at by_name id (N.rows names.now))) [] }
{
    match names.name_row(id) {
        Some(row) => row.name.as_slice(),
        None => &[],
    }
}
