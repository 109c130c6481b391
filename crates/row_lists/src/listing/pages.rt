//! Pages of each table.
ghost use Rattle.std.specs.Prelude.{◌≡◌, not, filter, map, take, IsTrue, IfOk};
ghost use Rattle.std.specs.List.Sorted.{IsPartitionedBy};
ghost use Rattle.s3_rows.specs.declared.table_rows.Row.{Row};
ghost use Rattle.s3_rows.specs.declared.table_rows.Row.TheVariants as rows;
ghost use Rattle.s3_rows.specs.Keyed.{rises};
ghost use Rattle.s3_rows.specs.Tables.{Tables, by_inode, by_name, by_entry, by_spot, by_block, by_object, by_target, by_attr, by_slot};
ghost use Rattle.s3_rows.specs.Selections.{is_number_past, is_pair_past, is_row_past, page_of};
ghost use Rattle.s3_rows.specs.Told.{is_page_of};

use s3_base::Sequence;
use s3_rows::{
    AttrRow, BlockRow, ContentRow, InodeBlockRow, InodeRow, NameRow, ObjectRow, Row, RowKey,
    RowList, SlotRow, TableName, TargetRow,
};
use std::alloc::{AllocError, Global};

/// A row of one of the tables.
trait TableRow {
    /// The row as one of any table.
    ghost row_of: { Self → Row };

    /// Whether the row comes after the key.
    fn comes_past(&self, after: &RowKey) -> bool
        ensures { result ≡ is_row_past after.now (row_of self.now) };

    /// A copy of the row.
    fn to_row(&self) -> Result<Row, AllocError>
        ensures { IfOk result (λ r. r ≡ row_of self.now) };
}

impl TableRow for InodeRow {
    ghost row_of = { rows.Inode };

    fn comes_past(&self, after: &RowKey) -> bool {
        number_comes_past(after, self.id)
    }

    fn to_row(&self) -> Result<Row, AllocError> {
        Ok(Row::Inode(*self))
    }
}

impl TableRow for NameRow {
    ghost row_of = { rows.Name };

    fn comes_past(&self, after: &RowKey) -> bool {
        number_comes_past(after, self.id)
    }

    fn to_row(&self) -> Result<Row, AllocError> {
        Ok(Row::Name(self.clone()?))
    }
}

impl TableRow for ContentRow {
    ghost row_of = { rows.Content };

    fn comes_past(&self, after: &RowKey) -> bool {
        pair_comes_past(after, self.parent, self.name_id)
    }

    fn to_row(&self) -> Result<Row, AllocError> {
        Ok(Row::Content(*self))
    }
}

impl TableRow for InodeBlockRow {
    ghost row_of = { rows.InodeBlock };

    fn comes_past(&self, after: &RowKey) -> bool {
        pair_comes_past(after, self.inode, self.blockno)
    }

    fn to_row(&self) -> Result<Row, AllocError> {
        Ok(Row::InodeBlock(*self))
    }
}

impl TableRow for BlockRow {
    ghost row_of = { rows.Block };

    fn comes_past(&self, after: &RowKey) -> bool {
        number_comes_past(after, self.id)
    }

    fn to_row(&self) -> Result<Row, AllocError> {
        Ok(Row::Block(*self))
    }
}

impl TableRow for ObjectRow {
    ghost row_of = { rows.Object };

    fn comes_past(&self, after: &RowKey) -> bool {
        number_comes_past(after, self.id)
    }

    fn to_row(&self) -> Result<Row, AllocError> {
        Ok(Row::Object(*self))
    }
}

impl TableRow for TargetRow {
    ghost row_of = { rows.Target };

    fn comes_past(&self, after: &RowKey) -> bool {
        number_comes_past(after, self.inode)
    }

    fn to_row(&self) -> Result<Row, AllocError> {
        Ok(Row::Target(self.clone()?))
    }
}

impl TableRow for AttrRow {
    ghost row_of = { rows.Attr };

    fn comes_past(&self, after: &RowKey) -> bool {
        pair_comes_past(after, self.inode, self.name_id)
    }

    fn to_row(&self) -> Result<Row, AllocError> {
        Ok(Row::Attr(self.clone()?))
    }
}

impl TableRow for SlotRow {
    ghost row_of = { rows.Slot };

    fn comes_past(&self, after: &RowKey) -> bool {
        number_comes_past(after, self.slot as u64)
    }

    fn to_row(&self) -> Result<Row, AllocError> {
        Ok(Row::Slot(*self))
    }
}

fn number_comes_past(after: &RowKey, number: u64) -> bool
    ensures { result ≡ is_number_past after.now number }
{
    match after {
        RowKey::Start => true,
        RowKey::One(key) => *key < number,
        RowKey::Two(_, _) => false,
    }
}

fn pair_comes_past(after: &RowKey, first: u64, second: u64) -> bool
    ensures { result ≡ is_pair_past after.now (first, second) }
{
    match after {
        RowKey::Start => true,
        RowKey::One(_) => false,
        RowKey::Two(key, next) => (*key, *next) < (first, second),
    }
}

/// The first `max` rows past a key, of rows of which those past it come last.
fn page_of_rows<T: TableRow>(
    alloc: Global,
    rows: &[T],
    after: &RowKey,
    max: u32,
) -> Result<RowList, AllocError>
    requires { IsPartitionedBy (λ r. not (is_row_past after.now (T.row_of r))) rows.now }
    ensures { IfOk result (λ l. l ≡ take max (filter (is_row_past after.now) (map T.row_of rows.now))) }
{
    let start = rows.partition_point(
        |row: &T| -> bool
            ensures { result ≡ not (is_row_past after.entry.now (T.row_of row.now)) }
        { !row.comes_past(after) },
    );
    let rest = &rows[start..];
    let count = rest.len().min(max as usize);
    let mut page = Sequence::new(alloc);
    for row in &rest[..count] {
        page.push(row.to_row()?)?;
    }
    Ok(page)
}

/// The first `max` inodes past a key, in the order of their keys.
pub fn page_of_inodes(
    alloc: Global,
    rows: &[InodeRow],
    after: &RowKey,
    max: u32,
) -> Result<RowList, AllocError>
    requires { IsTrue (rises by_inode rows.now) }
    ensures rows { IfOk result (λ l. (t : Tables) → t.inodes ≡ rows.now → l ≡ page_of t TableName.Inodes after.now max) }
    ensures page { IfOk result (λ l. IsTrue (is_page_of TableName.Inodes after.now max l)) }
{
    page_of_rows(alloc, rows, after, max)
}

/// The first `max` names past a key, in the order of their keys.
pub fn page_of_names(
    alloc: Global,
    rows: &[NameRow],
    after: &RowKey,
    max: u32,
) -> Result<RowList, AllocError>
    requires { IsTrue (rises by_name rows.now) }
    ensures rows { IfOk result (λ l. (t : Tables) → t.names ≡ rows.now → l ≡ page_of t TableName.Names after.now max) }
    ensures page { IfOk result (λ l. IsTrue (is_page_of TableName.Names after.now max l)) }
{
    page_of_rows(alloc, rows, after, max)
}

/// The first `max` entries past a key, in the order of their keys.
pub fn page_of_contents(
    alloc: Global,
    rows: &[ContentRow],
    after: &RowKey,
    max: u32,
) -> Result<RowList, AllocError>
    requires { IsTrue (rises by_entry rows.now) }
    ensures rows { IfOk result (λ l. (t : Tables) → t.contents ≡ rows.now → l ≡ page_of t TableName.Contents after.now max) }
    ensures page { IfOk result (λ l. IsTrue (is_page_of TableName.Contents after.now max l)) }
{
    page_of_rows(alloc, rows, after, max)
}

/// The first `max` blocks of files past a key, in the order of their keys.
pub fn page_of_inode_blocks(
    alloc: Global,
    rows: &[InodeBlockRow],
    after: &RowKey,
    max: u32,
) -> Result<RowList, AllocError>
    requires { IsTrue (rises by_spot rows.now) }
    ensures rows { IfOk result (λ l. (t : Tables) → t.inode_blocks ≡ rows.now → l ≡ page_of t TableName.InodeBlocks after.now max) }
    ensures page { IfOk result (λ l. IsTrue (is_page_of TableName.InodeBlocks after.now max l)) }
{
    page_of_rows(alloc, rows, after, max)
}

/// The first `max` blocks past a key, in the order of their keys.
pub fn page_of_blocks(
    alloc: Global,
    rows: &[BlockRow],
    after: &RowKey,
    max: u32,
) -> Result<RowList, AllocError>
    requires { IsTrue (rises by_block rows.now) }
    ensures rows { IfOk result (λ l. (t : Tables) → t.blocks ≡ rows.now → l ≡ page_of t TableName.Blocks after.now max) }
    ensures page { IfOk result (λ l. IsTrue (is_page_of TableName.Blocks after.now max l)) }
{
    page_of_rows(alloc, rows, after, max)
}

/// The first `max` objects past a key, in the order of their keys.
pub fn page_of_objects(
    alloc: Global,
    rows: &[ObjectRow],
    after: &RowKey,
    max: u32,
) -> Result<RowList, AllocError>
    requires { IsTrue (rises by_object rows.now) }
    ensures rows { IfOk result (λ l. (t : Tables) → t.objects ≡ rows.now → l ≡ page_of t TableName.Objects after.now max) }
    ensures page { IfOk result (λ l. IsTrue (is_page_of TableName.Objects after.now max l)) }
{
    page_of_rows(alloc, rows, after, max)
}

/// The first `max` targets of links past a key, in the order of their keys.
pub fn page_of_targets(
    alloc: Global,
    rows: &[TargetRow],
    after: &RowKey,
    max: u32,
) -> Result<RowList, AllocError>
    requires { IsTrue (rises by_target rows.now) }
    ensures rows { IfOk result (λ l. (t : Tables) → t.targets ≡ rows.now → l ≡ page_of t TableName.Targets after.now max) }
    ensures page { IfOk result (λ l. IsTrue (is_page_of TableName.Targets after.now max l)) }
{
    page_of_rows(alloc, rows, after, max)
}

/// The first `max` attributes past a key, in the order of their keys.
pub fn page_of_attrs(
    alloc: Global,
    rows: &[AttrRow],
    after: &RowKey,
    max: u32,
) -> Result<RowList, AllocError>
    requires { IsTrue (rises by_attr rows.now) }
    ensures rows { IfOk result (λ l. (t : Tables) → t.attrs ≡ rows.now → l ≡ page_of t TableName.Attrs after.now max) }
    ensures page { IfOk result (λ l. IsTrue (is_page_of TableName.Attrs after.now max l)) }
{
    page_of_rows(alloc, rows, after, max)
}

/// The first `max` slots past a key, in the order of their keys.
pub fn page_of_slots(
    alloc: Global,
    rows: &[SlotRow],
    after: &RowKey,
    max: u32,
) -> Result<RowList, AllocError>
    requires { IsTrue (rises by_slot rows.now) }
    ensures rows { IfOk result (λ l. (t : Tables) → t.slots ≡ rows.now → l ≡ page_of t TableName.Slots after.now max) }
    ensures page { IfOk result (λ l. IsTrue (is_page_of TableName.Slots after.now max l)) }
{
    page_of_rows(alloc, rows, after, max)
}
