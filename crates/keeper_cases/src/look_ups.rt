//! The look-ups of a keeper, from words.
ghost use Rattle.std.specs.Prelude.{IsTrue, IfSome};
ghost use Rattle.s3_rows.specs.Selections.{fits_key};

use crate::printing::{found_text, list_text};
use case_words::{named, verb_of};
use mem_keeper::MemKeeper;
use row_words::Fields;
use s3_rows::{Keeper, RowKey, TableName};
use std::alloc::{AllocError, Global};

/// The tables, by their names.
const TABLES: &[(&str, TableName)] = &[
    ("inodes", TableName::Inodes),
    ("names", TableName::Names),
    ("contents", TableName::Contents),
    ("inode_blocks", TableName::InodeBlocks),
    ("blocks", TableName::Blocks),
    ("objects", TableName::Objects),
    ("targets", TableName::Targets),
    ("attrs", TableName::Attrs),
    ("slots", TableName::Slots),
];

/// A look-up of a row by one number.
#[derive(Clone, Copy)]
enum ByOne {
    Inode,
    Name,
    Holder,
    Block,
    Object,
    Target,
}

/// A look-up of a row by two numbers.
#[derive(Clone, Copy)]
enum ByTwo {
    Entry,
    BlockAt,
    Attr,
    SlotAt,
}

#[derive(Clone, Copy)]
enum LookUp {
    Params,
    NameId,
    Entries,
    Attrs,
    FreeObjects,
    BlocksOf,
    Slots,
    Page,
    BlockByDigest,
    Find,
    ByOne(ByOne),
    ByTwo(ByTwo),
}

const LOOK_UPS: &[(&str, LookUp)] = &[
    ("params", LookUp::Params),
    ("name_id", LookUp::NameId),
    ("entries", LookUp::Entries),
    ("attrs", LookUp::Attrs),
    ("free_objects", LookUp::FreeObjects),
    ("blocks_of", LookUp::BlocksOf),
    ("slots", LookUp::Slots),
    ("page", LookUp::Page),
    ("block_by_digest", LookUp::BlockByDigest),
    ("find", LookUp::Find),
    ("inode", LookUp::ByOne(ByOne::Inode)),
    ("name", LookUp::ByOne(ByOne::Name)),
    ("holder", LookUp::ByOne(ByOne::Holder)),
    ("block", LookUp::ByOne(ByOne::Block)),
    ("object", LookUp::ByOne(ByOne::Object)),
    ("target", LookUp::ByOne(ByOne::Target)),
    ("entry", LookUp::ByTwo(ByTwo::Entry)),
    ("block_at", LookUp::ByTwo(ByTwo::BlockAt)),
    ("attr", LookUp::ByTwo(ByTwo::Attr)),
    ("slot_at", LookUp::ByTwo(ByTwo::SlotAt)),
];

/// What is printed for words that are no look-up.
fn no_look_up(alloc: Global) -> Result<String, AllocError> {
    String::from_str(alloc, "no look-up")
}

fn by_one(
    alloc: Global,
    keeper: &mut MemKeeper,
    by: ByOne,
    key: u64,
) -> Result<String, AllocError> {
    match by {
        ByOne::Inode => found_text(alloc, keeper.inode(key)),
        ByOne::Name => found_text(alloc, keeper.name(key)),
        ByOne::Holder => found_text(alloc, keeper.holder(key)),
        ByOne::Block => found_text(alloc, keeper.block(key)),
        ByOne::Object => found_text(alloc, keeper.object(key)),
        ByOne::Target => found_text(alloc, keeper.target(key)),
    }
}

fn by_two(
    alloc: Global,
    keeper: &mut MemKeeper,
    by: ByTwo,
    first: u64,
    second: u64,
) -> Result<String, AllocError> {
    match by {
        ByTwo::Entry => found_text(alloc, keeper.entry(first, second)),
        ByTwo::BlockAt => found_text(alloc, keeper.block_at(first, second)),
        ByTwo::Attr => found_text(alloc, keeper.attr(first, second)),
        ByTwo::SlotAt => found_text(alloc, keeper.slot_at(first, second)),
    }
}

fn name_id(
    alloc: Global,
    keeper: &mut MemKeeper,
    fields: &mut Fields,
) -> Result<String, AllocError> {
    match fields.bytes(alloc, 0)? {
        Some(name) => found_text(alloc, keeper.name_id(&name)),
        None => no_look_up(alloc),
    }
}

fn entries(
    alloc: Global,
    keeper: &mut MemKeeper,
    fields: &mut Fields,
) -> Result<String, AllocError> {
    let (parent, most) = (fields.number(0), fields.most(2));
    match fields.bytes(alloc, 1)? {
        Some(after) => list_text(alloc, keeper.entries(parent, &after, most)),
        None => no_look_up(alloc),
    }
}

fn attrs(alloc: Global, keeper: &mut MemKeeper, fields: &mut Fields) -> Result<String, AllocError> {
    let (inode, most) = (fields.number(0), fields.most(2));
    match fields.bytes(alloc, 1)? {
        Some(after) => list_text(alloc, keeper.attrs(inode, &after, most)),
        None => no_look_up(alloc),
    }
}

/// Two numbers with a colon between.
fn pair_of(word: &str) -> Option<(u64, u64)> {
    let (first, second) = word.split_once(':')?;
    Some((first.parse().ok()?, second.parse().ok()?))
}

/// The key after which a page of a table begins: `start`, or as many numbers as a key of the table has, with a colon between.
fn key_of(table: TableName, word: &str) -> Option<RowKey>
    ensures { IfSome result (λ key. IsTrue (fits_key table key)) }
{
    if word == "start" {
        return Some(RowKey::Start);
    }
    match table {
        TableName::Contents | TableName::InodeBlocks | TableName::Attrs => {
            let (first, second) = pair_of(word)?;
            Some(RowKey::Two(first, second))
        }
        _ => Some(RowKey::One(word.parse().ok()?)),
    }
}

fn page(alloc: Global, keeper: &mut MemKeeper, fields: &mut Fields) -> Result<String, AllocError> {
    let most = fields.most(2);
    let Some(table) = named(TABLES, fields.word(0)) else {
        return no_look_up(alloc);
    };
    match key_of(table, fields.word(1)) {
        Some(after) => list_text(alloc, keeper.page(table, &after, most)),
        None => no_look_up(alloc),
    }
}

/// What a look-up answers by its fields, which means nothing where one is bad.
fn answer(
    alloc: Global,
    keeper: &mut MemKeeper,
    look_up: LookUp,
    fields: &mut Fields,
) -> Result<String, AllocError> {
    match look_up {
        LookUp::Params => found_text(alloc, keeper.params()),
        LookUp::NameId => name_id(alloc, keeper, fields),
        LookUp::Entries => entries(alloc, keeper, fields),
        LookUp::Attrs => attrs(alloc, keeper, fields),
        LookUp::FreeObjects => {
            let (after, most) = (fields.number(0), fields.most(1));
            list_text(alloc, keeper.free_objects(after, most))
        }
        LookUp::BlocksOf => {
            let (inode, from, most) = (fields.number(0), fields.number(1), fields.most(2));
            list_text(alloc, keeper.blocks_of(inode, from, most))
        }
        LookUp::Slots => {
            let (from, most) = (fields.middle(0), fields.most(1));
            list_text(alloc, keeper.slots(from, most))
        }
        LookUp::Page => page(alloc, keeper, fields),
        LookUp::BlockByDigest => found_text(
            alloc,
            keeper.block_by_digest(&fields.digest(alloc, 0)?),
        ),
        LookUp::Find => found_text(alloc, hash_index::find(keeper, &fields.digest(alloc, 0)?)),
        LookUp::ByOne(by) => by_one(alloc, keeper, by, fields.number(0)),
        LookUp::ByTwo(by) => by_two(alloc, keeper, by, fields.number(0), fields.number(1)),
    }
}

/// What a look-up answers.
pub fn look_up(alloc: Global, keeper: &mut MemKeeper, text: &str) -> Result<String, AllocError> {
    let (verb, rest) = verb_of(text);
    let mut fields = Fields::of(alloc, rest)?;
    let Some(look_up) = named(LOOK_UPS, verb) else {
        return no_look_up(alloc);
    };
    let answered = answer(alloc, keeper, look_up, &mut fields)?;
    if fields.is_bad() {
        return no_look_up(alloc);
    }
    Ok(answered)
}
