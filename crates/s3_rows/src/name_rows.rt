use s3_base::ByteList;
use std::marker::Model;

/// A name of entries or attributes, and how many of these have it.
#[derive(Clone, Debug, Drop)]
pub struct NameRow {
    pub id: u64,
    pub refcount: u64,
    pub name: ByteList,
}

impl Model for NameRow {
    ghost use Rattle.s3_rows.specs.Rows.{Name, IsName};

    ghost Value = { Name };

    ghost view = { λ r. record { id = r.id; refcount = r.refcount; name = r.name } };

    ghost invariant = { λ r. IsName (record { id = r.id; refcount = r.refcount; name = r.name }) };
}

/// An entry: `parent` is the directory, and `inode` what the entry names.
#[derive(Clone, Copy, Debug, PartialEq, Eq)]
pub struct ContentRow {
    pub parent: u64,
    pub name_id: u64,
    pub inode: u64,
}

impl Model for ContentRow {
    ghost use Rattle.s3_rows.specs.Rows.{Content, IsContent};

    ghost Value = { Content };

    ghost view = { λ r. record { parent = r.parent; name_id = r.name_id; inode = r.inode } };

    ghost invariant = { λ r. IsContent (record { parent = r.parent; name_id = r.name_id; inode = r.inode }) };

    ghost inverse = { λ r. record { parent = r.parent; name_id = r.name_id; inode = r.inode } };
}

/// The target of a symbolic link.
#[derive(Clone, Debug, Drop)]
pub struct TargetRow {
    pub inode: u64,
    pub target: ByteList,
}

impl Model for TargetRow {
    ghost use Rattle.s3_rows.specs.Rows.{Target, IsTarget};

    ghost Value = { Target };

    ghost view = { λ r. record { inode = r.inode; target = r.target } };

    ghost invariant = { λ r. IsTarget (record { inode = r.inode; target = r.target }) };
}

/// An extended attribute of an inode.
#[derive(Clone, Debug, Drop)]
pub struct AttrRow {
    pub inode: u64,
    pub name_id: u64,
    pub value: ByteList,
}

impl Model for AttrRow {
    ghost use Rattle.s3_rows.specs.Rows.{Attr, IsAttr};

    ghost Value = { Attr };

    ghost view = { λ r. record { inode = r.inode; name_id = r.name_id; value = r.value } };

    ghost invariant = { λ r. IsAttr (record { inode = r.inode; name_id = r.name_id; value = r.value }) };
}
