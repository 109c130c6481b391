//! A keeper of given tables.

use mem_keeper::MemKeeper;
use row_words::{Fields, name_row, params_of};
use s3_base::Sequence;
use s3_rows::{NameRow, Params, Tables};
use std::alloc::{AllocError, Global};

/// Tables with one name, and nothing else.
fn tables_of(alloc: Global, params: Params, name: NameRow) -> Result<Tables, AllocError> {
    let mut names = Vec::new(alloc);
    names.push(name)?;
    Ok(Tables {
        params,
        inodes: Sequence::new(alloc),
        names: Sequence::from(names),
        contents: Sequence::new(alloc),
        inode_blocks: Sequence::new(alloc),
        blocks: Sequence::new(alloc),
        objects: Sequence::new(alloc),
        targets: Sequence::new(alloc),
        attrs: Sequence::new(alloc),
        slots: Sequence::new(alloc),
    })
}

/// The parameters that a text has.
fn given_params(alloc: Global, text: &str) -> Result<Option<Params>, AllocError> {
    let mut fields = Fields::of(alloc, text)?;
    let params = params_of(&mut fields);
    if fields.is_bad() {
        Ok(None)
    } else {
        Ok(params)
    }
}

/// The name that a text has.
fn given_name(alloc: Global, text: &str) -> Result<Option<NameRow>, AllocError> {
    let mut fields = Fields::of(alloc, text)?;
    let name = name_row(alloc, &mut fields)?;
    if fields.is_bad() { Ok(None) } else { Ok(name) }
}

/// A keeper of the parameters and the one name that a text has, with a comma between.
pub fn keeper_of(alloc: Global, text: &str) -> Result<Option<MemKeeper>, AllocError> {
    let Some((params, name)) = text.split_once(',') else {
        return Ok(None);
    };
    let (params, name) = (given_params(alloc, params)?, given_name(alloc, name)?);
    match (params, name) {
        (Some(params), Some(name)) => {
            let tables = tables_of(alloc, params, name)?;
            Ok(Some(MemKeeper::of(alloc, tables)))
        }
        _ => Ok(None),
    }
}
