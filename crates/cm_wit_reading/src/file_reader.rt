//! Reading files.

ghost use Rattle.std.specs.Prelude.{◌≡◌, ◌⊎◌, IfOk, IfErr};
ghost use Rattle.cm_wit_tokens.specs.Whole.{Answers, IsFaultOf, IsMemory, IsTextOf, text_reads};
ghost use Rattle.cm_wit_reading.specs.Files.{file};
ghost use Rattle.cm_wit_reading.specs.Trees.{File};
ghost use Rattle.cm_wit_reading.specs.Views.{file_tree};

use crate::file::{FileItem, WitFile};
use crate::heads::{FileHead, read_file_head, read_package_head};
use crate::interface_reader::read_interface;
use crate::read_optional_version;
use crate::world_reader::read_world;
use cm_wit_tokens::{Cursor, Item, Operator, ReadError, WitFault, read_members, read_text};
use std::alloc::Global;

impl Item for FileItem {
    ghost use Rattle.cm_wit_reading.specs.Files.{file_item};
    ghost use Rattle.cm_wit_reading.specs.Trees as trees;
    ghost use Rattle.cm_wit_reading.specs.Views.{file_item_tree};

    ghost Tree = { trees.FileItem };

    ghost tree = { file_item_tree };

    ghost grammar = { file_item };

    fn read(alloc: Global, cursor: &mut Cursor) -> Result<FileItem, ReadError> {
        match read_file_head(cursor)? {
            FileHead::Interface => Ok(FileItem::Interface(read_interface(alloc, cursor)?)),
            FileHead::World => Ok(FileItem::World(read_world(alloc, cursor)?)),
        }
    }
}

impl Item for WitFile {
    ghost use Rattle.cm_wit_reading.specs.Files.{file};
    ghost use Rattle.cm_wit_reading.specs.Trees as trees;
    ghost use Rattle.cm_wit_reading.specs.Views.{file_tree};

    ghost Tree = { trees.File };

    ghost tree = { file_tree };

    ghost grammar = { file };

    #[tactic(auto, using(crate::proofs::FileLaws::file_item_laws))]
    fn read(alloc: Global, cursor: &mut Cursor) -> Result<WitFile, ReadError> {
        read_package_head(cursor)?;
        let namespace = cursor.identifier()?;
        cursor.expect(Operator::Colon)?;
        let package = cursor.identifier()?;
        let version = read_optional_version(cursor)?;
        cursor.expect(Operator::Semicolon)?;
        let items = read_members(alloc, cursor)?;
        Ok(WitFile {
            namespace,
            package,
            version,
            items,
        })
    }
}

/// Reads a text as a file, in time linear in it. A fault is the first one in reading order, at a
/// byte from 0: `BadToken` where no blank, comment or token begins; else at the token with which no
/// file goes on, or at the text's length. It is `Unsupported` for a form of WIT that is not read,
/// `TooDeep` for a type more than 64 deep, else `Unexpected`. Or it may be that memory is refused.
#[tactic(auto, using(crate::proofs::FileLaws::file_lawful))]
pub fn read_file(alloc: Global, text: &str) -> Result<WitFile, WitFault>
    ensures exact { Answers file_tree (text_reads file text.now) result }
    ensures accepted { IfOk result (λ f. IsTextOf file (file_tree f) text.now) }
    ensures complete { (f : File) → IsTextOf file f text.now → IfErr result IsMemory }
    ensures refused { IfErr result (λ e. IsMemory e ⊎ IsFaultOf file text.now e) }
{
    read_text(alloc, text)
}
