//! The writer of the layers of a circuit while a script is played on it.

ghost use Rattle.std.specs.Prelude.{◌≡◌, ◌++◌, OnErr, OnOk};

use crate::view::layers_text;
use bn_bennett::Translated;
use bn_board::Board;
use bn_lists::NoMemory;
use bn_session::Shows;
use bn_table::Table;
use std::alloc::Global;

// A table and the translation of its machine, from which the layers of a circuit are written.
#[derive(Drop)]
pub(crate) struct Viewer<'a> {
    pub(crate) table: &'a Table,
    pub(crate) translated: &'a Translated,
}

impl<'a> Shows for Viewer<'a> {
    ghost use Rattle.bn_reply_views.specs.Viewing.{MayShow, ShowsLayers};
    ghost use Rattle.bn_reply_views.specs.Kept.{may_show_same};

    ghost text = { λ v b text. ShowsLayers v.table.now v.translated.now b text };

    ghost allows = { λ v b. MayShow v.table.now v.translated.now b };

    fn show(&self, alloc: Global, board: &Board, out: &mut Vec<u8>) -> Result<(), NoMemory> {
        let text = layers_text(alloc, self.table, self.translated, board)?;
        push_bytes(out, text.as_slice())
    }

    ghost keeps = { λ v b c same may. may_show_same v.table.now v.translated.now b c same may };
}

/// Appends some bytes. After `NoMemory` nothing was appended.
pub fn push_bytes(text: &mut Vec<u8>, bytes: &[u8]) -> Result<(), NoMemory>
    ensures ok { OnOk result (text.new.items ≡ text.old.items ++ bytes.now) }
    ensures err { OnErr result (text.new.items ≡ text.old.items) }
{
    text.extend_from_slice(bytes)?;
    Ok(())
}
