//! The writer of the layers of a table's circuit while a script is played on it.

use crate::look_text::build_text;
use bn_board::Board;
use bn_lists::NoMemory;
use bn_quad::{QuadNames, Uniform};
use bn_reply_views::push_bytes;
use bn_session::Shows;
use std::alloc::Global;

// A machine and the names of its table, from which the layers of its circuit are written.
#[derive(Drop)]
pub(crate) struct Viewer<'a> {
    pub(crate) machine: &'a Uniform,
    pub(crate) names: &'a QuadNames,
}

impl<'a> Shows for Viewer<'a> {
    ghost use Rattle.bn_reply_looks.specs.Built.{CanBeShown, ShowsRun};
    ghost use Rattle.bn_reply_looks.specs.Kept.{shown_still};

    ghost text = { λ v b text. ShowsRun v.machine.now v.names.now b text };

    ghost allows = { λ v b. CanBeShown v.machine.now v.names.now b };

    fn show(&self, alloc: Global, board: &Board, out: &mut Vec<u8>) -> Result<(), NoMemory> {
        let text = build_text(alloc, self.machine, self.names, board)?;
        push_bytes(out, text.as_slice())
    }

    ghost keeps = { λ v b c same shown. shown_still v.machine.now v.names.now b c same shown };
}
