//! A farm: independent circuits under a schedule.

ghost use Rattle.std.specs.Prelude.{◌≡◌, length, map, IfOk, OnErr};
ghost use Rattle.bn_farm.specs.Farms.{board_of, IsAdmitted, IsFarm, after_steps, farm_after};
ghost use Rattle.bn_farm.specs.Playing.{AreOnBoards};
ghost use Rattle.bn_farm.specs.Undo.{steps_between, undoing};

use crate::event::Event;
use crate::schedule::Schedule;
use bn_lists::NoMemory;
use bn_netlist::NetConfig;
use std::alloc::Global;
use std::marker::Model;

/// A farm: several independent circuits, each called a board. Contracts see the list of the boards, each a
/// configuration that can be written.
#[derive(Debug, Drop)]
pub struct Farm {
    boards: Vec<NetConfig>,
}

impl Model for Farm {
    ghost use Rattle.std.specs.Prelude.{List, map};
    ghost use Rattle.bn_farm.specs.Farms.{board_of, FarmBoard, IsFarm};

    ghost Value = { List FarmBoard };

    ghost view = { λ f. map board_of f.boards.items };

    ghost invariant = { λ f. IsFarm (map board_of f.boards.items) };
}

impl Farm {
    /// The farm of these circuits. Allocates no memory.
    pub fn new(boards: Vec<NetConfig>) -> Farm
        requires { IsFarm (map board_of boards.items) }
        ensures { result ≡ map board_of boards.items }
    {
        Farm { boards }
    }

    /// The circuits. Allocates no memory.
    pub fn boards(&self) -> &[NetConfig]
        ensures shown { map board_of result.now ≡ self.now }
        ensures farm { IsFarm self.now }
    {
        self.boards.as_slice()
    }

    /// Runs the schedule, whose circuits the farm must have, and returns the schedule that undoes it. The call
    /// allocates its memory first: after `NoMemory` the farm is unchanged. (This project's own definition.)
    pub fn play(&mut self, alloc: Global, schedule: &Schedule) -> Result<Schedule, NoMemory>
        requires { AreOnBoards (length self.old) schedule.now }
        ensures played { IfOk result (λ undo. self.new ≡ farm_after self.old schedule.now) }
        ensures undoing { IfOk result (λ undo. undo ≡ undoing self.old schedule.now) }
        ensures kept { OnErr result (self.new ≡ self.old) }
    {
        let events = schedule.events();
        let mut undo = Vec::with_capacity(alloc, events.len())?;
        for index in 0..events.len() {
            let event = events[index];
            let board = &mut self.boards[event.board as usize];
            let made = play_board(board, event.forward, event.count);
            if made > 0 {
                let undoing = Event {
                    forward: !event.forward,
                    board: event.board,
                    count: made,
                };
                let Ok(()) = undo.push(undoing) else {
                    unreachable!();
                };
            }
        }
        undo.reverse();
        Ok(Schedule::new(undo))
    }
}

// Makes this many steps of a circuit, or as many as can be made, forward or backward, and returns how many.
fn play_board(board: &mut NetConfig, forward: bool, count: u64) -> u64
    requires { IsAdmitted (board_of board.old) }
    ensures board { board_of board.new ≡ after_steps forward count (board_of board.old) }
    ensures made { result ≡ steps_between forward board.old.config board.new.config }
{
    if forward {
        board.net.run(&mut board.config, count)
    } else {
        board.net.run_back(&mut board.config, count)
    }
}
