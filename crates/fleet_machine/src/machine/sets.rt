//! The sets of a machine's agents, gone through one after another.

ghost use Rattle.std.specs.Prelude.{◌≡◌, MatchOption};
ghost use Rattle.fleet_machine.specs.AgentSet.{AreNoneFrom, IsNextFrom, IsCursorOf, GoesOn};

use crate::agent_set::Cursor;
use crate::machine::Machine;

impl Machine {
    /// A cursor before all agents that the last tick moved.
    pub fn moved_cursor(&self) -> Cursor
        ensures from { result.from ≡ 0 }
        ensures cursor { IsCursorOf self.now.moving result }
    {
        self.moving.cursor()
    }

    /// A cursor before all agents that are ready.
    pub(super) fn ready_cursor(&self) -> Cursor
        ensures from { result.from ≡ 0 }
        ensures cursor { IsCursorOf self.now.ready result }
    {
        self.ready.cursor()
    }

    /// A cursor before all agents that are due.
    pub(super) fn due_cursor(&self) -> Cursor
        ensures from { result.from ≡ 0 }
        ensures cursor { IsCursorOf self.now.due result }
    {
        self.due.cursor()
    }

    /// The first agent from this one on that the last tick moved.
    pub fn next_moved(&self, from: u16) -> Option<u16>
        ensures { MatchOption result
            (AreNoneFrom self.now.moving from) (IsNextFrom self.now.moving from) }
    {
        self.moving.next(from)
    }

    /// The first agent from the cursor on that the last tick moved, behind which the cursor goes on.
    pub fn moved_at(&self, cursor: &mut Cursor) -> Option<u16>
        requires { IsCursorOf self.now.moving cursor.old }
        ensures { GoesOn self.now.moving cursor.old cursor.new result }
    {
        self.moving.next_at(cursor)
    }

    /// The first agent from the cursor on that is ready.
    pub(super) fn next_ready(&self, cursor: &mut Cursor) -> Option<u16>
        requires { IsCursorOf self.now.ready cursor.old }
        ensures { GoesOn self.now.ready cursor.old cursor.new result }
    {
        self.ready.next_at(cursor)
    }

    /// The first agent from this one on that has an action left.
    pub(super) fn next_left(&self, from: u16) -> Option<u16>
        ensures { MatchOption result
            (AreNoneFrom self.now.left from) (IsNextFrom self.now.left from) }
    {
        self.left.next(from)
    }

    /// The first agent from the cursor on that is due.
    pub(super) fn next_due(&self, cursor: &mut Cursor) -> Option<u16>
        requires { IsCursorOf self.now.due cursor.old }
        ensures { GoesOn self.now.due cursor.old cursor.new result }
    {
        self.due.next_at(cursor)
    }
}
