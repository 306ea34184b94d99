// A controller: a table, a capacity, and the machines as they stand.
ghost use Rattle.std.specs.Prelude.{◌≡◌, ◌≤◌, length};
ghost use Rattle.model.specs.System.{machines as machines_of};
ghost use Rattle.table.specs.SystemOf.{system_of};
ghost use Rattle.controller.specs.Held.{Short};
ghost use Rattle.controller.specs.Hosted.{hosted};

use crate::machines::Machines;
use table::view::Table;

#[derive(Drop)]
pub struct Controller<'a> {
    pub(crate) table: Table<'a>,
    pub(crate) capacity: u8,
    pub(crate) machines: Machines,
    ghost held: { length machines ≡ machines_of (hosted (system_of table.bytes.now)) },
    ghost small: { capacity ≤ 32 },
    ghost short: { Short capacity machines },
}
