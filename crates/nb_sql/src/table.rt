//! The table of the cells.
ghost use Rattle.std.specs.Prelude.{◌≡◌, false, OnOk, IsTrue, None};
ghost use Rattle.nb_cells.specs.Cells.{CellMap};
ghost use Rattle.nb_sql.specs.Held.{Tells};
ghost use Rattle.nb_sql.specs.Statements.{no_schema};
ghost use Rattle.sqlite.specs.State.{HasCleanDisk};
ghost use Rattle.sqlite.specs.Held.{state};

use crate::statements::CREATE;
use sqlite::{Alter, Connection, Error};

/// Makes the table where it is absent.
pub(crate) fn make_table<S: Alter>(conn: &mut Connection<S>) -> Result<usize, Error>
    requires idle { conn.old.in_transaction ≡ false }
    ensures clean { HasCleanDisk (state S.Store conn.new) → HasCleanDisk (state S.Store conn.old) }
    ensures fresh { HasCleanDisk (state S.Store conn.new) → (state S.Store conn.old).now.schema ≡ no_schema → OnOk result (Tells (state S.Store conn.new) (λ _ _. None)) }
    ensures again { (m : CellMap) → HasCleanDisk (state S.Store conn.new) → Tells (state S.Store conn.old) m → IsTrue (state S.Store conn.old).is_open → OnOk result (Tells (state S.Store conn.new) m) }
{
    conn.execute(CREATE, &[])
}
