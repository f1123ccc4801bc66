// A set as the code goes by it: a row of the table that is legal, and fits the room that the code has.
ghost use Rattle.rows.specs.Rows.{ruled_row};
ghost use Rattle.rows.specs.Ready.{Ready};

use crate::Row;

#[derive(Clone, Copy)]
pub struct Set {
    pub row: Row,
    pub ghost ready: { Ready (ruled_row row) },
}
