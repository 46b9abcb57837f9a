// The rows of a table with its numbers of flags and codes used, lawful or not.
ghost use Rattle.std.specs.Prelude.{◌≡◌, length};
ghost use Rattle.rows.specs.Rows.{item_of, blank};

use rows::Row;

#[derive(Drop)]
pub struct Table {
    pub flags: u8,
    pub codes: u8,
    pub rows: Vec<Row>,
}

impl Table {
    // The number of rows.
    pub fn len(&self) -> usize
        ensures { result ≡ length self.now.rows.items }
    {
        self.rows.len()
    }

    // The row of this number, if there is one.
    pub fn row(&self, number: usize) -> Option<Row>
        ensures { result ≡ item_of self.now.rows.items number blank }
    {
        self.rows.get(number).copied()
    }
}
