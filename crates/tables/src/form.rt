// The two forms of table: a rule, and a plain table.
ghost use Rattle.std.specs.Prelude.{◌≡◌};
ghost use Rattle.tables.specs.Format.{limit, knows};

use rows::Kind;

#[derive(Clone, Copy, Debug, PartialEq, Eq, Hash)]
pub enum Form {
    Rule,
    Plain,
}

impl Form {
    // The largest number of rows.
    pub fn limit(self) -> usize
        ensures { result ≡ limit self }
    {
        match self {
            Form::Rule => 1024,
            Form::Plain => 5120,
        }
    }

    // Whether a table of this form may have rows of this kind: a plain table has no in rows.
    pub fn knows(self, kind: Kind) -> bool
        ensures { result ≡ knows self kind }
    {
        match self {
            Form::Rule => true,
            Form::Plain => !kind.is_in(),
        }
    }
}
