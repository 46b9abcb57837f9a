// A rule: a lawful table that may have in rows.
ghost use Rattle.std.specs.Prelude.{◌≡◌, ◌≤◌, true, length};
ghost use Rattle.rows.specs.Homes.{homes as homes_of};
ghost use Rattle.rows.specs.Rows.{item_of};
ghost use Rattle.rows.specs.declared.home.Home.TheVariants.{Outside};
ghost use Rattle.refusals.specs.Answers.{Answers};
ghost use Rattle.tables.specs.Faults.{rule_fault, rule_bytes_fault};
ghost use Rattle.tables.specs.Lawful.{lawful_rows, lawful_rule};
ghost use Rattle.tables.specs.Places.{Places};
ghost use Rattle.tables.specs.declared.form.Form.TheVariants.{Rule as RuleForm};
ghost use Rattle.tables.specs.Reading.{Reads, Both, bytes_of, needed};
ghost use Rattle.tables.specs.Writing.{buffer_fault, written};

use crate::check::check_rule;
use crate::fault::TableFault;
use crate::form::Form;
use crate::homes::find_homes;
use crate::memory::RuleMemory;
use crate::read::read_table;
use crate::table::Table;
use reserved::Reserved;
use rows::Home;

#[derive(Drop)]
pub struct Rule {
    pub table: Table,
    // Where each row stands. Beside the rows, and not in one list with them: plain tables have the same inner table, and no homes.
    pub homes: Vec<Home>,
    ghost lawful: { lawful_rows RuleForm table.flags table.codes table.rows.items ≡ true },
    ghost checked: { lawful_rule table.rows.items ≡ true },
    ghost few: { length table.rows.items ≤ 1024 },
    ghost placed: { homes.items ≡ homes_of table.rows.items },
}

impl Rule {
    // The rule that these bytes hold.
    pub fn read(bytes: &[u8], memory: RuleMemory) -> Result<Rule, TableFault>
        ensures value { Answers (rule_bytes_fault bytes.now) result (λ rule. Reads bytes.now rule.table × (bytes_of rule.table ≡ bytes.now)) }
        ensures places { Places bytes.now }
    {
        let RuleMemory { rows, homes } = memory;
        let table = read_table(Form::Rule, bytes, rows)?;
        Rule::from_table(table, homes)
    }

    // The rule that this table is, whose rows are lawful one by one.
    fn from_table<const N: usize>(
        table: Table,
        memory: Reserved<Home, N>,
    ) -> Result<Rule, TableFault>
        requires fine { lawful_rows RuleForm table.flags table.codes table.rows.items ≡ true }
        requires room { 1024 ≤ N }
        ensures { Answers (rule_fault table.rows.items) result (λ rule. rule.table ≡ table) }
    {
        let homes = find_homes(table.rows.as_slice(), memory);
        check_rule(table.rows.as_slice(), homes.as_slice())?;
        Ok(Rule { table, homes })
    }

    // Its rows, flags used and codes used.
    pub fn table(&self) -> &Table
        ensures { result.now ≡ self.now.table }
    {
        &self.table
    }

    // Where the row of this number stands, if there is one.
    pub fn home(&self, number: usize) -> Option<Home>
        ensures { result ≡ item_of (homes_of self.now.table.rows.items) number Outside }
    {
        self.homes.get(number).copied()
    }

    // The number of its bytes.
    pub fn written_len(&self) -> usize
        ensures { result ≡ needed self.now.table }
    {
        self.table.written_len()
    }

    // Writes its bytes to the start of a buffer, and tells their number.
    pub fn write(&self, buffer: &mut [u8]) -> Result<usize, TableFault>
        ensures value { Answers (buffer_fault (needed self.now.table) buffer.old) result (λ n. (n ≡ needed self.now.table) × Both rule_bytes_fault self.now.table) }
        ensures after { buffer.new ≡ written (needed self.now.table) (bytes_of self.now.table) buffer.old }
    {
        self.table.write(buffer)
    }
}
