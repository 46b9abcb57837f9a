// Why a pack, or a rule in it, is refused.
ghost use Rattle.std.specs.Prelude.{◌≡◌};
ghost use Rattle.refusals.specs.Answers.{Answers};
ghost use Rattle.packs.specs.Told.{told, at_rule};
ghost use Rattle.packs.specs.declared.fault.PackFault.TheVariants.{InRule};
ghost use Rattle.tables.specs.Faults.{rule_bytes_fault};
ghost use Rattle.tables.specs.Reading.{Reads};

use refusals::{Layer, Refusal};
use tables::{Rule, RuleMemory, TableFault};

#[derive(Clone, Copy, Debug, PartialEq, Eq, Hash)]
pub enum PackFault {
    // Fewer than two bytes, or not 1 to 64 rules.
    RuleCount,
    // Fewer bytes than the labels and lengths need, or not as many as the lengths add up to.
    Length,
    // This fault in the table of the rule of this number.
    InRule(TableFault, usize),
}

impl From<PackFault> for Refusal {
    ghost from_gives = { λ fault refusal. refusal ≡ told fault };

    fn from(fault: PackFault) -> Refusal {
        let number = match fault {
            PackFault::RuleCount => 12,
            PackFault::Length => 13,
            PackFault::InRule(inner, _) => return inner.into(),
        };
        Refusal {
            number,
            place: 0,
            layer: Layer::Pack,
        }
    }
}

impl From<(TableFault, usize)> for PackFault {
    ghost from_gives = { λ pair fault. fault ≡ InRule pair.0 pair.1 };

    fn from(pair: (TableFault, usize)) -> PackFault {
        let (fault, number) = pair;
        PackFault::InRule(fault, number)
    }
}

// The rule that these bytes hold, which are the table of the rule of this number in a pack.
pub fn read_rule(table: &[u8], number: usize, memory: RuleMemory) -> Result<Rule, PackFault>
    ensures { Answers (at_rule number (rule_bytes_fault table.now)) result (λ rule. Reads table.now rule.table) }
{
    let rule = Rule::read(table, memory).map_err(|fault| (fault, number))?;
    Ok(rule)
}
