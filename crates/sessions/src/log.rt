// A session told by a log of the states at which flags were switched.
ghost use Rattle.std.specs.Prelude.{◌≡◌, ℕ, ◌<◌, ◌≤◌, length, slice_index};
ghost use Rattle.refusals.specs.Answers.{Answers};
ghost use Rattle.sessions.specs.Faults.{flag_fault, tick_fault, log_fault};
ghost use Rattle.sessions.specs.Logs.{Switched, Rising, log_states};

use crate::fault::SessionFault;
use crate::memory::LogMemory;
use crate::session::Session;
use refusals::refuse_first;

// One word for each state, worked out when the log is made.
#[derive(Drop)]
pub struct SwitchLog {
    words: Vec<u32>,
    ghost few: { length words.items ≤ 65535 },
}

// What is wrong with the flag of an entry.
fn flag_fault(flags: &[u8], entry: usize) -> Option<SessionFault>
    requires { entry < length flags.now }
    ensures { result ≡ flag_fault flags.now entry }
{
    (flags[entry] > 31).then_some(SessionFault::LogFlag(entry))
}

// What is wrong with the tick of an entry.
fn tick_fault(count: u16, ticks: &[u16], entry: usize) -> Option<SessionFault>
    requires { entry < length ticks.now }
    ensures { result ≡ tick_fault count ticks.now entry }
{
    let falls = entry > 0 && ticks[entry] < ticks[entry - 1];
    (falls || ticks[entry] >= count).then_some(SessionFault::LogTick(entry))
}

// The word of each state: that of the state before, with the flags of the entries at this tick turned.
fn words(count: u16, ticks: &[u16], flags: &[u8], memory: LogMemory) -> Vec<u32>
    requires same { length ticks.now ≡ length flags.now }
    requires rising { Rising ticks.now }
    requires small { (k : ℕ) → k < length flags.now → slice_index flags.now k < 32 }
    ensures len { length result.items ≡ count }
    ensures told { Switched ticks.now flags.now (log_states result.items) }
{
    let mut words = memory.into_list();
    let mut done = 0;
    let mut word: u32 = 0;
    for position in 0..count {
        // By number: searching all ticks, and counting those left by `take_while` or `position`, were tried and take more steps.
        while done < ticks.len() && ticks[done] <= position {
            word ^= 1 << flags[done];
            done += 1;
        }
        words.push_reserved(word);
    }
    words
}

impl SwitchLog {
    // The log of this number of states whose entries are these ticks and flags. Two arrays: that they differ in length is a refusal.
    pub fn new(
        count: u16,
        ticks: &[u16],
        flags: &[u8],
        memory: LogMemory,
    ) -> Result<SwitchLog, SessionFault>
        ensures { Answers (log_fault count ticks.now flags.now) result (λ log. (length (log_states log.words.items) ≡ count) × Switched ticks.now flags.now (log_states log.words.items)) }
    {
        if ticks.len() != flags.len() {
            return Err(SessionFault::LogLengths);
        }
        refuse_first(flags.len(), |entry| flag_fault(flags, entry))?;
        refuse_first(ticks.len(), |entry| tick_fault(count, ticks, entry))?;
        let words = words(count, ticks, flags, memory);
        Ok(SwitchLog { words })
    }
}

impl Session for SwitchLog {
    ghost states = { λ log. log_states log.words.items };

    fn len(&self) -> u16 {
        self.words.len() as u16
    }

    fn flags(&self, position: u16) -> u32 {
        self.words.get(usize::from(position)).copied().unwrap_or(0)
    }

    fn code(&self, _position: u16, _number: u16) -> i8 {
        0
    }
}
