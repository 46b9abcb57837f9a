// The session of the worked examples.
ghost use Rattle.std.specs.Prelude.{◌≡◌};
ghost use Rattle.meaning.specs.Worked.{WorkedExamples, example, state_with};

use sessions::State;

fn state(flags: u32, first: i8) -> State
    ensures { result ≡ state_with flags first }
{
    State {
        flags,
        codes: [first, 0, 0, 0],
    }
}

// The four states of the worked examples, of which the contract tells what rules mean there.
pub fn example_session() -> [State; 4]
    ensures states { result ≡ example }
    ensures meanings { WorkedExamples }
{
    [state(1, 20), state(4, -30), state(2, 55), state(4, 10)]
}
