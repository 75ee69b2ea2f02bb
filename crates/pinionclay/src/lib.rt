// The static library: the device over plain numbers, for programs in C and Rust. include/pinionclay.h is its header.
#![tactic(auto)]

ghost use Rattle.std.specs.Prelude.{◌≡◌};
ghost use Rattle.pinionclay.specs.Calls.{written};
ghost use Rattle.pinionclay.specs.Promises.{PinionclayRunPromise, PinionclayStepPromise};

use device::State;

// The state's numbers after an answer of this number: a refusal leaves them as they were.
fn write_unless_refused(number: u32, state: State, lent: &mut [u32; numbers::STATE])
    ensures { lent.new ≡ written number lent.old state }
{
    // Numbers and no `Answer`, since C is handed numbers: 6 to 9 refuse.
    if number < 6 {
        numbers::write(state, lent);
    }
}

// A list of events on the device of these numbers, as C hands them in; the result is the run's own answer.
#[unsafe(no_mangle)]
pub extern "C" fn pinionclay_run(
    description: &[u32; numbers::DESCRIPTION],
    state: &mut [u32; numbers::STATE],
    gs: &mut [u32],
    aux: &mut [u32],
    events: &[u32],
    limit: usize,
    slots: &mut [u32],
    count: &mut usize,
) -> u32
    ensures { PinionclayRunPromise description.now state.old gs.old aux.old
        events.now limit slots.old result state.new gs.new aux.new slots.new count.new }
{
    let ran = numbers::state_of(state).run(
        numbers::description_of(description),
        gs,
        aux,
        events,
        slots,
        limit,
    );
    let number = ran.answer.number();
    *count = ran.count;
    write_unless_refused(number, ran.state, state);
    number
}

// One event, as a list of one, on the device of these numbers, as C hands them in; the result is the event's answer.
#[unsafe(no_mangle)]
pub extern "C" fn pinionclay_step(
    description: &[u32; numbers::DESCRIPTION],
    state: &mut [u32; numbers::STATE],
    gs: &mut [u32],
    aux: &mut [u32],
    kind: u32,
    a: u32,
    b: u32,
    value: &mut u32,
) -> u32
    ensures { PinionclayStepPromise description.now state.old gs.old aux.old
        kind a b result state.new gs.new aux.new value.new }
{
    let mut answered = [0u32; 2];
    let ran = numbers::state_of(state).run(
        numbers::description_of(description),
        gs,
        aux,
        &[kind, a, b],
        &mut answered,
        1,
    );
    if ran.count == 0 {
        *value = 0;
        return ran.answer.number();
    }
    let [number, answer_value] = answered;
    *value = answer_value;
    write_unless_refused(number, ran.state, state);
    number
}
