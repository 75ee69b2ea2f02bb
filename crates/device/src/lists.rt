// Lists of events: a run, up to its end, the limit, or the first answer 3 or 4.
ghost use Rattle.std.specs.Prelude.{true, ◌≡◌, ◌+◌, ◌*◌, ◌/◌, ◌%◌, ◌<◌, ◌≤◌, length};
ghost use Rattle.rules.specs.Answers.{number_of};
ghost use Rattle.carrying.specs.Lent.{as_device, SameArrays, Leaves};
ghost use Rattle.device.specs.Lists.{decoded_on, ends_run, trace_of, ran_to, told, is_good_list};
ghost use Rattle.device.specs.Internals.{event_at, stored};

use carrying::LentDevice;
use event::Event;
use part::Description;
use rules::Answer;

const MOST_EVENTS: usize = 4096;

// By the lengths of the list and of the slots.
pub(crate) fn is_good_list(list: usize, slots: usize) -> bool
    ensures { result ≡ is_good_list list slots }
{
    let whole = list % 3 == 0;
    let short = list / 3 <= MOST_EVENTS;
    let room = list / 3 * 2 <= slots;
    whole & short & room
}

#[tactic(auto, using(crate::proofs::Runs::runs_on))]
fn ends_run(answer: Answer) -> bool
    ensures { result ≡ ends_run (number_of answer) }
{
    matches!(answer, Answer::SecurityReset | Answer::AddressTrap)
}

// What three numbers of a list do to a good device: a malformed event is passed over.
#[tactic(auto, unfolding(crate::specs::Lists::decoded_on))]
fn decoded_on(device: &mut LentDevice, description: Description, decoded: Option<Event>) -> Answer
    ensures { Leaves result device.old device.new (decoded_on description (as_device device.old) decoded) }
{
    match decoded {
        None => Answer::MalformedEvent,
        Some(event) => crate::event_on(device, description, event),
    }
}

fn event_at(list: &[u32], index: usize) -> Option<Event>
    requires { 3 * index + 2 < length list.now }
    ensures { result ≡ event_at list.now index }
{
    event::decode(list[3 * index], list[3 * index + 1], list[3 * index + 2])
}

// The two slots of an event, by its index: of slots lent in twos the library does not say what they end as.
fn store(slots: &mut [u32], index: usize, answer: Answer)
    requires { 2 * index + 1 < length slots.old }
    ensures { slots.new ≡ stored slots.old index answer }
{
    slots[2 * index] = answer.number();
    slots[2 * index + 1] = answer.value();
}

// One event of the list: its number and value go into its two slots.
fn listed(
    device: &mut LentDevice,
    description: Description,
    list: &[u32],
    slots: &mut [u32],
    index: usize,
) -> Answer
    requires { (3 * index + 2 < length list.now) × (2 * index + 1 < length slots.old) }
    ensures left { Leaves result device.old device.new (decoded_on description (as_device device.old) (event_at list.now index)) }
    ensures stored { slots.new ≡ stored slots.old index result }
{
    let answer = decoded_on(device, description, event_at(list, index));
    store(slots, index, answer);
    answer
}

// The events of a list that can be run; the result is how many were answered.
pub(crate) fn run_events(
    device: &mut LentDevice,
    description: Description,
    list: &[u32],
    slots: &mut [u32],
    limit: usize,
) -> usize
    requires { is_good_list (length list.now) (length slots.old) ≡ true }
    ensures told { ran_to (Answer.Done 0) result (as_device device.new) slots.new
        ≡ told slots.old (trace_of description limit (as_device device.old) list.now) }
    ensures arrays { SameArrays device.old device.new }
{
    let total = limit.min(list.len() / 3);
    for index in 0..total {
        let answer = listed(device, description, list, slots, index);
        if ends_run(answer) {
            return index + 1;
        }
    }
    total
}
