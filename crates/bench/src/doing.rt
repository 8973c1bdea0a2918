// The work, over the field that it names.
use crate::answering::answer;
use crate::calls::Call;
use crate::judging::judge;
use crate::noting::note;
use crate::reading::read;
use crate::tally::Tally;
use crate::work::Work;
use crate::writing::write;
use field::Field;
use fields::FieldTask;
use std::alloc::Global;

// A call, so many times on a board.
#[derive(Drop)]
struct Calls {
    heap: Global,
    work: Work,
}

impl FieldTask for Calls {
    type Out = anyhow::Result<Tally>;

    fn run<F: Field>(self) -> anyhow::Result<Tally> {
        let Calls { heap, work } = self;
        let Work { grid, times, .. } = work;
        match work.call {
            Call::BoxNote => note::<verifier::Listening<F>>(heap, grid, times),
            Call::HostNote => note::<host::Listening<F>>(heap, grid, times),
            Call::Answer => answer::<F>(heap, grid, times),
            Call::Judge => judge::<F>(heap, grid, times),
            Call::Read => read::<F>(heap, grid, times),
            Call::Write => write::<F>(heap, grid, times),
        }
    }
}

/// Does the work: what the results come to.
pub fn done(heap: Global, work: Work) -> anyhow::Result<Tally> {
    work.field.0.run(Calls { heap, work })
}
