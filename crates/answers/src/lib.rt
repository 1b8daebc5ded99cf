// What a tick comes to (document 01, 'One tick of the machine'): one of four answers, or a refusal; and the reply that a host gets of it,
// in numbers.

#![tactic(auto)]

ghost use Rattle.std.specs.Prelude.{◌≡◌, Bool, ℕ};
ghost use Rattle.answers.specs.Outcome.{finished_of, reply_of};

use table::Refusal;

// The four answers; those that name a callback say its index and the instance, both from 1.
#[derive(Clone, Copy)]
pub enum Answer {
    NoSupply,
    Idle,
    Ran(u8, u32),
    Finished(u8, u32),
}

// A tick is answered, or refused.
pub type Outcome = Result<Answer, Refusal>;

// The reply of a tick: the refusal's number and index, the answer (0 refused, 1 no supply, 2 idle, 3 ran, 4 finished) with
// its callback and instance, flags for a start and for a polling point, with the number of callbacks that it put in the cache, and the mask
// of the timers whose beat was folded. Numbers and flags, since C gets them as they are.
#[repr(C)]
#[derive(Clone, Copy)]
pub struct Reply {
    pub instance: u32,
    pub number: u8,
    pub index: u8,
    pub answer: u8,
    pub callback: u8,
    pub started: u8,
    pub polled: u8,
    pub gathered: u8,
    pub folded: u16,
}

// The callback whose instance finished, an index from 1; 0 where none did, as a record names its next.
pub fn finished(outcome: Outcome) -> u8
    ensures { result ≡ finished_of outcome }
{
    match outcome {
        Ok(Answer::Finished(i, _)) => i,
        _ => 0,
    }
}

impl Reply {
    // The reply of an outcome, with what stands beside it, one by one and as `reply_of` has it: bytes that hold no state have a reply, and no `Ticked`.
    pub fn new(outcome: Outcome, started: bool, polled: bool, gathered: u8, folded: u16) -> Reply
        ensures { result ≡ reply_of outcome started polled gathered folded }
    {
        let base = Reply {
            instance: 0,
            number: 0,
            index: 0,
            answer: 0,
            callback: 0,
            started: u8::from(started),
            polled: u8::from(polled),
            gathered,
            folded,
        };
        match outcome {
            Err(why) => Reply {
                number: why.number,
                index: why.index,
                ..base
            },
            Ok(Answer::NoSupply) => Reply { answer: 1, ..base },
            Ok(Answer::Idle) => Reply { answer: 2, ..base },
            Ok(Answer::Ran(callback, instance)) => Reply {
                answer: 3,
                callback,
                instance,
                ..base
            },
            Ok(Answer::Finished(callback, instance)) => Reply {
                answer: 4,
                callback,
                instance,
                ..base
            },
        }
    }
}
