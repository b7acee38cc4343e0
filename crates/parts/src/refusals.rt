// The numbers of refusals.
ghost use Rattle.std.specs.Prelude.{◌≡◌};
ghost use Rattle.rules.specs.Replies.{number, refusal_of};

use rules::{Answer, Refusal};

// 01's number of the refusal.
pub fn number(r: Refusal) -> u8
    ensures { result ≡ number r }
{
    match r {
        Refusal::NotSound => 1,
        Refusal::JournalFull => 2,
        Refusal::NoVerb => 3,
        Refusal::BadLength => 4,
        Refusal::BadNumber => 5,
        Refusal::BadLabel => 6,
        Refusal::NotRising => 7,
        Refusal::OutOfRange => 8,
        Refusal::NotAbsent => 9,
        Refusal::ClaimsMeet => 10,
        Refusal::IsAbsent => 11,
        Refusal::IsHeld => 12,
        Refusal::IsWaiting => 13,
        Refusal::NotClaimed => 14,
        Refusal::IsOpen => 15,
        Refusal::NotOpen => 16,
        Refusal::IsRunning => 18,
        Refusal::BadRecord => 19,
        Refusal::NoRecord => 20,
        Refusal::HasRecord => 21,
    }
}

// 01's number of a refusal, and 0 for any other answer. 0 and no Option: the theorems on refusals speak of `refusal_of`.
pub fn of_answer(a: Answer) -> u8
    ensures { result ≡ refusal_of a }
{
    match a {
        Answer::Refuse(r) => number(r),
        _ => 0,
    }
}
