#![tactic(auto)]

// The line call, tested: check 1, then the line on the board, which is then known to be sound (`known`).
ghost use Rattle.std.specs.Prelude.{◌≡◌, true};
ghost use Rattle.rules.specs.Digraph.{may_carry};
ghost use Rattle.request.specs.Requests.{request_of, request_call};
ghost use Rattle.digraph.specs.Loops.{named};
ghost use Rattle.linecall.specs.LineCall.{line_call};

use digraph::Loop;
use files::WORDS;
use parts::entries::{LINES, NUMBERS};
use rules::{Board, Reply};
use store::sets::PLACES;

pub mod known;

// What a line call gives back: the reply, with the board after it, the new place in the journal,
// and the loop that the answer carries, none unless UNSAFE.
#[derive(Clone, Copy)]
pub struct Posted {
    pub reply: Reply,
    pub place: u64,
    pub carries: Loop,
}

// The line call: check 1, then the line is served.
pub fn line_call(b: Board, line: &[u8], journal: &mut [u8], place: u64) -> Posted
    ensures reply_value { result.reply ≡ (line_call b line.now journal.old place).reply }
    ensures place_value { result.place ≡ (line_call b line.now journal.old place).place }
    ensures journal_after { journal.new ≡ (line_call b line.now journal.old place).journal }
    ensures carries_value { may_carry b (request_call (request_of line.now)) result.reply.answer (named result.carries) ≡ true }
{
    let mut sets = [[0u64; WORDS]; PLACES];
    let rest = store::sets::take(b, &mut sets);
    let j = sound::judge(&sets, rest);
    if !j.sound {
        let reply = reply::refused_unsound(b);
        return Posted {
            reply,
            place,
            carries: Loop::NONE,
        };
    }
    let mut lines = [[0u16; NUMBERS]; LINES];
    let s = known::line(&mut sets, rest, &mut lines, line, journal, place);
    let order = j.order;
    let reply = reply::complete(&sets, &lines, s.changed, order);
    let carries = digraph::answers::loop_of(b, reply);
    Posted {
        reply,
        place: s.place,
        carries,
    }
}
