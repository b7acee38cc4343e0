// The line call on a board that is lent for it.
ghost use Rattle.std.specs.Prelude.{◌≡◌, true};
ghost use Rattle.rules.specs.Digraph.{may_carry};
ghost use Rattle.request.specs.Requests.{request_of, request_call};
ghost use Rattle.digraph.specs.Loops.{named};
ghost use Rattle.linecall.specs.LineCall.{line_call};

use linecall::Posted;
use rules::Board;

// What the call gives back, and the board that was lent as the call left it.
#[derive(Clone, Copy)]
pub struct Lent {
    pub posted: Posted,
    pub board: Board,
}

// Lends a board of its own to the line call in place.
pub fn line_call(b: Board, line: &[u8], journal: &mut [u8], place: u64) -> Lent
    ensures reply_value { result.posted.reply ≡ (line_call b line.now journal.old place).reply }
    ensures place_value { result.posted.place ≡ (line_call b line.now journal.old place).place }
    ensures journal_after { journal.new ≡ (line_call b line.now journal.old place).journal }
    ensures board_value { result.board ≡ (line_call b line.now journal.old place).reply.board }
    ensures carries_value { may_carry b (request_call (request_of line.now)) result.posted.reply.answer (named result.posted.carries) ≡ true }
{
    let mut own = b;
    let posted = inplace::line_call_in(&mut own, line, journal, place);
    Lent { posted, board: own }
}
