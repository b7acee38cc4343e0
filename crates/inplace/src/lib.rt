#![tactic(auto)]

// The line call on a lent board, for a Rattle host.
ghost use Rattle.std.specs.Prelude.{◌≡◌, true};
ghost use Rattle.rules.specs.Digraph.{may_carry};
ghost use Rattle.request.specs.Requests.{request_of, request_call};
ghost use Rattle.digraph.specs.Loops.{named};
ghost use Rattle.linecall.specs.LineCall.{line_call};

use linecall::Posted;
use rules::Board;

// The line call: the board that is lent is changed, and the answer comes back with its lines, its order, the new place
// and the loop that it carries.
pub fn line_call_in(board: &mut Board, line: &[u8], journal: &mut [u8], place: u64) -> Posted
    ensures reply_value { result.reply ≡ (line_call board.old line.now journal.old place).reply }
    ensures place_value { result.place ≡ (line_call board.old line.now journal.old place).place }
    ensures journal_after { journal.new ≡ (line_call board.old line.now journal.old place).journal }
    ensures board_after { board.new ≡ (line_call board.old line.now journal.old place).reply.board }
    ensures carries_value { may_carry board.old (request_call (request_of line.now)) result.reply.answer (named result.carries) ≡ true }
{
    let posted = linecall::line_call(*board, line, journal, place);
    *board = posted.reply.board;
    posted
}
