// The loop that an answer carries: UNSAFE one with the file given, any other answer none.
ghost use Rattle.std.specs.Prelude.{◌≡◌};
ghost use Rattle.rules.specs.Digraph.{is_unsafe};
ghost use Rattle.digraph.specs.Loops.{CarriedBy, LoopWith};

use crate::Loop;
use rules::{Answer, Board, Line, Reply};

// Whether the answer is UNSAFE.
fn is_unsafe(answer: Answer) -> bool
    ensures { result ≡ is_unsafe answer }
{
    matches!(answer, Answer::Unsafe)
}

// A loop of the board with the file given that the line names.
fn loop_with(b: Board, line: Line) -> Loop
    ensures { LoopWith b line result }
{
    let p = line.program;
    let f = line.file;
    if !(1..=32).contains(&p) || 64 < f {
        return Loop::NONE;
    }
    crate::loops::find_given(b, p as u8, f)
}

// The loop that the reply to a call on the board carries.
pub fn loop_of(b: Board, r: Reply) -> Loop
    ensures { CarriedBy b r result }
{
    if is_unsafe(r.answer) {
        loop_with(b, r.lines[0])
    } else {
        Loop::NONE
    }
}
