#![tactic(auto)]

// The reply with the board by value, made of what a call comes to; at the edges only.
ghost use Rattle.std.specs.Prelude.{◌≡◌, ◌≤◌, true};
ghost use Rattle.rules.specs.Orders.{carried};
ghost use Rattle.rules.specs.Replies.{refused, refuse_unsound};
ghost use Rattle.parts.specs.Entries.{lines_in};
ghost use Rattle.store.specs.Store.{board_of};
ghost use Rattle.search.specs.Rows.{as_order};
ghost use Rattle.settling.specs.Writing.{written_in};
ghost use Rattle.apply.specs.Replies.{replied, Carries};
ghost use Rattle.reply.specs.Orders.{placed_in};

use apply::Changed;
use parts::entries;
use parts::entries::Entries;
use rules::{Answer, Board, Line, Refusal, Reply, Word};
use search::{Order, Search};
use store::sets::Sets;

// What stands in the places after the last line.
const BLANK: Line = Line {
    word: Word::Admit,
    program: 0,
    file: 0,
    refusal: 0,
    item: 0,
};

// The lines in the array.
fn lines_of(lines: &Entries) -> [Line; 32]
    ensures { result ≡ lines_in lines.now }
{
    let mut ls = [BLANK; 32];
    for i in 0..32 {
        ls[i] = entries::line_in(lines[i]);
    }
    ls
}

// How many programs an order names.
fn placed(kind: Search) -> u8
    requires { placed_in kind ≤ 32 }
    ensures { result ≡ placed_in kind }
{
    match kind {
        Search::Found(n) => n as u8,
        Search::Stuck => 0,
    }
}

// The order of the board after a call: a refusal leaves the board as it was before; else the order that the call found on its way, or
// one that is sought.
fn order_after(sets: &Sets, c: Changed, before: Order) -> Order
    requires { (refused c.answer ≡ true → before ≡ as_order (carried (board_of sets.now c.progress.rest)))
        × Carries (board_of sets.now c.progress.rest) c.order }
    ensures { result ≡ as_order (carried (board_of sets.now c.progress.rest)) }
{
    if matches!(c.answer, Answer::Refuse(_)) {
        return before;
    }
    if search::is_found(c.order) {
        return c.order;
    }
    search::carried_in(sets, c.progress.rest)
}

// The reply to a call, with the order of its board; `before` is the order of the board before the call.
pub fn complete(sets: &Sets, lines: &Entries, c: Changed, before: Order) -> Reply
    requires { (refused c.answer ≡ true → before ≡ as_order (carried (board_of sets.now c.progress.rest)))
        × Carries (board_of sets.now c.progress.rest) c.order }
    ensures { result ≡ replied (written_in sets.now lines.now c.progress) c.answer }
{
    let order = order_after(sets, c, before);
    let at = order.at;
    Reply {
        board: whole::board(sets, c.progress.rest),
        answer: c.answer,
        lines: lines_of(lines),
        count: c.progress.count,
        order: at,
        placed: placed(order.kind),
    }
}

// Refusal 1, with an empty order.
#[tactic(auto, unfolding(rules::specs::Replies::refuse_unsound, laws::specs::Lists::padded))]
pub fn refused_unsound(b: Board) -> Reply
    ensures { result ≡ refuse_unsound b }
{
    Reply {
        board: b,
        answer: Answer::Refuse(Refusal::NotSound),
        lines: [BLANK; 32],
        count: 0,
        order: [0u8; 32],
        placed: 0,
    }
}
