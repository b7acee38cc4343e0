#![tactic(auto)]

// The eight direct calls, each with the board by value: check 1, then the rules; an UNSAFE answer carries a loop.
ghost use Rattle.std.specs.Prelude.{◌≡◌, true};
ghost use Rattle.rules.specs.Digraph.{may_carry};
ghost use Rattle.digraph.specs.Loops.{named};
ghost use Rattle.rules.specs.Calls.{direct, call_of, call_with, no_claims, Enter, Open, Close, Drop, Leave, Cancel, Fetch, Return};

use digraph::Loop;
use files::WORDS;
use parts::entries::{LINES, NUMBERS};
use rules::{Asked, Board, Claims, Reply, Verb};
use store::sets::{PLACES, Sets};

// What a direct call gives back: the reply, and the loop that its answer carries, none unless UNSAFE.
#[derive(Clone, Copy)]
pub struct Answered {
    pub reply: Reply,
    pub carries: Loop,
}

// The reply to the direct call that is asked for: on a board that is not sound refusal 1, otherwise what the rules give.
fn reply_to(b: Board, a: Asked) -> Reply
    ensures { result ≡ direct b (call_of a) }
{
    let mut sets = [[0u64; WORDS]; PLACES];
    let rest = store::sets::take(b, &mut sets);
    let j = sound::judge(&sets, rest);
    if !j.sound {
        return reply::refused_unsound(b);
    }
    let mut lines = [[0u16; NUMBERS]; LINES];
    let changed = apply::call(&mut sets, rest, &mut lines, a);
    reply::complete(&sets, &lines, changed, j.order)
}

// The direct call that is asked for, with the loop that its answer carries.
pub fn call(b: Board, a: Asked) -> Answered
    ensures reply_value { result.reply ≡ direct b (call_of a) }
    ensures carries_value { may_carry b (call_of a) result.reply.answer (named result.carries) ≡ true }
{
    let reply = reply_to(b, a);
    let carries = digraph::answers::loop_of(b, reply);
    Answered { reply, carries }
}

// ---- the eight calls: docs/PROMISES.md names each, so they stay eight though they differ in the verb alone

// A program enters with its claims.
pub fn enter(b: Board, program: u64, claims: Claims) -> Answered
    ensures reply_value { result.reply ≡ direct b (Enter program claims.writable claims.readable claims.inquirable) }
    ensures carries_value { may_carry b (Enter program claims.writable claims.readable claims.inquirable) result.reply.answer (named result.carries) ≡ true }
{
    call(
        b,
        Asked {
            verb: Verb::Enter,
            program,
            file: 0,
            item: 0,
            claims,
        },
    )
}

// A call of a program, a file and a record.
fn call_file(b: Board, verb: Verb, program: u64, file: u64, item: u64) -> Answered
    ensures reply_value { result.reply ≡ direct b (call_with verb program file item no_claims) }
    ensures carries_value { may_carry b (call_with verb program file item no_claims) result.reply.answer (named result.carries) ≡ true }
{
    call(
        b,
        Asked {
            verb,
            program,
            file,
            item,
            claims: Claims::NONE,
        },
    )
}

// A program opens a file.
pub fn open(b: Board, program: u64, file: u64) -> Answered
    ensures reply_value { result.reply ≡ direct b (Open program file) }
    ensures carries_value { may_carry b (Open program file) result.reply.answer (named result.carries) ≡ true }
{
    call_file(b, Verb::Open, program, file, 0)
}

// A program closes a file.
pub fn close(b: Board, program: u64, file: u64) -> Answered
    ensures reply_value { result.reply ≡ direct b (Close program file) }
    ensures carries_value { may_carry b (Close program file) result.reply.answer (named result.carries) ≡ true }
{
    call_file(b, Verb::Close, program, file, 0)
}

// A program drops a file from its claim.
pub fn drop(b: Board, program: u64, file: u64) -> Answered
    ensures reply_value { result.reply ≡ direct b (Drop program file) }
    ensures carries_value { may_carry b (Drop program file) result.reply.answer (named result.carries) ≡ true }
{
    call_file(b, Verb::Drop, program, file, 0)
}

// A program leaves.
pub fn leave(b: Board, program: u64) -> Answered
    ensures reply_value { result.reply ≡ direct b (Leave program) }
    ensures carries_value { may_carry b (Leave program) result.reply.answer (named result.carries) ≡ true }
{
    call_file(b, Verb::Leave, program, 0, 0)
}

// A program that waits or is held is removed.
pub fn cancel(b: Board, program: u64) -> Answered
    ensures reply_value { result.reply ≡ direct b (Cancel program) }
    ensures carries_value { may_carry b (Cancel program) result.reply.answer (named result.carries) ≡ true }
{
    call_file(b, Verb::Cancel, program, 0, 0)
}

// A program fetches a record of a file that it has open for inquiry.
pub fn fetch(b: Board, program: u64, file: u64, item: u64) -> Answered
    ensures reply_value { result.reply ≡ direct b (Fetch program file item) }
    ensures carries_value { may_carry b (Fetch program file item) result.reply.answer (named result.carries) ≡ true }
{
    call_file(b, Verb::Fetch, program, file, item)
}

// A program returns the record that it has in use.
pub fn return_item(b: Board, program: u64) -> Answered
    ensures reply_value { result.reply ≡ direct b (Return program) }
    ensures carries_value { may_carry b (Return program) result.reply.answer (named result.carries) ≡ true }
{
    call_file(b, Verb::Return, program, 0, 0)
}
