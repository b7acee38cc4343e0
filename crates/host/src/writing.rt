// The writer of request lines, for a C host.
ghost use Rattle.std.specs.Prelude.{◌≡◌};
ghost use Rattle.host.specs.Writing.{claims_good, claims_in, writing_answer, write_answer, write_buffer};

use crate::refusal_answer;
use image::SET_LEN;
use rules::{Asked, Claims};
use writer::Unwritten;

// ---- claims

// Where Q and J begin in the claims, and how many bytes these have: V, Q and J, each as an image has a set.
const Q_AT: usize = SET_LEN;

const J_AT: usize = Q_AT + SET_LEN;

pub const CLAIMS_LEN: usize = J_AT + SET_LEN;

// The claims of their bytes; none where these haven't their length.
fn claims_in(claims: &[u8]) -> Claims
    ensures { result ≡ claims_in claims.now }
{
    if claims.len() != CLAIMS_LEN {
        return Claims::NONE;
    }
    let writable = image::read_set(&claims[0..Q_AT]);
    let readable = image::read_set(&claims[Q_AT..J_AT]);
    let inquirable = image::read_set(&claims[J_AT..CLAIMS_LEN]);
    Claims {
        writable,
        readable,
        inquirable,
    }
}

// An ENTER has claims of their length; those of another verb are not looked at.
fn claims_good(verb: u64, claims: &[u8]) -> bool
    ensures { result ≡ claims_good verb claims.now }
{
    if verb == 1 {
        return claims.len() == CLAIMS_LEN;
    }
    true
}

// ---- the writer

// What a C host gets: the line's length, or 2^64 less the number of the refusal.
#[tactic(auto, using(crate::proofs::Written::unwritten_some))]
fn answer_of(w: Result<usize, Unwritten>) -> u64
    ensures { result ≡ writing_answer w }
{
    match w {
        Ok(n) => n as u64,
        Err(r) => refusal_answer(u64::from(r.number())),
    }
}

// Writes the line that asks for the call from the buffer's start, and answers its length. A number that is no verb's gets 3, an ENTER
// whose claims haven't their length 8; the writer's refusals are 8, 19, 6 and 17. A refusal writes nothing, and bytes after the line keep
// their contents.
#[tactic(auto, unfolding(crate::specs::Writing::write_answer, crate::specs::Writing::write_buffer))]
pub fn lock_board_write(
    verb: u64,
    program: u64,
    file: u64,
    item: u64,
    claims: &[u8],
    label: &[u8],
    line: &mut [u8],
) -> u64
    ensures value { result ≡ write_answer verb program file item claims.now label.now line.old }
    ensures line_after { line.new ≡ write_buffer verb program file item claims.now label.now line.old }
{
    let Some(named) = request::verb_numbered(verb) else {
        return refusal_answer(3);
    };
    if !claims_good(verb, claims) {
        return refusal_answer(8);
    }
    let asked = Asked {
        verb: named,
        program,
        file,
        item,
        claims: claims_in(claims),
    };
    answer_of(writer::write(asked, label, line))
}
