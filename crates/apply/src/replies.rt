// What a call comes to: its lines, where they stand, and its answer.
ghost use Rattle.std.specs.Prelude.{◌≡◌, [], ◌∷◌};
ghost use Rattle.rules.specs.declared.Answer.{Answer};
ghost use Rattle.rules.specs.declared.Word.{Word};
ghost use Rattle.rules.specs.Settling.{line_of, hand_on};
ghost use Rattle.rules.specs.Replies.{reply, refuse};
ghost use Rattle.rules.specs.Calls.{finish, done};
ghost use Rattle.theory.specs.Ready.{Ready};
ghost use Rattle.parts.specs.Entries.{no_entries};
ghost use Rattle.store.specs.Store.{board_of};
ghost use Rattle.settling.specs.Writing.{written_in};
ghost use Rattle.apply.specs.Replies.{wrote, ComesTo, Carries, InForm, Handing};

use crate::Changed;
use parts::entries;
use parts::entries::Entries;
use rules::{Answer, Refusal, Word};
use search::Order;
use settling::Progress;
use store::sets::Sets;
use store::{Rest, sets};

// The rest, with one line written.
pub fn one_line(
    sets: &Sets,
    rest: Rest,
    lines: &mut Entries,
    word: Word,
    p: u8,
    f: u16,
    n: u16,
) -> Progress
    requires { lines.old ≡ no_entries }
    ensures result_after { written_in sets.now lines.new result ≡ wrote (board_of sets.now rest) (line_of word p f n ∷ []) }
    ensures rest_value { result.rest ≡ rest }
{
    lines[0] = settling::line_of(word, p, f, n);
    Progress { rest, count: 1 }
}

// One line is written, and the answer says the same.
pub fn answered(
    sets: &Sets,
    rest: Rest,
    lines: &mut Entries,
    word: Word,
    p: u8,
    f: u16,
    n: u16,
    answer: Answer,
) -> Changed
    requires { lines.old ≡ no_entries }
    ensures comes_to { ComesTo sets.now lines.new result (reply (board_of sets.now rest) answer (line_of word p f n ∷ [])) }
    ensures carries { Carries (board_of sets.now result.progress.rest) result.order }
{
    let progress = one_line(sets, rest, lines, word, p, f, n);
    Changed::unordered(progress, answer)
}

// GIVEN, with the order that was found for it.
pub fn given(sets: &Sets, rest: Rest, lines: &mut Entries, p: u8, f: u16, order: Order) -> Changed
    requires { (lines.old ≡ no_entries) × Carries (board_of sets.now rest) order }
    ensures comes_to { ComesTo sets.now lines.new result
        (reply (board_of sets.now rest) Answer.Given (line_of Word.Given p f 0 ∷ [])) }
    ensures carries { Carries (board_of sets.now result.progress.rest) result.order }
{
    let progress = one_line(sets, rest, lines, Word::Given, p, f, 0);
    Changed {
        progress,
        answer: Answer::Given,
        order,
    }
}

// A refusal: the board is as it was, and no line is written.
pub fn refused(sets: &Sets, rest: Rest, lines: &Entries, refusal: Refusal) -> Changed
    requires { lines.now ≡ no_entries }
    ensures comes_to { ComesTo sets.now lines.now result (refuse (board_of sets.now rest) refusal) }
    ensures carries { Carries (board_of sets.now result.progress.rest) result.order }
{
    Changed::unordered(Progress { rest, count: 0 }, Answer::Refuse(refusal))
}

// DONE, then settle.
pub fn done(sets: &mut Sets, rest: Rest, lines: &mut Entries, p: u8, f: u16) -> Changed
    requires { Ready (board_of sets.old rest) × (lines.old ≡ no_entries) }
    ensures comes_to { ComesTo sets.new lines.new result (done (board_of sets.old rest) p f) }
    ensures in_form { InForm sets.new lines.new result }
{
    let w = one_line(sets, rest, lines, Word::Done, p, f, 0);
    let c = Changed::unordered(settling::settled(sets, lines, w), Answer::Done);
    sets::sized(sets);
    entries::sized(lines);
    c
}

// DONE, then the record n of f is handed on, then settle.
pub fn handed_on(sets: &mut Sets, rest: Rest, lines: &mut Entries, p: u8, f: u16, n: u16) -> Changed
    requires { Handing (board_of sets.old rest) f n × (lines.old ≡ no_entries) }
    ensures comes_to { ComesTo sets.new lines.new result (finish (hand_on (board_of sets.old rest) f n) p 0) }
    ensures in_form { InForm sets.new lines.new result }
{
    let w = one_line(sets, rest, lines, Word::Done, p, 0, 0);
    let h = settling::hand_on(sets, lines, w, f, n);
    let c = Changed::unordered(settling::settled(sets, lines, h), Answer::Done);
    sets::sized(sets);
    entries::sized(lines);
    c
}
