// The counts: for each waiting program, how many were admitted since it began to wait.
// The sets are lent for the contracts alone: a ghost value in their place could not be the caller's own sets.
ghost use Rattle.std.specs.Prelude.{◌≡◌, true, cond, ◌+◌, ◌<◌};
ghost use Rattle.laws.specs.Lists.{all, names};
ghost use Rattle.rules.specs.Boards.{is_program, is_waiting, tallied};
ghost use Rattle.rules.specs.Settling.{overdue};
ghost use Rattle.store.specs.Store.{board_of};
ghost use Rattle.settling.specs.Writing.{CountsFew, as_option};

use rules::Standing;
use store::Rest;
use store::sets::Sets;

// The count of a program with this standing when one more is admitted.
fn one_more(s: Standing, n: u8) -> u8
    requires { n < 255 }
    ensures { result ≡ cond (is_waiting s) (n + 1) 0 }
{
    if parts::standings::is_waiting(s) {
        n + 1
    } else {
        0
    }
}

// The counts when one more is admitted: that of each waiting program goes up by 1, and is 0 for all others.
pub fn tally(sets: &Sets, rest: Rest) -> [u8; 32]
    requires { CountsFew rest.passed }
    ensures { result ≡ tallied (board_of sets.now rest) }
{
    let mut counts = [0u8; 32];
    for i in 0..32 {
        counts[i] = one_more(rest.seats[i].standing, rest.passed[i]);
    }
    counts
}

// The oldest waiter whose count is 8.
pub fn oldest_overdue(sets: &Sets, rest: Rest) -> Option<u8>
    requires { all is_program (names rest.waiting) ≡ true }
    ensures { result ≡ as_option (overdue (board_of sets.now rest)) }
{
    crate::oldest(
        rest.waiting,
        |p| rest.passed[tables::boards::place_of(p)] == 8,
    )
}
