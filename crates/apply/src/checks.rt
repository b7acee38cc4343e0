// Checks 8 to 16 and 18 to 21 of a direct call: each answers with the first refusal that applies.
ghost use Rattle.std.specs.Prelude.{◌≡◌, ◌≤◌, true, false, Ok, MatchOption};
ghost use Rattle.std.specs.Result.{result_and};
ghost use Rattle.files.specs.Sets.{is_file};
ghost use Rattle.rules.specs.Boards.{is_program};
ghost use Rattle.rules.specs.Modes.{claims_meet};
ghost use Rattle.rules.specs.Calls.{call_of, checked};
ghost use Rattle.store.specs.Store.{board_of};
ghost use Rattle.apply.specs.Replies.{record_check, running_check, using_check, busy_check, entry_check, stopped_check, claim_check_at, use_check_at, inquiry_check_at, returned_check, near_open, near_close, near_fetch, near_return, near_check};

use files::words;
use rules::{Asked, Claims, Mode, Refusal, Standing, Verb};
use store::sets::Sets;
use store::{Rest, Seat, sets};

// The number, if it is a program's.
fn program_of(n: u64) -> Option<u8>
    ensures { MatchOption result (is_program n ≡ false) (λ p. (is_program n ≡ true) × (p ≡ n)) }
{
    match n {
        1..=32 => Some(n as u8),
        _ => None,
    }
}

// The number, if it is a file's.
fn file_of(n: u64) -> Option<u16>
    ensures { MatchOption result (is_file n ≡ false) (λ f. (is_file n ≡ true) × (f ≡ n)) }
{
    match n {
        1..=64 => Some(n as u16),
        _ => None,
    }
}

// 19.
fn record_check(n: u64) -> Result<(), Refusal>
    ensures { result ≡ record_check n }
{
    match n {
        1..=65535 => Ok(()),
        _ => Err(Refusal::BadRecord),
    }
}

// 11, 12, 13.
fn running_check(s: Standing) -> Result<(), Refusal>
    ensures { result ≡ running_check s }
{
    match s {
        Standing::Absent => Err(Refusal::IsAbsent),
        Standing::Running => Ok(()),
        Standing::Waiting(_) => Err(Refusal::IsWaiting),
        Standing::Held => Err(Refusal::IsHeld),
    }
}

// 21, of a running program with this record in use, or 0.
fn using_check(item: u16) -> Result<(), Refusal>
    ensures { result ≡ using_check item }
{
    match item {
        0 => Ok(()),
        _ => Err(Refusal::HasRecord),
    }
}

// 11 to 13, 21.
fn busy_check(seat: Seat) -> Result<(), Refusal>
    ensures { result ≡ busy_check seat }
{
    running_check(seat.standing)?;
    using_check(seat.item)
}

// 14, 15.
fn claim_check(sets: &Sets, p: u8, f: u16) -> Result<(), Refusal>
    requires { (1 ≤ p) × (p ≤ 32) }
    ensures { result ≡ claim_check_at sets.now p f }
{
    if !sets::has_claim(sets, p, f, Mode::Write) {
        return Err(Refusal::NotClaimed);
    }
    if sets::has_open(sets, p, f) {
        return Err(Refusal::IsOpen);
    }
    Ok(())
}

// 16.
fn use_check(sets: &Sets, p: u8, f: u16) -> Result<(), Refusal>
    requires { (1 ≤ p) × (p ≤ 32) }
    ensures { result ≡ use_check_at sets.now p f }
{
    if !sets::has_open(sets, p, f) {
        return Err(Refusal::NotOpen);
    }
    Ok(())
}

// 20, of a fetch: a file that is not open for inquiry.
fn inquiry_check(sets: &Sets, p: u8, f: u16) -> Result<(), Refusal>
    requires { (1 ≤ p) × (p ≤ 32) }
    ensures { result ≡ inquiry_check_at sets.now p f }
{
    if !words::has(&sets[sets::open_at(Mode::Inquiry, p)], f) {
        return Err(Refusal::NoRecord);
    }
    Ok(())
}

// 20, of a return with this record in use, or 0.
fn return_check(item: u16) -> Result<(), Refusal>
    ensures { result ≡ returned_check item }
{
    match item {
        0 => Err(Refusal::NoRecord),
        _ => Ok(()),
    }
}

// "Refusal 10 covers any two claims that meet."
fn claims_meet(c: Claims) -> bool
    ensures { result ≡ claims_meet c.writable c.readable c.inquirable }
{
    c.writable.meets(c.readable) || c.writable.meets(c.inquirable) || c.readable.meets(c.inquirable)
}

// 9, 10, of a program in range.
fn check_enter(s: Standing, claims: Claims) -> Result<(), Refusal>
    ensures { result ≡ entry_check s claims }
{
    if !parts::standings::is_absent(s) {
        return Err(Refusal::NotAbsent);
    }
    if claims_meet(claims) {
        return Err(Refusal::ClaimsMeet);
    }
    Ok(())
}

// 8, 11 to 13, 21, 14 and 15, of a program in range; for open and for drop.
fn check_open(sets: &Sets, p: u8, seat: Seat, file: u64) -> Result<(), Refusal>
    requires { (1 ≤ p) × (p ≤ 32) }
    ensures { result ≡ near_open sets.now p seat file }
{
    let f = file_of(file).ok_or(Refusal::OutOfRange)?;
    busy_check(seat)?;
    claim_check(sets, p, f)
}

// 8, 11 to 13, 21 and 16, of a program in range.
fn check_close(sets: &Sets, p: u8, seat: Seat, file: u64) -> Result<(), Refusal>
    requires { (1 ≤ p) × (p ≤ 32) }
    ensures { result ≡ near_close sets.now p seat file }
{
    let f = file_of(file).ok_or(Refusal::OutOfRange)?;
    busy_check(seat)?;
    use_check(sets, p, f)
}

// 8, 19, 11 to 13, 21 and 20, of a program in range.
fn check_fetch(sets: &Sets, p: u8, seat: Seat, file: u64, item: u64) -> Result<(), Refusal>
    requires { (1 ≤ p) × (p ≤ 32) }
    ensures { result ≡ near_fetch sets.now p seat file item }
{
    let f = file_of(file).ok_or(Refusal::OutOfRange)?;
    record_check(item)?;
    busy_check(seat)?;
    inquiry_check(sets, p, f)
}

// 11 to 13 and 20, of a program in range.
fn check_return(seat: Seat) -> Result<(), Refusal>
    ensures { result ≡ near_return seat }
{
    running_check(seat.standing)?;
    return_check(seat.item)
}

// 11, 18, of a program in range.
fn check_cancel(s: Standing) -> Result<(), Refusal>
    ensures { result ≡ stopped_check s }
{
    match s {
        Standing::Absent => Err(Refusal::IsAbsent),
        Standing::Running => Err(Refusal::IsRunning),
        Standing::Waiting(_) | Standing::Held => Ok(()),
    }
}

// The checks of a call, of a program in range that has this seat.
fn check_call(sets: &Sets, p: u8, seat: Seat, a: Asked) -> Result<(), Refusal>
    requires { (1 ≤ p) × (p ≤ 32) }
    ensures { result ≡ near_check sets.now p seat a.verb a.file a.item a.claims }
{
    match a.verb {
        Verb::Enter => check_enter(seat.standing, a.claims),
        Verb::Open | Verb::Drop => check_open(sets, p, seat, a.file),
        Verb::Close => check_close(sets, p, seat, a.file),
        Verb::Leave => running_check(seat.standing),
        Verb::Cancel => check_cancel(seat.standing),
        Verb::Fetch => check_fetch(sets, p, seat, a.file, a.item),
        Verb::Return => check_return(seat),
    }
}

// The program of a call that no check refuses.
pub fn check(sets: &Sets, rest: Rest, a: Asked) -> Result<u8, Refusal>
    ensures { result ≡ result_and (checked (board_of sets.now rest) (call_of a)) (Ok a.program) }
{
    sets::sized(sets);
    let p = program_of(a.program).ok_or(Refusal::OutOfRange)?;
    check_call(sets, p, store::seat_at(rest, p), a)?;
    Ok(p)
}
