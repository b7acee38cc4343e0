// What a standing is.
ghost use Rattle.std.specs.Prelude.{◌≡◌};
ghost use Rattle.rules.specs.Boards.{is_absent, is_running, is_held, is_waiting, is_admitted, awaited_of};

use rules::Standing;

pub fn is_absent(s: Standing) -> bool
    ensures { result ≡ is_absent s }
{
    matches!(s, Standing::Absent)
}

pub fn is_running(s: Standing) -> bool
    ensures { result ≡ is_running s }
{
    matches!(s, Standing::Running)
}

pub fn is_held(s: Standing) -> bool
    ensures { result ≡ is_held s }
{
    matches!(s, Standing::Held)
}

pub fn is_waiting(s: Standing) -> bool
    ensures { result ≡ is_waiting s }
{
    matches!(s, Standing::Waiting(_))
}

// Running and waiting programs are admitted.
pub fn is_admitted(s: Standing) -> bool
    ensures { result ≡ is_admitted s }
{
    matches!(s, Standing::Running | Standing::Waiting(_))
}

// The file that is waited for, and 0 unless waiting. 0 and no Option: the rules' definitions speak of `awaited_of`.
pub fn awaited(s: Standing) -> u16
    ensures { result ≡ awaited_of s }
{
    match s {
        Standing::Waiting(f) => f,
        _ => 0,
    }
}
