// The table of modes that clash, of whole sets; of one file `store::sets::has_claim` and `search::gives::in_use` have it,
// which look into no more sets than they need.
ghost use Rattle.std.specs.Prelude.{◌≡◌, not, eqb};
ghost use Rattle.rules.specs.Modes.{touching};
ghost use Rattle.parts.specs.Modes.{clashes, rows, SameLengths};

// Whether what one has for writing (w), for reading (r) and for inquiry (i) clashes with what another has for writing (v), for reading (q)
// and for inquiry (j): writing clashes with all three, reading with writing and inquiry, inquiry with writing and reading. The sets are
// rows of words.
pub fn touches(w: &[u64], r: &[u64], i: &[u64], v: &[u64], q: &[u64], j: &[u64]) -> bool
    requires { SameLengths w.now r.now i.now v.now q.now j.now }
    ensures { result ≡ touching (rows w.now r.now i.now) (rows v.now q.now j.now) }
{
    for k in 0..w.len() {
        if clash(w[k], r[k], i[k], v[k], q[k], j[k]) {
            return true;
        }
    }
    false
}

// Whether one word of each clashes: by columns of the table, so that what one program has is joined once for all others.
fn clash(w: u64, r: u64, i: u64, v: u64, q: u64, j: u64) -> bool
    ensures { result ≡ not (eqb (clashes w r i v q j) 0) }
{
    ((w | r | i) & v) | ((w | i) & q) | ((w | r) & j) != 0
}
