// The families of boards that are tried, each with its line of the report.
//
// What a line has, by arithmetic. A family of p programs has (standings * ways ^ files) ^ p boards, in a ring (standings * ways ^ 2) ^ p;
// of these each k-th are a k-th part, rounded up. One program alone always has an order.
// Of the 49 pairs of ways in which two programs may have a file, the first one holds back the second in 14: in 6 if it has the file in V and W,
// in 4 if in Q and R, in 4 if in J and I. So in 35 it does not, and in 28 neither holds back the other. With n files, for each pair
// of standings that are both admitted, 35 ^ n + 35 ^ n - 28 ^ n boards have an order, and 35 ^ n - 28 ^ n of these not the rising one.
use super::boards;
use super::boards::{Family, Files, Ways};
use super::compare::Tally;
use std::io;

// The boards of a family that are tried: those of each so many numbers, or so many that are drawn.
#[derive(Clone, Copy)]
enum Which {
    Each(u64),
    Drawn(u64),
}

// A line of the report.
#[derive(Clone, Copy)]
struct Row<'a> {
    name: &'a str,
    family: Family<'a>,
    which: Which,
}

// Tries the boards of each row and writes its line. Gives the total with these.
fn reported(rt: &impl Print, rows: &[Row], total: Tally) -> io::Result<Tally> {
    let mut sum = total;
    for row in rows {
        let tally = match row.which {
            Which::Each(step) => boards::every(&row.family, step),
            Which::Drawn(count) => boards::drawn(&row.family, count),
        };
        println!(rt; "{}: {tally}", row.name)?;
        sum = sum.and(tally);
    }
    Ok(sum)
}

// Programs that all have the same files, each in one of the first seven ways or not at all.
fn family<'a>(programs: &'a [u8], files: &'a [u8], standings: u64) -> Family<'a> {
    Family {
        programs,
        files: Files::Same(files),
        ways: Ways::First(7),
        standings,
    }
}

// Programs running that all have file 64 in any of the sets.
fn any<'a>(programs: &'a [u8]) -> Family<'a> {
    Family {
        programs,
        files: Files::Same(&[64]),
        ways: Ways::Any,
        standings: 1,
    }
}

// A ring of programs running.
fn ring<'a>(programs: &'a [u8], files: &'a [u8], ways: u64) -> Family<'a> {
    Family {
        programs,
        files: Files::Ring(files),
        ways: Ways::First(ways),
        standings: 1,
    }
}

// Up to two programs.
pub fn small(rt: &impl Print, total: Tally) -> io::Result<Tally> {
    let rows = [
        Row {
            name: "program 32 in any standing, files 1 and 64",
            family: family(&[32], &[1, 64], 6),
            which: Which::Each(1),
        },
        Row {
            name: "programs 1 and 2 running or waiting, files 1 and 2",
            family: family(&[1, 2], &[1, 2], 2),
            which: Which::Each(1),
        },
        Row {
            name: "programs 5 and 32 in any standing, files 1 and 64, each 11th",
            family: family(&[5, 32], &[64, 1], 6),
            which: Which::Each(11),
        },
        Row {
            name: "programs 31 and 32 running, files 1, 33 and 64, each 11th",
            family: family(&[31, 32], &[1, 33, 64], 1),
            which: Which::Each(11),
        },
        Row {
            name: "programs 16 and 32 running, file 64 in any of the sets",
            family: any(&[16, 32]),
            which: Which::Each(1),
        },
    ];
    reported(rt, &rows, total)
}

// Three programs.
pub fn middle(rt: &impl Print, total: Tally) -> io::Result<Tally> {
    let rows = [
        Row {
            name: "programs 1 to 3 running, files 1 and 2, each 11th",
            family: family(&[1, 2, 3], &[1, 2], 1),
            which: Which::Each(11),
        },
        Row {
            name: "programs 1, 16 and 32 running, file 64 in any of the sets, each 61st",
            family: any(&[1, 16, 32]),
            which: Which::Each(61),
        },
    ];
    reported(rt, &rows, total)
}

// Rings: each program shares a file with the next one, and the last with the first.
pub fn rings(rt: &impl Print, total: Tally) -> io::Result<Tally> {
    let rows = [
        Row {
            name: "a ring of programs 1, 2 and 32 running, each 11th",
            family: ring(&[1, 2, 32], &[1, 64, 2, 1], 7),
            which: Which::Each(11),
        },
        Row {
            name: "a ring of programs 1 to 4 running, all files claimed, each 7th",
            family: ring(&[1, 2, 3, 4], &[1, 64, 2, 63, 1], 4),
            which: Which::Each(7),
        },
        Row {
            name: "a ring of programs 4, 8, 15, 16 and 23 running, all files claimed, each 127th",
            family: ring(&[4, 8, 15, 16, 23], &[1, 64, 2, 63, 33, 1], 4),
            which: Which::Each(127),
        },
    ];
    reported(rt, &rows, total)
}

// Six programs, each with a file or, in five of twelve ways, without it.
fn six<'a>() -> Family<'a> {
    Family {
        programs: &[1, 7, 12, 20, 31, 32],
        files: Files::Same(&[1, 33, 64]),
        ways: Ways::First(12),
        standings: 2,
    }
}

// Four to six programs, a part of the boards.
pub fn large(rt: &impl Print, total: Tally) -> io::Result<Tally> {
    let rows = [
        Row {
            name: "programs 3, 8, 9 and 32 running or waiting, files 1 and 64, each 15013th",
            family: family(&[3, 8, 9, 32], &[1, 64], 2),
            which: Which::Each(15013),
        },
        Row {
            name: "programs 1 to 5 running, files 1 and 2, each 57793rd",
            family: family(&[1, 2, 3, 4, 5], &[1, 2], 1),
            which: Which::Each(57793),
        },
        Row {
            name: "programs 2, 9, 20, 31 and 32 in any standing, files 1 and 64, each 400000009th",
            family: family(&[2, 9, 20, 31, 32], &[64, 1], 6),
            which: Which::Each(400000009),
        },
        Row {
            name: "programs 1, 7, 12, 20, 31 and 32 running or waiting, files 1, 33 and 64, drawn by a fixed rule",
            family: six(),
            which: Which::Drawn(2000),
        },
    ];
    reported(rt, &rows, total)
}
