// Prints, for each case on standard input, what the solver and the check say of it, a line a case. tools/cases.py makes the cases and, by
// enumeration, the lines of `stdout`; it says what a case is and what its line has.
#![tactic(auto)]

ghost use Rattle.std.specs.Prelude.{◌≤◌};

mod input;

use input::{MOST_BYTES, MOST_WORDS};
use results::{Ask, Refusal, Solved};
use std::io;
use std::io::Read;

// A space and the number, one write each: what a write that fails leaves out begins with it.
fn print_number(rt: &impl Print, n: u64) -> io::Result<()> {
    rt.write_all(b" ")?;
    print!(rt; "{n}")
}

fn print_refusal(rt: &impl Print, refusal: Refusal) -> io::Result<()> {
    rt.write_all(b"refused")?;
    print_number(rt, u64::from(refusal.number()))?;
    print_number(rt, refusal.place() as u64)
}

// The number of each byte that is 1, from 1.
fn print_atoms(rt: &impl Print, plan: &[u8]) -> io::Result<()> {
    for (i, b) in plan.iter().enumerate() {
        if *b == 1 {
            print_number(rt, i as u64 + 1)?;
        }
    }
    Ok(())
}

// The solver's result, with the atoms of the plan; past them no byte is 1.
fn print_solved(rt: &impl Print, solved: Result<Solved, Refusal>, plan: &[u8]) -> io::Result<()> {
    match solved {
        Ok(Solved::Answer(_)) => {
            rt.write_all(b"answer")?;
            print_atoms(rt, plan)
        }
        Ok(Solved::Nothing(_)) => rt.write_all(b"none"),
        Ok(Solved::Limit(_)) => rt.write_all(b"limit"),
        Err(refusal) => print_refusal(rt, refusal),
    }
}

// The check's result.
fn print_checked(rt: &impl Print, checked: Result<bool, Refusal>) -> io::Result<()> {
    match checked {
        Ok(true) => rt.write_all(b"yes"),
        Ok(false) => rt.write_all(b"no"),
        Err(refusal) => print_refusal(rt, refusal),
    }
}

// The checksum of tools/cases.py with one more number.
fn mixed(h: u64, x: u64) -> u64 {
    ((h % 65521) * 33 + (x % 65521) + 1) % 65521
}

// The checksum of the bytes.
fn checksum(bytes: &[u8]) -> u64 {
    bytes.iter().fold(1, |h, b| mixed(h, u64::from(*b)))
}

// Sets the bytes of the atoms to the bits of the code, the lowest first.
fn set_plan(plan: &mut [u8], atoms: usize, code: u64) {
    let mut rest = code;
    for b in plan.iter_mut().take(atoms) {
        *b = (rest % 2) as u8;
        rest /= 2;
    }
}

// Has every plan checked; how many are answer sets, and the checksum of which.
fn print_all(rt: &impl Print, table: &[i32], plan: &mut [u8], atoms: usize) -> io::Result<()>
    requires { atoms ≤ 6 }
{
    let mut found: u64 = 0;
    let mut sum: u64 = 1;
    for code in 0..1u64 << atoms {
        set_plan(plan, atoms, code);
        if matches!(solver::approve(table, false, plan), Ok(true)) {
            found += 1;
            sum = mixed(sum, code);
        }
    }
    rt.write_all(b" /")?;
    print_number(rt, found)?;
    print_number(rt, sum)
}

// The part of the line on all plans, for accepted tables of at most 6 atoms.
fn print_plans(rt: &impl Print, table: &[i32], plan: &mut [u8]) -> io::Result<()> {
    let Some(first) = table.first() else {
        return Ok(());
    };
    let atoms = words::size(*first);
    if atoms <= 6 {
        print_all(rt, table, plan, atoms)?;
    }
    Ok(())
}

// A case's line.
fn print_line(rt: &impl Print, table: &[i32], plan: &mut [u8]) -> io::Result<()> {
    let checked = solver::approve(table, false, plan);
    let ask = Ask {
        cycles: false,
        limit: 4294967295,
    };
    let solution = solver::solve(table, ask, plan);
    print_solved(rt, solution.solved, plan)?;
    rt.write_all(b" /")?;
    print_number(rt, checksum(plan))?;
    rt.write_all(b" / ")?;
    print_checked(rt, checked)?;
    if checked.is_ok() {
        print_plans(rt, table, plan)?;
    }
    rt.write_all(b"\n")
}

// Reads a case and prints its line; whether there was one.
fn run_case(rt: &impl Print, input: &mut impl Read) -> io::Result<bool> {
    let count = input::count(input)?.unwrap_or(usize::MAX);
    let length = input::count(input)?.unwrap_or(usize::MAX);
    let given = input::count(input)?.unwrap_or(usize::MAX);
    if count > MOST_WORDS {
        return Ok(false);
    }
    let mut table = [0i32; MOST_WORDS];
    let mut plan = [7u8; MOST_BYTES];
    input::read_words(input, &mut table[..count])?;
    input::read_bytes(input, &mut plan[..given.min(MOST_BYTES)])?;
    if length <= MOST_BYTES {
        print_line(rt, &table[..count], &mut plan[..length])?;
    }
    Ok(true)
}

// Nothing says that the input ends, so the turns are counted.
fn main(rt: HostRuntime) -> io::Result<()> {
    let mut input = rt.stdin();
    for _ in 0..u64::MAX {
        if !run_case(&rt, &mut input)? {
            break;
        }
    }
    Ok(())
}
