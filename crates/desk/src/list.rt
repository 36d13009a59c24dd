// The listing of every plan for C and Rust (request 7 of 02), as `include/saucepebbly.h` declares it. Meaning: `specs/List.antt`.
ghost use Rattle.std.specs.Prelude.{◌≡◌};
ghost use Rattle.results.specs.Results.{list_kind};
ghost use Rattle.desk.specs.List.{counted_in, refused_in, numbers_of, four_written, ListsPlans};

use foundation::Candidates;
use heads::Lists;
use reports::narrowed;
use results::{Ask, Counts, Listed, Refusal};

// The kind of a result.
fn list_kind(listed: Result<Listed, Refusal>) -> u32
    ensures { result ≡ list_kind listed }
{
    match listed {
        Ok(Listed::Complete(_, _)) => 0,
        Ok(Listed::Full(_, _)) => 1,
        Ok(Listed::Limit(_, _)) => 2,
        Err(_) => 3,
    }
}

// The number listed and the counts.
fn counted(number: usize, counts: Counts) -> [u32; 4]
    ensures { result ≡ counted_in number counts }
{
    [
        narrowed(number),
        counts.choices,
        counts.skips,
        counts.passes,
    ]
}

// The number and the place of a refusal.
fn refused(f: Refusal) -> [u32; 4]
    ensures { result ≡ refused_in f }
{
    [f.number(), narrowed(f.place()), 0, 0]
}

// The four numbers of a result.
fn numbers(listed: Result<Listed, Refusal>) -> [u32; 4]
    ensures { result ≡ numbers_of listed }
{
    match listed {
        Ok(
            Listed::Complete(number, counts)
            | Listed::Full(number, counts)
            | Listed::Limit(number, counts),
        ) => counted(number, counts),
        Err(f) => refused(f),
    }
}

// The four numbers, to a report that has room for all.
fn write_four(report: &mut [u32], four: [u32; 4])
    ensures { report.new ≡ four_written four report.old }
{
    if report.len() < 4 {
        return;
    }
    report[..4].copy_from_slice(&four);
}

// Every plan: the kind of the result, and in the report its four numbers.
#[unsafe(no_mangle)]
pub extern "C" fn saucepebbly_list(
    words: &[i32],
    mode: u32,
    limit: u32,
    rows: &mut [u8],
    report: &mut [u32],
    lists: &mut Lists,
    candidates: &mut Candidates,
) -> u32
    ensures { ListsPlans words.now mode limit rows.old rows.new report.old report.new result }
{
    let cycles = mode != 0;
    let ask = Ask { cycles, limit };
    let listed = lister::list_with(words, ask, rows, lists, candidates);
    write_four(report, numbers(listed));
    list_kind(listed)
}
