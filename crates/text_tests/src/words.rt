// Worked rows: words that are forms, and words that are none.

use command_words::{Form, form_of};
use std::alloc::{AllocError, Global};
use std::test::Fail;

// The words of a line, which are parted by single spaces.
fn words_of(alloc: Global, line: &str) -> Result<Vec<String>, AllocError> {
    let mut words = Vec::new(alloc);
    for word in line.split(' ') {
        words.push(String::from_str(alloc, word)?)?;
    }
    Ok(words)
}

// The two numbers of a line that asks for a graph.
fn numbers(alloc: Global, line: &str) -> Result<Option<(u32, u64)>, Fail> {
    let words = words_of(alloc, line)?;
    match form_of(alloc, &words)? {
        Some(Form::Make { edges, seed }) => Ok(Some((edges, seed))),
        _ => Ok(None),
    }
}

// Whether a line asks for a report on the files g and s.
fn is_report(alloc: Global, line: &str) -> Result<bool, Fail> {
    let words = words_of(alloc, line)?;
    match form_of(alloc, &words)? {
        Some(Form::Run { graph, script }) => Ok(graph == "g" && script == "s"),
        _ => Ok(false),
    }
}

// Lines, and the numbers of those that ask for a graph.
static MAKING: [(&str, Option<(u32, u64)>); 9] = [
    ("make 6 1", Some((6, 1))),
    ("make 006 0", Some((6, 0))),
    ("make 20000 18446744073709551615", Some((20_000, u64::MAX))),
    ("make 5 1", None),
    ("make 20001 1", None),
    ("make 6 18446744073709551616", None),
    ("make 6 -1", None),
    ("make +6 1", None),
    ("make 6", None),
];

#[test]
fn reads_numbers(rt: HostRuntime) -> Result<(), Fail> {
    for (line, expected) in &MAKING {
        assert_eq!(rt; numbers(rt.alloc(), line)?, *expected);
    }
    Ok(())
}

// Lines, and whether they ask for a report on the files g and s.
static RUNNING: [(&str, bool); 6] = [
    ("run g s", true),
    ("run g", false),
    ("run g s s", false),
    ("run -h s", false),
    ("run g --", false),
    ("ran g s", false),
];

#[test]
fn reads_names(rt: HostRuntime) -> Result<(), Fail> {
    for (line, expected) in &RUNNING {
        assert_eq!(rt; is_report(rt.alloc(), line)?, *expected);
    }
    Ok(())
}
