//! Words that are refused, before the plant is read.

use super::{Case, WORDS, try_case};
use std::test::Fail;

const AT_1: &str = "flowrelax: words refused at 1\n";

const AT_2: &str = "flowrelax: words refused at 2\n";

const AT_3: &str = "flowrelax: words refused at 3\n";

const AT_4: &str = "flowrelax: words refused at 4\n";

/// Words, and the line that says which of them is refused.
static REFUSED: [(&str, &[&str], &str); 24] = [
    ("no words", &[], AT_1),
    ("another command", &["relax"], AT_1),
    ("a word too many", &["run", "x"], AT_2),
    ("an option without its file", &["run", "--journal"], AT_3),
    ("a file without a name", &["run", "--journal", ""], AT_3),
    (
        "an option given twice",
        &["run", "--journal", "a", "--journal", "b"],
        AT_4,
    ),
    (
        "an option that a check has not",
        &["check", "--journal", "a"],
        AT_2,
    ),
    ("a word too many to check", &["check", "run"], AT_2),
    (
        "an option that stepping has not",
        &["direct", "--journal", "a"],
        AT_2,
    ),
    ("no number of stages", &["demo"], AT_2),
    ("no stages", &["demo", "0"], AT_2),
    ("a stage too many", &["demo", "81"], AT_2),
    ("a leading zero", &["demo", "016"], AT_2),
    ("a sign", &["demo", "+16"], AT_2),
    (
        "an option that a summary has not",
        &["demo", "16", "--feeds", "a"],
        AT_3,
    ),
    ("no workers", &["run", "--workers", "0"], AT_3),
    ("no number of workers", &["run", "--workers"], AT_3),
    (
        "workers given twice",
        &["run", "--workers", "2", "--workers", "2"],
        AT_4,
    ),
    ("a worker too many", &["run", "--workers", "33"], AT_3),
    (
        "workers with a leading zero",
        &["run", "--workers", "01"],
        AT_3,
    ),
    (
        "workers of seven digits",
        &["run", "--workers", "1000000"],
        AT_3,
    ),
    (
        "workers that stepping has not",
        &["direct", "--workers", "2"],
        AT_2,
    ),
    (
        "workers that a check has not",
        &["check", "--workers", "2"],
        AT_2,
    ),
    (
        "no workers for a summary",
        &["demo", "2", "--workers", "0"],
        AT_4,
    ),
];

#[test]
fn refuses_words_as_it_should(rt: HostRuntime) -> Result<(), Fail> {
    for &(name, words, err) in &REFUSED {
        let case = Case {
            name,
            words,
            err,
            ..WORDS
        };
        try_case(&rt, rt.alloc(), &case)?;
    }
    Ok(())
}
