// What the first difference of a report from lines that come one by one tells of both.
use std::alloc::{AllocError, Global};
use std::test::Fail;
use tva_report::{Comparison, first_bad, line_count};

// A report, what is fed, and the first difference: its number, 0 where there is none, and both lines. A bad
// line comes first.
const CASES: [(&str, [&str; 3], u64, &str, &str); 12] = [
    ("", ["", "", ""], 0, "", ""),
    ("a\nb\n", ["a\n", "", "b\n"], 0, "", ""),
    ("a\nb\n", ["a\n", "c\nd\n", "e\n"], 2, "c", "b"),
    ("a\n", ["a\n", "b\n", "c\n"], 2, "b", ""),
    ("a\nb\nc\n", ["a\n", "", "b\n"], 3, "", "c"),
    ("ab\n", ["a\n", "", ""], 1, "a", "ab"),
    ("a\nb\nc\n", ["a\nb\n", "c\n", ""], 0, "", ""),
    ("a\nb\nc\n", ["a\nb\n", "d\n", "c\n"], 3, "d", "c"),
    ("a\nb\n\n", ["a\nc\n", "d\n", ""], 3, "bad", ""),
    ("a\nb", ["a\nb\n", "c\n", ""], 2, "bad", ""),
    ("a\nb\n\n", ["a\n", "b\n", ""], 3, "bad", ""),
    ("\na\n", ["b\n", "a\n", ""], 1, "bad", ""),
];

// The same of a report, in words. Nothing is fed that has a bad line.
fn compared(alloc: Global, report: &str, fed: &[&str]) -> Result<String, AllocError> {
    let mut comparison = Comparison::new(report.as_bytes());
    for text in fed {
        if first_bad(text.as_bytes()).is_some() {
            return Ok(String::new(alloc));
        }
        comparison.feed(text.as_bytes(), line_count(text.as_bytes()));
    }
    match comparison.finish() {
        Ok(Some(found)) => {
            format!(in alloc;
                "{} {}/{}",
                found.line,
                found.expected.as_str(),
                found.found.as_str()
            )
        }
        Ok(None) => String::from_str(alloc, "0 /"),
        Err(line) => format!(in alloc; "{line} bad/"),
    }
}

#[test]
fn the_first_difference_has_both_lines(rt: HostRuntime) -> Result<(), Fail> {
    let alloc = rt.alloc();
    for (report, fed, line, expected, found) in &CASES {
        let want = format!(in alloc; "{line} {expected}/{found}")?;
        assert_eq!(&rt; compared(alloc, report, fed)?.as_str(), want.as_str());
    }
    Ok(())
}
