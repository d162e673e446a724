use command_line::explain;
use std::alloc::Global;
use std::process::Abort;

/// The letters of refusals, and the number of numbers that each has from 1 on.
const LETTERS: [(&str, u32); 12] = [
    ("B", 12),
    ("S", 4),
    ("V", 12),
    ("C", 5),
    ("D", 3),
    ("Q", 2),
    ("P", 16),
    ("E", 7),
    ("O", 3),
    ("K", 2),
    ("L", 11),
    ("N", 6),
];

fn is_explained(rt: &impl Abort, alloc: Global, letter: &str, number: u32) -> bool {
    let word = format!(in alloc; "{letter}{number}").expect(rt, "memory");
    explain(word.as_str()).is_some()
}

/// Words that are no refusal's number.
const NO_NUMBERS: [&str; 7] = ["", "V", "v5", "V05", "V0", "5", "V5 "];

#[test]
fn every_refusal_is_explained(rt: HostRuntime) {
    for (letter, count) in &LETTERS {
        for number in 1..=*count {
            assert!(rt;
                is_explained(&rt, rt.alloc(), letter, number),
                "{letter}{number}"
            );
        }
        assert!(rt;
            !is_explained(&rt, rt.alloc(), letter, count.wrapping_add(1)),
            "{letter}"
        );
    }
    for word in &NO_NUMBERS {
        assert!(rt; explain(word).is_none(), "{word}");
    }
}

/// Refusals, and the printed explanation of each.
const PRINTED: [(&str, &str); 2] = [
    (
        "V5",
        "V5: a byte of the stack is read, or put as a row, that wasn't written on each path\n\
         what to do: write the whole buffer before\n\
         in C: a row that some path doesn't write wholly: `struct NAME row = {};`",
    ),
    (
        "S3",
        "S3: the table was there before\n\
         what to do: name each table once",
    ),
];

#[test]
fn an_explanation_is_printed(rt: HostRuntime) {
    for (word, text) in &PRINTED {
        let Some(explanation) = explain(word) else {
            panic!(rt; "no row");
        };
        assert_eq!(rt;
            explanation
                .to_string(rt.alloc())
                .expect(&rt, "memory")
                .as_str(),
            *text
        );
    }
}
