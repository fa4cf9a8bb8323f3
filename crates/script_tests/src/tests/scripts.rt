// What each line does and answers, whatever the pieces in which the script is read.
use super::steps::{A, Case, NO_FAULTS, end_of};
use base_notes::Note;
use std::process::Abort;
use std::test::Fail;

const CASES: &[Case] = &[
    Case {
        name: "a committed line stands where a later one is wrong",
        script: b"SET\tb\t2\nCOMMIT\nSET\tc\t3\n",
        note: Note::BadLine { line: 2 },
        told: b"COMMITTED\n",
        left: b"a\t1\nb\t2\n",
    },
    Case {
        name: "a script that ends in a transaction",
        script: b"BEGIN\nSET\tb\t2\n",
        note: Note::BadLine { line: 3 },
        told: b"BEGUN\nOK\n",
        left: A,
    },
    Case {
        name: "an empty key",
        script: b"SET\t\tv\n",
        note: Note::BadLine { line: 1 },
        told: b"",
        left: A,
    },
    Case {
        name: "no byte",
        script: b"",
        note: Note::Done,
        told: b"",
        left: A,
    },
    Case {
        name: "a key put twice in one transaction",
        script: b"BEGIN\nSET\ta\tx\nSET\ta\ty\nGET\ta\nCOMMIT\n",
        note: Note::Done,
        told: b"BEGUN\nOK\nOK\nVALUE\ty\nCOMMITTED\n",
        left: b"a\ty\n",
    },
    Case {
        name: "a transaction that is given up",
        script: b"BEGIN\nSET\tc\t1\nABORT\nSHOW\n",
        note: Note::Done,
        told: b"BEGUN\nOK\nABORTED\nPAIR\ta\t1\nEND\n",
        left: A,
    },
    Case {
        name: "what is changed is seen before it is committed",
        script: b"BEGIN\nDELETE\ta\nGET\ta\nSET\tab\t2\nSET\tb\t3\nSHOW\ta\nSHOW\t\n",
        note: Note::BadLine { line: 8 },
        told: b"BEGUN\nOK\nNONE\nOK\nOK\nPAIR\tab\t2\nEND\nPAIR\tab\t2\nPAIR\tb\t3\nEND\n",
        left: A,
    },
    Case {
        name: "the last line without LF",
        script: b"DELETE\ta",
        note: Note::Done,
        told: b"COMMITTED\n",
        left: b"",
    },
    Case {
        name: "escapes are read, and written in replies",
        script: b"SET\tk\xff\x89\tv\xff\x8a\nGET\tk\xff\x89\nSHOW\tk\n",
        note: Note::Done,
        told: b"COMMITTED\nVALUE\tv\xff\x8a\nPAIR\tk\xff\x89\tv\xff\x8a\nEND\n",
        left: b"a\t1\nk\xff\x89\tv\xff\x8a\n",
    },
    Case {
        name: "a TAB and a CR belong to the value",
        script: b"SET\tb\tx\ty\r\nGET\tb\n",
        note: Note::Done,
        told: b"COMMITTED\nVALUE\tx\xff\x89y\xff\x8d\n",
        left: b"a\t1\nb\tx\xff\x89y\xff\x8d\n",
    },
    Case {
        name: "an empty value",
        script: b"SET\tb\t\nGET\tb",
        note: Note::Done,
        told: b"COMMITTED\nVALUE\t\n",
        left: b"a\t1\nb\t\n",
    },
    Case {
        name: "a CR behind a word",
        script: b"BEGIN\r\n",
        note: Note::BadLine { line: 1 },
        told: b"",
        left: A,
    },
    Case {
        name: "a TAB in a key",
        script: b"GET\ta\tb\n",
        note: Note::BadLine { line: 1 },
        told: b"",
        left: A,
    },
    Case {
        name: "a bad escape",
        script: b"GET\ta\xff\n",
        note: Note::BadLine { line: 1 },
        told: b"",
        left: A,
    },
    Case {
        name: "an empty line",
        script: b"GET\tb\n\n",
        note: Note::BadLine { line: 2 },
        told: b"NONE\n",
        left: A,
    },
    Case {
        name: "another word",
        script: b"SETS\ta\tb\n",
        note: Note::BadLine { line: 1 },
        told: b"",
        left: A,
    },
    Case {
        name: "a key without a value",
        script: b"SET\ta\n",
        note: Note::BadLine { line: 1 },
        told: b"",
        left: A,
    },
    Case {
        name: "no key",
        script: b"DELETE\t\n",
        note: Note::BadLine { line: 1 },
        told: b"",
        left: A,
    },
    Case {
        name: "a transaction in a transaction",
        script: b"BEGIN\nBEGIN\n",
        note: Note::BadLine { line: 2 },
        told: b"BEGUN\n",
        left: A,
    },
    Case {
        name: "no transaction",
        script: b"ABORT\n",
        note: Note::BadLine { line: 1 },
        told: b"",
        left: A,
    },
    Case {
        name: "an absent key is deleted, and a transaction that changes nothing committed",
        script: b"DELETE\tb\nBEGIN\nCOMMIT\n",
        note: Note::Done,
        told: b"COMMITTED\nBEGUN\nCOMMITTED\n",
        left: A,
    },
];

// Each script at reads of 1 to 9 bytes, and all at once.
#[test]
fn lines_are_cut_anywhere(rt: HostRuntime) -> Result<(), Fail> {
    for case in CASES {
        for piece in [1, 2, 3, 4, 5, 6, 7, 8, 9, 1000] {
            let end = end_of(rt.alloc(), case, piece, &NO_FAULTS)?;
            assert_eq!(rt;
                (end.note, end.is_told, end.is_left),
                (case.note, true, true),
                "{} at {piece}",
                case.name
            );
        }
    }
    Ok(())
}
