// `breaks` (subjects), with tables lent by reference, on cases that document 01 gives ("Sheet A, and around it"): without tables, and with
// those that the rule is lent. The programs don't reach it, since the search takes the tables by value.
use crate::lent::fill_table;
use crate::subjects::{RULES, breaks, subject_kinds};
use crate::{Asked, LentTables};
use languages::list::Languages;
use std::test::Fail;

// "A, 52 words", each as two bytes, high first: header, programme, content, object, pack, track, references
const SHEET_A: [u8; 104] = [
    0, 1, 0, 1, 0, 1, 0, 16, 0, 1, 0, 24, 0, 1, 0, 29, 0, 1, 0, 45, 0, 1, 0, 48, 0, 2, 0, 50, 0, 0,
    0, 52, 21, 199, 0, 0, 0, 1, 0, 0, 0, 0, 0, 0, 0, 0, 0, 1, 21, 199, 0, 0, 0, 0, 0, 0, 0, 1, 0,
    0, 0, 1, 0, 1, 0, 0, 0, 0, 0, 0, 0, 0, 0, 0, 127, 255, 127, 255, 127, 255, 127, 255, 127, 255,
    127, 255, 0, 0, 0, 0, 0, 1, 0, 1, 0, 0, 0, 0, 0, 0, 0, 0, 0, 0,
];

// "5575 is "eng""
const ENGLISH: [u8; 2] = [21, 199];

// A with one word changed, to one below 256.
fn changed(at: u8, word: u8) -> [u8; 104] {
    let high = 2 * usize::from(at);
    let mut bytes = SHEET_A;
    for i in 0..104 {
        if i == high {
            bytes[i] = 0;
        }
        if i == high + 1 {
            bytes[i] = word;
        }
    }
    bytes
}

// Whether a record breaks a rule, asked without tables and with those that it is lent.
fn answers(sheet: &[u8], asked: Asked, k: u16) -> Result<[bool; 2], Fail> {
    let langs = Languages::lent(&ENGLISH).ok_or("one word rises")?;
    let none = LentTables {
        first: &[],
        second: &[],
    };
    let mut first = [0; 8];
    fill_table(sheet, &langs, asked.first_table(), &mut first);
    let mut second = [0; 8];
    fill_table(sheet, &langs, asked.second_table(), &mut second);
    let filled = LentTables {
        first: &first,
        second: &second,
    };
    Ok([
        breaks(sheet, &langs, &none, &mut [], asked, k),
        breaks(sheet, &langs, &filled, &mut [0; 8], asked, k),
    ])
}

#[test]
fn a_keeps_every_rule(rt: HostRuntime) -> Result<(), Fail> {
    for rule in RULES {
        let kinds = subject_kinds(rule);
        for section in 0..8 {
            let n = kinds[usize::from(section)].how_many(&SHEET_A, section);
            for k in 0..n {
                let asked = Asked { rule, section };
                assert_eq!(rt;
                    answers(&SHEET_A, asked, k)?,
                    [false; 2],
                    "rule {rule} section {section}"
                );
            }
        }
    }
    Ok(())
}

#[test]
fn the_changed_word_breaks_its_rule(rt: HostRuntime) -> Result<(), Fail> {
    // "level 3", "content loudness 0", "offset 0 in A", "ordinal 1"
    for (at, word, rule, section) in [(1, 3, 2, 0), (28, 0, 6, 2), (40, 0, 17, 3), (49, 1, 14, 3)] {
        let asked = Asked { rule, section };
        assert_eq!(rt;
            answers(&changed(at, word), asked, 0)?,
            [true; 2],
            "rule {rule}"
        );
    }
    Ok(())
}
