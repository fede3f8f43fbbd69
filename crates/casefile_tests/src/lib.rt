//! Tests of the text layer on telling lines and texts.
#![tactic(auto)]

#[cfg(test)]
mod tests {
    use casefile::{LIMIT, Number, Record, Report, TextFault, TooShort, check_text, read_line};
    use std::alloc::{AllocError, Global};
    use std::process::Abort;
    use std::test::Fail;

    // A line with the number and the column of its first fault.
    #[derive(Clone, Copy)]
    struct Faulty<'a> {
        line: &'a [u8],
        number: u8,
        column: usize,
    }

    fn check_faults(rt: &impl Abort, table: &[Faulty]) {
        for row in table {
            let reported = read_line(row.line).map_err(|fault| TextFault::Line(fault).report());
            let fault = Report {
                column: row.column,
                layer: 1,
                number: row.number,
            };
            assert_eq!(rt; reported, Err(fault));
        }
    }

    #[test]
    fn letters_and_lengths(rt: HostRuntime) {
        check_faults(
            &rt,
            &[
                Faulty {
                    line: b"",
                    number: 10,
                    column: 1,
                },
                Faulty {
                    line: b"t    1",
                    number: 10,
                    column: 1,
                },
                Faulty {
                    line: b" G   1",
                    number: 10,
                    column: 1,
                },
                Faulty {
                    line: b"\xff    1",
                    number: 10,
                    column: 1,
                },
                Faulty {
                    line: b"\0",
                    number: 10,
                    column: 1,
                },
                Faulty {
                    line: b"G",
                    number: 11,
                    column: 2,
                },
                Faulty {
                    line: b"G    ",
                    number: 11,
                    column: 6,
                },
                Faulty {
                    line: b"G    1 ",
                    number: 11,
                    column: 7,
                },
                Faulty {
                    line: b"G    1\r",
                    number: 11,
                    column: 7,
                },
                Faulty {
                    line: b"T    1",
                    number: 11,
                    column: 7,
                },
                Faulty {
                    line: b"T    1  0    7    ",
                    number: 11,
                    column: 19,
                },
                Faulty {
                    line: b"T    1  0    7    0 ",
                    number: 11,
                    column: 20,
                },
                Faulty {
                    line: b"S    1  0    7    0",
                    number: 11,
                    column: 7,
                },
            ],
        )
    }

    #[test]
    fn spaces(rt: HostRuntime) {
        check_faults(
            &rt,
            &[
                Faulty {
                    line: b"T1   1  0    7    0",
                    number: 12,
                    column: 2,
                },
                Faulty {
                    line: b"T    1, 0    7    0",
                    number: 12,
                    column: 7,
                },
                Faulty {
                    line: b"T    1  0\x00   7    0",
                    number: 12,
                    column: 10,
                },
                Faulty {
                    line: b"T    1  0    7-   0",
                    number: 12,
                    column: 15,
                },
                Faulty {
                    line: b"T    1, 0    7-   0",
                    number: 12,
                    column: 7,
                },
                Faulty {
                    line: b"Tx  01, 0    7-  00",
                    number: 12,
                    column: 2,
                },
                Faulty {
                    line: b"A.   1",
                    number: 12,
                    column: 2,
                },
                Faulty {
                    line: b"S\t  07",
                    number: 12,
                    column: 2,
                },
            ],
        )
    }

    #[test]
    fn fields(rt: HostRuntime) {
        check_faults(
            &rt,
            &[
                Faulty {
                    line: b"G     ",
                    number: 13,
                    column: 3,
                },
                Faulty {
                    line: b"G 0000",
                    number: 13,
                    column: 3,
                },
                Faulty {
                    line: b"G   07",
                    number: 13,
                    column: 3,
                },
                Faulty {
                    line: b"G 7   ",
                    number: 13,
                    column: 3,
                },
                Faulty {
                    line: b"G 1  2",
                    number: 13,
                    column: 3,
                },
                Faulty {
                    line: b"G   -7",
                    number: 13,
                    column: 3,
                },
                Faulty {
                    line: b"G   7a",
                    number: 13,
                    column: 3,
                },
                Faulty {
                    line: b"G   \x007",
                    number: 13,
                    column: 3,
                },
                Faulty {
                    line: b"G   \xff7",
                    number: 13,
                    column: 3,
                },
                Faulty {
                    line: b"G   /1",
                    number: 13,
                    column: 3,
                },
                Faulty {
                    line: b"G   1:",
                    number: 13,
                    column: 3,
                },
                Faulty {
                    line: b"T    1 00    7    0",
                    number: 13,
                    column: 8,
                },
                Faulty {
                    line: b"T    1       7    0",
                    number: 13,
                    column: 8,
                },
                Faulty {
                    line: b"T    1  0   07    0",
                    number: 13,
                    column: 11,
                },
                Faulty {
                    line: b"T    1  0    7   0 ",
                    number: 13,
                    column: 16,
                },
                Faulty {
                    line: b"T    1 0     7   0 ",
                    number: 13,
                    column: 8,
                },
            ],
        )
    }

    // The line is read as some record, which is written as that line again, in just enough bytes and no fewer.
    fn comes_back(rt: &impl Abort, line: &[u8]) -> Result<(), Fail> {
        assert!(rt; 0 < line.len() && line.len() < 24);
        let said = read_line(line).map_err(|_| Fail::new("a good line is refused"))?;
        let mut out = [b'#'; 24];
        let few = line.len() - 1;
        assert_eq!(rt;
            said.line_of(&mut out[..few]),
            Err(TooShort { needed: line.len() })
        );
        assert_eq!(rt; out, [b'#'; 24]);
        assert_eq!(rt; said.line_of(&mut out), Ok(line.len()));
        assert_eq!(rt; &out[..line.len()], line);
        assert_eq!(rt; out[line.len()], b'#');
        Ok(())
    }

    #[test]
    fn good_lines_come_back(rt: HostRuntime) -> Result<(), Fail> {
        let table: [&[u8]; 9] = [
            b"T    1  0    7    0",
            b"T 9999 99 9999 9999",
            b"T    0  0    0    0",
            b"T   10 15  102 1000",
            b"G    1",
            b"G    0",
            b"A   10",
            b"S  100",
            b"S 1000",
        ];
        for line in table {
            comes_back(&rt, line)?;
        }
        Ok(())
    }

    #[test]
    fn a_line_tells_its_numbers(rt: HostRuntime) {
        let row = Number { value: 12 };
        let kind = Number { value: 3 };
        let left = Number { value: 4 };
        let right = Number { value: 9999 };
        assert_eq!(rt;
            read_line(b"T   12  3    4 9999"),
            Ok(Record::Term {
                row,
                kind,
                left,
                right,
            })
        );
    }

    // A text with so many lines of each kind: a term takes 20 bytes, a given mark 7.
    fn text_of(heap: Global, terms: usize, given: usize) -> Result<Vec<u8>, AllocError> {
        let mut text = Vec::new(heap);
        for _ in 0..terms {
            text.extend_from_slice(b"T    1  0    7    0\n")?;
        }
        for _ in 0..given {
            text.extend_from_slice(b"G    1\n")?;
        }
        Ok(text)
    }

    #[test]
    fn the_largest_text(rt: HostRuntime) -> Result<(), Fail> {
        let mut text = text_of(rt.alloc(), 5, 9348)?;
        assert_eq!(rt; text.len(), LIMIT);
        counted(&rt, text.as_slice(), b"C     5  9348     0     0\n");
        text.push(b'G')?;
        refused(&rt, text.as_slice(), b"F     0  0 1 16\n");
        Ok(())
    }

    fn counted(rt: &impl Abort, text: &[u8], printed: &[u8; 26]) {
        assert_eq!(rt; check_text(text).map(|held| held.printed()), Ok(*printed));
    }

    fn refused(rt: &impl Abort, text: &[u8], printed: &[u8; 16]) {
        assert_eq!(rt;
            check_text(text).map_err(|refusal| refusal.printed()),
            Err(*printed)
        );
    }

    #[test]
    fn texts(rt: HostRuntime) {
        counted(&rt, b"", b"C     0     0     0     0\n");
        refused(&rt, b"\n", b"F     1  1 1 10\n");
        refused(&rt, b"G    1", b"F     1  0 1 15\n");
        refused(&rt, b"x", b"F     1  0 1 15\n");
        refused(&rt, b"G    1\n\n", b"F     2  1 1 10\n");
        refused(&rt, b"G    1\r\n", b"F     1  7 1 11\n");
        refused(&rt, b"G    1\nT    2  0    1   01\n", b"F     2 16 1 13\n");
        refused(&rt, b"G    1\nG    2\nG    3", b"F     3  0 1 15\n");
    }
}
