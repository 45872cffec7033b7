//! Lines, words and numbers of texts.

use gba_text::*;
use std::process::Abort;
use std::test::Fail;

/// What a cursor is asked for.
#[derive(Clone, Copy)]
enum Question {
    Line,
    Peek,
    Word,
    Number { least: u64, most: u64 },
    HexNumber { digits: u32 },
}

/// What a cursor answers.
#[derive(Clone, Copy)]
enum Answer<'a> {
    End,
    Text(&'a [u8]),
    Number(u64),
    Refused(TextError),
}

impl Answer<'_> {
    fn is_end(self) -> bool {
        matches!(self, Answer::End)
    }

    fn is_text(self, wanted: &[u8]) -> bool {
        match self {
            Answer::Text(text) => text == wanted,
            _ => false,
        }
    }

    fn is_number(self, wanted: u64) -> bool {
        match self {
            Answer::Number(number) => number == wanted,
            _ => false,
        }
    }

    fn is_refusal(self, wanted: TextError) -> bool {
        match self {
            Answer::Refused(refusal) => refusal == wanted,
            _ => false,
        }
    }

    fn is(self, want: Answer<'_>) -> bool {
        match want {
            Answer::End => self.is_end(),
            Answer::Text(text) => self.is_text(text),
            Answer::Number(number) => self.is_number(number),
            Answer::Refused(refusal) => self.is_refusal(refusal),
        }
    }
}

/// A cursor, which is asked for a word only in a line.
#[derive(Drop)]
struct Reader<'a> {
    cursor: Cursor<'a>,
}

fn text_or_refusal(answer: Result<&[u8], TextError>) -> Answer<'_> {
    match answer {
        Ok(text) => Answer::Text(text),
        Err(refusal) => Answer::Refused(refusal),
    }
}

fn number_or_refusal(answer: Result<u64, TextError>) -> Answer<'static> {
    match answer {
        Ok(number) => Answer::Number(number),
        Err(refusal) => Answer::Refused(refusal),
    }
}

impl<'a> Reader<'a> {
    fn new(text: &'a [u8]) -> Reader<'a> {
        Reader {
            cursor: Cursor::new(text),
        }
    }

    fn line_number(&self) -> u64 {
        self.cursor.line_number()
    }

    fn line(&mut self) -> Answer<'a> {
        match self.cursor.line() {
            Some(line) => Answer::Text(line),
            None => Answer::End,
        }
    }

    fn peek(&mut self, rt: &impl Abort) -> Answer<'a> {
        assert!(rt; self.cursor.line_number() > 0);
        text_or_refusal(self.cursor.peek())
    }

    fn word(&mut self, rt: &impl Abort) -> Answer<'a> {
        assert!(rt; self.cursor.line_number() > 0);
        text_or_refusal(self.cursor.word())
    }

    fn number(&mut self, rt: &impl Abort, least: u64, most: u64) -> Answer<'a> {
        assert!(rt; self.cursor.line_number() > 0);
        number_or_refusal(self.cursor.number(least, most))
    }

    fn hex_number(&mut self, rt: &impl Abort, digits: u32) -> Answer<'a> {
        assert!(rt; self.cursor.line_number() > 0);
        assert!(rt; digits >= 1 && digits <= 16);
        number_or_refusal(self.cursor.hex_number(digits))
    }

    fn answer(&mut self, rt: &impl Abort, question: Question) -> Answer<'a> {
        match question {
            Question::Line => self.line(),
            Question::Peek => self.peek(rt),
            Question::Word => self.word(rt),
            Question::Number { least, most } => self.number(rt, least, most),
            Question::HexNumber { digits } => self.hex_number(rt, digits),
        }
    }
}

const fn refused(line: u64, kind: TextKind) -> Answer<'static> {
    Answer::Refused(TextError { line, kind })
}

/// Asks a cursor over the text these questions, and compares each answer.
fn has_answers(rt: &impl Abort, text: &[u8], want: &[(Question, Answer<'_>)]) {
    let mut reader = Reader::new(text);
    for (at, &(question, answer)) in want.iter().enumerate() {
        assert!(rt;
            reader.answer(rt, question).is(answer),
            "at {at} of {text:?}"
        );
    }
}

/// Whether the lines of a text are just these, each without its end.
fn has_lines(text: &[u8], want: &[&[u8]]) -> bool {
    let mut reader = Reader::new(text);
    let mut number = 0u64;
    for &line in want {
        number = number.wrapping_add(1);
        if !reader.line().is_text(line) || reader.line_number() != number {
            return false;
        }
    }
    reader.line().is_end() && reader.line().is_end()
}

#[test]
fn lines_end_at_lf_cr_lf_and_the_end(rt: HostRuntime) {
    static CASES: [(&[u8], &[&[u8]]); 11] = [
        (b"", &[]),
        (b"\n", &[b""]),
        (b"\r\n", &[b""]),
        (b"\r", &[b"\r"]),
        (b"a", &[b"a"]),
        (b"a\n", &[b"a"]),
        (b"a\nb", &[b"a", b"b"]),
        (b"a\r\n\r\nb\r", &[b"a", b"", b"b\r"]),
        (b"a\rb\n\nc\r\r\n", &[b"a\rb", b"", b"c\r"]),
        (b"# \xff\x00\n\n", &[b"# \xff\x00", b""]),
        (b" x \r\n\ty", &[b" x ", b"\ty"]),
    ];
    for &(text, want) in &CASES {
        assert!(rt; has_lines(text, want), "of {text:?}");
    }
}

/// Whether the one line of the text has these words.
fn has_words(rt: &impl Abort, text: &[u8], want: &[&[u8]]) -> bool {
    let mut reader = Reader::new(text);
    if reader.line().is_end() {
        return want.is_empty();
    }
    for &word in want {
        if !reader.word(rt).is_text(word) {
            return false;
        }
    }
    reader.line_number() == 1 && reader.word(rt).is(refused(1, TextKind::Missing))
}

/// Whether the next word of the first line is refused so, whatever it is asked for as.
fn refuses_word(rt: &impl Abort, reader: &mut Reader<'_>, kind: TextKind) -> bool {
    let want = TextError { line: 1, kind };
    reader.word(rt).is_refusal(want)
        && reader.number(rt, 0, u64::MAX).is_refusal(want)
        && reader.hex_number(rt, 1).is_refusal(want)
        && reader.word(rt).is_refusal(want)
}

/// Whether the one line of the text is refused so, whatever is asked for.
fn refuses(rt: &impl Abort, text: &[u8], kind: TextKind) -> bool {
    let mut reader = Reader::new(text);
    !reader.line().is_end() && refuses_word(rt, &mut reader, kind)
}

#[test]
fn words_are_parted_by_spaces_and_tabs(rt: HostRuntime) {
    static CASES: [(&[u8], &[&[u8]]); 6] = [
        (b"", &[]),
        (b" \t ", &[]),
        (b"a", &[b"a"]),
        (b"\tgbalink 1 ", &[b"gbalink", b"1"]),
        (b"a  b\t\tc \t~!#;\"", &[b"a", b"b", b"c", b"~!#;\""]),
        (b"# a", &[b"#", b"a"]),
    ];
    for &(text, want) in &CASES {
        assert!(rt; has_words(&rt, text, want), "of {text:?}");
    }
}

static REFUSED: [(&[u8], TextKind); 8] = [
    (b"a\x00", TextKind::Byte),
    (b"a\x1f", TextKind::Byte),
    (b"\x7f", TextKind::Byte),
    (b"a \x80", TextKind::Byte),
    (b"a\rb", TextKind::Byte),
    (b"\r", TextKind::Byte),
    (b" \xff\n", TextKind::Byte),
    (b" ", TextKind::Missing),
];

// Long comes before Byte, and Byte before Missing and Number, whatever word is asked for.
#[test]
fn long_lines_and_other_bytes_are_refused(rt: HostRuntime) -> Result<(), Fail> {
    let longest = vec![in rt.alloc(); b'7'; 400]?;
    assert!(rt; has_words(&rt, &longest, &[&longest]));
    let mut long = vec![in rt.alloc(); b'7'; 400]?;
    long.push(0xff)?;
    assert!(rt; refuses(&rt, &long, TextKind::Long));
    for &(text, kind) in &REFUSED {
        assert!(rt; refuses(&rt, text, kind), "of {text:?}");
    }
    Ok(())
}

/// Whether the one word of the text is answered so, and then the next one.
fn has_answers_of_word(
    rt: &impl Abort,
    text: &[u8],
    question: Question,
    number: Answer<'_>,
    word: Answer<'_>,
) -> bool {
    let mut reader = Reader::new(text);
    reader.line().is_text(text)
        && reader.answer(rt, question).is(number)
        && reader.word(rt).is(word)
}

/// Whether the one word of the text spells this number, or else none that is asked for, and then stays to be taken.
fn spells(rt: &impl Abort, text: &[u8], question: Question, want: Option<u64>) -> bool {
    match want {
        Some(number) => {
            let end = refused(1, TextKind::Missing);
            has_answers_of_word(rt, text, question, Answer::Number(number), end)
        }
        None => {
            let none = refused(1, TextKind::Number);
            has_answers_of_word(rt, text, question, none, Answer::Text(text))
        }
    }
}

#[test]
fn numbers_have_1_to_20_digits_and_a_range(rt: HostRuntime) {
    static CASES: [(&[u8], u64, u64, Option<u64>); 15] = [
        (b"0", 0, u64::MAX, Some(0)),
        (b"7", 7, 7, Some(7)),
        (b"6", 7, 7, None),
        (b"8", 7, 7, None),
        (b"2147483648", 1, 2147483648, Some(2147483648)),
        (b"2147483649", 1, 2147483648, None),
        (b"00000000000000000042", 0, 100, Some(42)),
        (b"000000000000000000042", 0, 100, None),
        (b"18446744073709551615", 0, u64::MAX, Some(u64::MAX)),
        (b"18446744073709551616", 0, u64::MAX, None),
        (b"99999999999999999999", 0, u64::MAX, None),
        (b"+5", 0, 9, None),
        (b"-5", 0, 9, None),
        (b"5a", 0, 99, None),
        (b"1_0", 0, 99, None),
    ];
    for &(text, least, most, want) in &CASES {
        let question = Question::Number { least, most };
        assert!(rt; spells(&rt, text, question, want), "of {text:?}");
    }
}

#[test]
fn hexadecimal_numbers_have_just_so_many_digits(rt: HostRuntime) {
    static CASES: [(&[u8], u32, Option<u64>); 11] = [
        (b"3ff", 3, Some(0x3ff)),
        (b"3Ff", 3, Some(0x3ff)),
        (b"000", 3, Some(0)),
        (b"9", 1, Some(9)),
        (b"3f", 3, None),
        (b"03ff", 3, None),
        (b"g00", 3, None),
        (b"+ff", 3, None),
        (b"0x1", 3, None),
        (b"ffffffffffffffff", 16, Some(u64::MAX)),
        (b"0123456789ABCDEF", 16, Some(0x0123_4567_89ab_cdef)),
    ];
    for &(text, digits, want) in &CASES {
        let question = Question::HexNumber { digits };
        assert!(rt; spells(&rt, text, question, want), "of {text:?}");
    }
}

static OF_A_TEXT: [(Question, Answer<'static>); 15] = [
    (Question::Line, Answer::Text(b"# \xff")),
    (
        Question::Word,
        Answer::Refused(TextError {
            line: 1,
            kind: TextKind::Byte,
        }),
    ),
    (Question::Line, Answer::Text(b"")),
    (
        Question::Word,
        Answer::Refused(TextError {
            line: 2,
            kind: TextKind::Missing,
        }),
    ),
    (Question::Line, Answer::Text(b" a b 7")),
    (Question::Word, Answer::Text(b"a")),
    (
        Question::Number { least: 0, most: 9 },
        Answer::Refused(TextError {
            line: 3,
            kind: TextKind::Number,
        }),
    ),
    (
        Question::HexNumber { digits: 2 },
        Answer::Refused(TextError {
            line: 3,
            kind: TextKind::Number,
        }),
    ),
    (Question::HexNumber { digits: 1 }, Answer::Number(11)),
    (
        Question::Number { least: 8, most: 9 },
        Answer::Refused(TextError {
            line: 3,
            kind: TextKind::Number,
        }),
    ),
    (Question::Number { least: 7, most: 7 }, Answer::Number(7)),
    (Question::Line, Answer::Text(b"last")),
    (Question::Word, Answer::Text(b"last")),
    (Question::Line, Answer::End),
    (
        Question::Word,
        Answer::Refused(TextError {
            line: 4,
            kind: TextKind::Missing,
        }),
    ),
];

// A refusal has its line's number, skipped lines counted, and leaves the words before and after as they are.
#[test]
fn a_refusal_tells_its_line_and_leaves_the_cursor(rt: HostRuntime) {
    has_answers(&rt, b"# \xff\n\n a b 7\r\nlast", &OF_A_TEXT);
}

static OF_LOOKS: [(Question, Answer<'static>); 8] = [
    (Question::Line, Answer::Text(b" a b")),
    (Question::Peek, Answer::Text(b"a")),
    (Question::Word, Answer::Text(b"a")),
    (Question::Peek, Answer::Text(b"b")),
    (Question::Line, Answer::Text(b"\t")),
    (
        Question::Peek,
        Answer::Refused(TextError {
            line: 2,
            kind: TextKind::Missing,
        }),
    ),
    (Question::Line, Answer::Text(b"# \xff")),
    (
        Question::Peek,
        Answer::Refused(TextError {
            line: 3,
            kind: TextKind::Byte,
        }),
    ),
];

#[test]
fn a_look_at_a_word_takes_nothing(rt: HostRuntime) {
    has_answers(&rt, b" a b\n\t\n# \xff", &OF_LOOKS);
}

#[test]
fn refusals_print_line_and_cause(rt: HostRuntime) -> Result<(), Fail> {
    for &(kind, want) in &[
        (TextKind::Byte, "line 3: a byte that may not stand there"),
        (TextKind::Missing, "line 3: a word is missing"),
        (TextKind::Number, "line 3: no number in the range"),
        (TextKind::Long, "line 3: more than 400 bytes"),
    ] {
        let text = format!(in rt.alloc(); "{}", TextError { line: 3, kind })?;
        assert_eq!(rt; text.as_str(), want);
    }
    Ok(())
}

/// Words, and whether their bytes are decimal digits and hexadecimal ones.
static DIGITS: [(&[u8], bool, bool); 6] = [
    (b"", true, true),
    (b"0189", true, true),
    (b"09af", false, true),
    (b"AF", false, true),
    (b"-1", false, false),
    (b"0x1", false, false),
];

fn has_digits(word: &[u8], decimal: bool, hexadecimal: bool) -> bool {
    are_digits(word) == decimal && are_hex_digits(word) == hexadecimal
}

#[test]
fn digits_are_decimal_or_hexadecimal(rt: HostRuntime) {
    for &(word, decimal, hexadecimal) in &DIGITS {
        assert!(rt; has_digits(word, decimal, hexadecimal), "of {word:?}");
    }
    assert_eq!(rt; ascii_text(b"09af"), "09af");
    assert_eq!(rt; LONGEST_LINE, 400);
}

#[test]
fn spaces_and_tabs_are_blank(rt: HostRuntime) {
    static CASES: [(u8, bool); 5] = [
        (b' ', true),
        (b'\t', true),
        (b'\n', false),
        (b'\r', false),
        (b'_', false),
    ];
    for &(byte, want) in &CASES {
        assert!(rt; is_blank(byte) == want, "of {byte}");
    }
}
