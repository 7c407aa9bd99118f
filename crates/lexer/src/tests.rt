use crate::{Lexer, LexicalFault, Token};
use std::process::Abort;

type Read = Result<(Token, (usize, usize)), LexicalFault>;

fn answers(rt: &impl Abort, text: &[u8], expected: &[Read]) {
    let mut lexer = Lexer::new(text);
    for answer in expected {
        assert_eq!(rt; lexer.next(), *answer);
    }
}

#[test]
fn tokens(rt: HostRuntime) {
    answers(
        &rt,
        b"",
        &[Ok((Token::End, (0, 0))), Ok((Token::End, (0, 0)))],
    );
    answers(
        &rt,
        b"d:ADD(0..3 12ab,-)= %ntx %%A \n ",
        &[
            Ok((Token::Name, (0, 1))),
            Ok((Token::Colon, (1, 1))),
            Ok((Token::Capitals, (2, 3))),
            Ok((Token::Open, (5, 1))),
            Ok((Token::Number(0), (6, 1))),
            Ok((Token::Dots, (7, 2))),
            Ok((Token::Number(3), (9, 1))),
            Ok((Token::Number(12), (11, 2))),
            Ok((Token::Name, (13, 2))),
            Ok((Token::Comma, (15, 1))),
            Ok((Token::Minus, (16, 1))),
            Ok((Token::Close, (17, 1))),
            Ok((Token::Equals, (18, 1))),
            Ok((Token::Percent, (20, 4))),
            Ok((Token::Percent, (25, 1))),
            Ok((Token::Percent, (26, 1))),
            Ok((Token::Capitals, (27, 1))),
            Ok((Token::LineEnd, (29, 1))),
            Ok((Token::End, (31, 0))),
        ],
    );
}

#[test]
fn limits(rt: HostRuntime) {
    answers(
        &rt,
        b"4294967295 00004294967296 0100000000000000000000000000000 abcdefg8 abcdefg89",
        &[
            Ok((Token::Number(4294967295), (0, 10))),
            Ok((Token::HugeNumber, (11, 14))),
            Ok((Token::HugeNumber, (26, 31))),
            Ok((Token::Name, (58, 8))),
            Err(LexicalFault::LongName(67)),
            Err(LexicalFault::LongName(67)),
        ],
    );
    assert_eq!(rt; Lexer::at(b"ab", 1).next(), Ok((Token::Name, (1, 1))));
    assert_eq!(rt; Lexer::at(b"ab", 9).offset, 2);
}

#[test]
fn stray_bytes(rt: HostRuntime) {
    answers(
        &rt,
        b"... .",
        &[Ok((Token::Dots, (0, 2))), Err(LexicalFault::StrayByte(2))],
    );
    for byte in 0..=255u8 {
        if !byte.is_ascii_alphanumeric() && !b"\n %(),-:=".contains(&byte) {
            answers(&rt, &[byte], &[Err(LexicalFault::StrayByte(0))]);
        }
    }
}
