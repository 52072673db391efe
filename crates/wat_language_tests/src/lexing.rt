//! Tokens, and what they stand for.

use std::alloc::Global;
use std::test::Fail;
use wat_cursor::{Cursor, Fault};
use wat_lex::{
    MAX_TEXT, Token, TokenKind, longest_text, lower_case, number_value, string_text,
    strings_are_read_back, texts_have_one_cut, tokens,
};
use wat_syntax::Kind;

const LONGEST: &str =
    "a2345678901234567890123456789012345678901234567890123456789012345678901234567890123456789012345678901234567890123456789012345678";

fn token(kind: TokenKind, from: u32, to: u32) -> Token {
    Token { kind, from, to }
}

#[test]
fn tokens_by_each_rule(rt: HostRuntime) -> Result<(), Fail> {
    use TokenKind::{Bad, Number, Quoted, Symbol, Word};
    let cases: [(&str, &[(TokenKind, u32, u32)]); 44] = [
        ("", &[]),
        (" \t\r\n", &[]),
        ("a<=1", &[(Word, 0, 1), (Symbol, 1, 3), (Number, 3, 4)]),
        // Words.
        ("_a9 B", &[(Word, 0, 3), (Word, 4, 5)]),
        (LONGEST, &[(Word, 0, 128)]),
        ("a\u{b}", &[(Word, 0, 1), (Bad, 1, 2)]),
        ("aé b", &[(Word, 0, 1), (Bad, 1, 5)]),
        ("é", &[(Bad, 0, 2)]),
        // Numbers.
        ("03 0", &[(Number, 0, 2), (Number, 3, 4)]),
        ("9223372036854775807", &[(Number, 0, 19)]),
        ("9223372036854775808", &[(Bad, 0, 19)]),
        ("0009223372036854775807", &[(Number, 0, 22)]),
        (
            "99999999999999999999999999999999999999999 a",
            &[(Bad, 0, 43)],
        ),
        ("1a", &[(Bad, 0, 2)]),
        ("1_ 2", &[(Bad, 0, 4)]),
        ("1é", &[(Number, 0, 1), (Bad, 1, 3)]),
        ("1.2", &[(Number, 0, 1), (Symbol, 1, 2), (Number, 2, 3)]),
        ("1'a'", &[(Number, 0, 1), (Quoted, 1, 4)]),
        // Strings.
        ("''", &[(Quoted, 0, 2)]),
        ("'a''b' c", &[(Quoted, 0, 6), (Word, 7, 8)]),
        ("''''", &[(Quoted, 0, 4)]),
        ("'a' 'b'", &[(Quoted, 0, 3), (Quoted, 4, 7)]),
        ("'é;--/*\n'", &[(Quoted, 0, 10)]),
        ("'", &[(Bad, 0, 1)]),
        ("'''", &[(Bad, 0, 3)]),
        ("a 'b\nc", &[(Word, 0, 1), (Bad, 2, 6)]),
        // Comments.
        ("a--b'\nc", &[(Word, 0, 1), (Word, 6, 7)]),
        ("a --", &[(Word, 0, 1)]),
        ("--\r;", &[]),
        ("---\n-", &[(Symbol, 4, 5)]),
        ("/**/a", &[(Word, 4, 5)]),
        ("a/*'*/b", &[(Word, 0, 1), (Word, 6, 7)]),
        ("/*/*/a", &[(Word, 5, 6)]),
        ("/*/ a", &[(Bad, 0, 5)]),
        ("a/*", &[(Word, 0, 1), (Bad, 1, 3)]),
        ("/* /* */ */", &[(Symbol, 9, 10), (Symbol, 10, 11)]),
        ("/*é*/--é", &[]),
        // Symbols, the longest of each.
        ("<><", &[(Symbol, 0, 2), (Symbol, 2, 3)]),
        (
            "!=<=>=||=",
            &[
                (Symbol, 0, 2),
                (Symbol, 2, 4),
                (Symbol, 4, 6),
                (Symbol, 6, 8),
                (Symbol, 8, 9),
            ],
        ),
        (
            "<<>=>",
            &[
                (Symbol, 0, 1),
                (Symbol, 1, 3),
                (Symbol, 3, 4),
                (Symbol, 4, 5),
            ],
        ),
        (
            "(),;.*+",
            &[
                (Symbol, 0, 1),
                (Symbol, 1, 2),
                (Symbol, 2, 3),
                (Symbol, 3, 4),
                (Symbol, 4, 5),
                (Symbol, 5, 6),
                (Symbol, 6, 7),
            ],
        ),
        (
            "-/ =>",
            &[
                (Symbol, 0, 1),
                (Symbol, 1, 2),
                (Symbol, 3, 4),
                (Symbol, 4, 5),
            ],
        ),
        ("! =", &[(Bad, 0, 3)]),
        ("a|b", &[(Word, 0, 1), (Bad, 1, 3)]),
    ];
    for (text, expected) in cases {
        assert!(rt; text.len() <= MAX_TEXT);
        let found = tokens(rt.alloc(), text)?;
        assert_eq!(rt; found.len(), expected.len(), "{text}");
        for (found, (kind, from, to)) in found.as_slice().iter().zip(expected.iter()) {
            assert_eq!(rt; *found, token(*kind, *from, *to), "{text}");
        }
    }
    Ok(())
}

#[test]
fn a_word_of_129_bytes_is_bad(rt: HostRuntime) -> Result<(), Fail> {
    let mut text = String::from_str(rt.alloc(), LONGEST)?;
    text.push_str("9 a")?;
    let text = text.as_str();
    assert!(rt; text.len() <= MAX_TEXT);
    let found = tokens(rt.alloc(), text)?;
    assert_eq!(rt;
        found.as_slice(),
        [token(TokenKind::Bad, 0, 131)].as_slice()
    );
    Ok(())
}

#[test]
fn the_longest_text_has_16_megabytes(rt: HostRuntime) {
    longest_text();
    texts_have_one_cut();
    strings_are_read_back();
    assert_eq!(rt; MAX_TEXT, 16_777_216);
}

#[test]
fn what_words_and_strings_stand_for(rt: HostRuntime) -> Result<(), Fail> {
    for (token, wanted) in [("'it''s é'", "it's é"), ("''''", "'"), ("''", "")] {
        let found = string_text(rt.alloc(), token)?;
        assert_eq!(rt; found.as_str(), wanted);
    }
    let word = lower_case(rt.alloc(), "Ab_9Z")?;
    assert_eq!(rt; word.as_str(), "ab_9z");
    Ok(())
}

#[test]
fn what_numbers_stand_for(rt: HostRuntime) {
    for (token, wanted) in [
        ("0042", Some(42)),
        ("9223372036854775807", Some(9_223_372_036_854_775_807)),
        ("9223372036854775808", None),
    ] {
        assert_eq!(rt; number_value(token), wanted, "{token}");
    }
}

/// What is to be read next.
#[derive(Clone, Copy)]
enum Next {
    Word(Kind),
    Sign(Kind),
    Name(&'static str),
    Text(&'static str),
    Number(i64),
    Level(u8),
    Switch(bool),
}

fn name_is(alloc: Global, cursor: &mut Cursor<'_>, wanted: &str) -> bool {
    match cursor.name(alloc) {
        Ok(name) => name.as_str() == wanted,
        Err(_) => false,
    }
}

fn text_is(alloc: Global, cursor: &mut Cursor<'_>, wanted: &str) -> bool {
    match cursor.quoted(alloc) {
        Ok(text) => text.as_str() == wanted,
        Err(_) => false,
    }
}

fn is_read(alloc: Global, cursor: &mut Cursor<'_>, next: &Next) -> bool {
    match next {
        Next::Word(kind) => cursor.word(*kind) == Ok(()),
        Next::Sign(kind) => cursor.sign(*kind, 7) == Ok(7),
        Next::Name(wanted) => name_is(alloc, cursor, *wanted),
        Next::Text(wanted) => text_is(alloc, cursor, *wanted),
        Next::Number(wanted) => cursor.number() == Ok(*wanted),
        Next::Level(wanted) => cursor.level() == Ok(*wanted),
        Next::Switch(wanted) => cursor.quoted_switch(alloc) == Ok(*wanted),
    }
}

#[test]
fn tokens_are_read_one_by_one(rt: HostRuntime) -> Result<(), Fail> {
    let text = "SELECT Abc.!='It''s' 7 3'oFf' DESC";
    assert!(rt; text.len() <= MAX_TEXT);
    let found = tokens(rt.alloc(), text)?;
    let mut cursor = Cursor::new(text, found.as_slice());
    for (next, left) in [
        (Next::Word(Kind::Select), 8),
        (Next::Name("abc"), 7),
        (Next::Word(Kind::Dot), 6),
        (Next::Word(Kind::Unequal), 5),
        (Next::Text("It's"), 4),
        (Next::Number(7), 3),
        (Next::Level(3), 2),
        (Next::Switch(false), 1),
        (Next::Sign(Kind::Desc), 0),
    ] {
        assert!(rt; is_read(rt.alloc(), &mut cursor, &next), "{left}");
        assert_eq!(rt; cursor.len(), left);
    }
    Ok(())
}

#[test]
fn what_does_not_come_next_is_left(rt: HostRuntime) -> Result<(), Fail> {
    let text = "7 DESC";
    assert!(rt; text.len() <= MAX_TEXT);
    let found = tokens(rt.alloc(), text)?;
    let mut cursor = Cursor::new(text, found.as_slice());
    assert_eq!(rt; cursor.level(), Err(Fault::Syntax));
    assert_eq!(rt; cursor.word(Kind::Asc), Err(Fault::Syntax));
    assert!(rt; !cursor.takes(Kind::Distinct) && cursor.sees(Kind::Number));
    cursor.advance();
    assert!(rt; cursor.sees_any(&[Kind::Asc, Kind::Desc]) && cursor.takes(Kind::Desc));
    assert_eq!(rt; cursor.number(), Err(Fault::Syntax));
    Ok(())
}
