//! The statements of a script.

use crate::reader::count_of;
use std::alloc::{Alloc, Global};
use std::process::Abort;
use std::test::Fail;
use wat_lex::MAX_TEXT;
use wat_parse::{Span, statements};

#[test]
fn statements_between_semicolons(rt: HostRuntime) -> Result<(), Fail> {
    let cases: [(&str, &[(u32, u32)]); 13] = [
        ("", &[]),
        (" ;;/*;*/; --;", &[]),
        ("; a ;;b", &[(2, 3), (6, 7)]),
        ("a", &[(0, 1)]),
        ("a;", &[(0, 1)]),
        ("a b;c d", &[(0, 3), (4, 7)]),
        (" select 1 /* ; */ ; commit -- ;\n;", &[(1, 9), (20, 26)]),
        ("a--;\nb;c", &[(0, 6), (7, 8)]),
        ("';' ; ';'", &[(0, 3), (6, 9)]),
        ("a;'b;c", &[(0, 1), (2, 6)]),
        ("a;/*b;c", &[(0, 1), (2, 7)]),
        ("a;é;b", &[(0, 1), (2, 6)]),
        ("<>;<;", &[(0, 2), (3, 4)]),
    ];
    for (text, expected) in cases {
        assert!(rt; text.len() <= MAX_TEXT);
        let spans = statements(rt.alloc(), text)?;
        assert_eq!(rt; spans.len(), expected.len(), "{text}");
        for (span, (from, to)) in spans.as_slice().iter().zip(expected.iter()) {
            assert_eq!(rt;
                *span,
                Span {
                    from: *from,
                    to: *to
                },
                "{text}"
            );
        }
    }
    Ok(())
}

/// How many statements the bytes hold.
fn count_of_bytes(rt: &(impl Abort + Alloc<A = Global>), bytes: &[u8]) -> Result<usize, Fail> {
    let text = std::str::from_utf8(bytes)?;
    count_of(rt, text)
}

#[test]
fn the_longest_scripts_are_cut(rt: HostRuntime) -> Result<(), Fail> {
    let spaces = vec![in rt.alloc(); b' '; MAX_TEXT]?;
    assert_eq!(rt; count_of_bytes(&rt, &spaces)?, 0);
    Ok(())
}

#[test]
fn the_longest_open_string_is_cut(rt: HostRuntime) -> Result<(), Fail> {
    let mut quote = vec![in rt.alloc(); b'a'; MAX_TEXT]?;
    assert!(rt; !quote.is_empty());
    quote[0] = b'\'';
    assert_eq!(rt; count_of_bytes(&rt, &quote)?, 1);
    Ok(())
}

/// So many words, with a space behind each.
fn words(alloc: Global, count: usize) -> Result<Vec<u8>, Fail> {
    let mut words = Vec::new(alloc);
    for _word in 0..count {
        words.push(b'a')?;
        words.push(b' ')?;
    }
    Ok(words)
}

#[test]
fn the_most_words_are_cut(rt: HostRuntime) -> Result<(), Fail> {
    let words = words(rt.alloc(), MAX_TEXT / 2)?;
    assert_eq!(rt; count_of_bytes(&rt, &words)?, 1);
    Ok(())
}
