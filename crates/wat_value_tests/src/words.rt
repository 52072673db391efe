//! Words, reserved words and names.
use std::test::Fail;
use wat_list::Copied;
use wat_name::Name;
use wat_word::{Keyword, MAX_WORD, begins_word, is_name, is_word, is_word_byte, keyword_of};

const LONGEST: &str =
    "a2345678901234567890123456789012345678901234567890123456789012345678901234567890123456789012345678901234567890123456789012345678";

#[test]
fn words_and_names(rt: HostRuntime) {
    let cases = [
        ("", false, false),
        ("a", true, true),
        ("A", true, false),
        ("_", true, true),
        ("_9", true, true),
        ("9a", false, false),
        ("a b", false, false),
        ("a-b", false, false),
        ("aé", false, false),
        ("é", false, false),
        ("select", true, false),
        ("Select", true, false),
        ("selects", true, true),
        ("isolation_level", true, false),
        ("isolation", true, true),
        (LONGEST, true, true),
    ];
    for (text, word, name) in cases {
        assert_eq!(rt; is_word(text), word, "word {text}");
        assert_eq!(rt; is_name(text), name, "name {text}");
    }
}

#[test]
fn a_word_has_128_bytes_at_most(rt: HostRuntime) -> Result<(), Fail> {
    assert_eq!(rt; MAX_WORD, 128);
    assert_eq!(rt; LONGEST.len(), 128);
    let mut longer = String::from_str(rt.alloc(), LONGEST)?;
    longer.push_str("9")?;
    assert!(rt; !is_word(longer.as_str()));
    Ok(())
}

#[test]
fn a_digit_begins_no_word(rt: HostRuntime) {
    assert!(rt; begins_word(b'_') && !begins_word(b'0') && is_word_byte(b'0'));
}

#[test]
fn reserved_words_in_any_case(rt: HostRuntime) {
    let cases = [
        ("and", Some(Keyword::And)),
        ("AND", Some(Keyword::And)),
        ("Isolation_Level", Some(Keyword::IsolationLevel)),
        ("work", Some(Keyword::Work)),
        ("works", None),
        ("wor", None),
        ("limit", None),
        ("", None),
    ];
    for (text, keyword) in cases {
        assert_eq!(rt; keyword_of(text), keyword, "{text}");
    }
    assert_eq!(rt; Keyword::Work.spelling(), "WORK");
}

#[test]
fn a_name_is_its_characters(rt: HostRuntime) -> Result<(), Fail> {
    for text in ["a", "_1", "order_2", "limit"] {
        let name = Name::new(rt.alloc(), text)?.ok_or("no name")?;
        assert_eq!(rt; name.copy(rt.alloc())?.as_str(), text);
    }
    Ok(())
}

#[test]
fn what_is_no_name(rt: HostRuntime) -> Result<(), Fail> {
    for text in ["", "A", "1a", "a b", "é", "order", "isolation_level"] {
        assert!(rt; Name::new(rt.alloc(), text)?.is_none(), "{text}");
    }
    Ok(())
}
