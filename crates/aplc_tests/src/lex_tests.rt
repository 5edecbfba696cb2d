//! Texts with their tokens or their refusal, as the language's rules give them.
//! It must not take an expected answer from `tokens`.

use aplc_lex::TokenKind::{LineEnd, Name, Number, NumsInput, Symbol, Text};
use aplc_lex::{List, Refusal, Span, Stop, Token, TokenKind, tokens};
use std::alloc::Global;
use std::test::Fail;

const A_63: &str = "AAAAAAAAAAAAAAAAAAAAAAAAAAAAAAAAAAAAAAAAAAAAAAAAAAAAAAAAAAAAAAA";

const DELTA_63: &str = "∆∆∆∆∆∆∆∆∆∆∆∆∆∆∆∆∆∆∆∆∆∆∆∆∆∆∆∆∆∆∆∆∆∆∆∆∆∆∆∆∆∆∆∆∆∆∆∆∆∆∆∆∆∆∆∆∆∆∆∆∆∆∆";

const DELTA_64: &str = "∆∆∆∆∆∆∆∆∆∆∆∆∆∆∆∆∆∆∆∆∆∆∆∆∆∆∆∆∆∆∆∆∆∆∆∆∆∆∆∆∆∆∆∆∆∆∆∆∆∆∆∆∆∆∆∆∆∆∆∆∆∆∆⍙";

const SPELLED: &str = "+-×⌈⌊<≤=≥>≠∧∨⍲⍱~⍴,⍳↑↓⌽⊖⍉/⌿\\⍀∊.∘←→()[];:⍞⎕∇|∣∼^∈";

const MEANT: &str = "+-×⌈⌊<≤=≥>≠∧∨⍲⍱~⍴,⍳↑↓⌽⊖⍉/⌿\\⍀∊.∘←→()[];:⍞⎕∇||~∧∊";

fn at(from: u64, to: u64, kind: TokenKind) -> Token {
    Token {
        kind,
        span: Span { from, to },
    }
}

fn refusal_of(alloc: Global, text: &[u8]) -> Option<Refusal> {
    match tokens(alloc, text) {
        Err(Stop::Refused(refusal)) => Some(refusal),
        _ => None,
    }
}

#[test]
fn accepted_texts(rt: HostRuntime) -> Result<(), Fail> {
    let accepted: [(&str, &[Token]); 14] = [
        ("", &[]),
        ("\u{feff}", &[]),
        (
            "A←'it''s'⍝ x\r\n12",
            &[
                at(0, 1, Name),
                at(1, 4, Symbol('←')),
                at(4, 11, Text),
                at(16, 18, LineEnd),
                at(18, 20, Number(12)),
            ],
        ),
        (
            "\u{feff}∇MAIN\n",
            &[at(3, 6, Symbol('∇')), at(6, 10, Name), at(10, 11, LineEnd)],
        ),
        (
            "⎕NUMS+⎕ NUMS⎕5",
            &[
                at(0, 7, NumsInput),
                at(7, 8, Symbol('+')),
                at(8, 11, Symbol('⎕')),
                at(12, 16, Name),
                at(16, 19, Symbol('⎕')),
                at(19, 20, Number(5)),
            ],
        ),
        (
            "9223372036854775807 ¯9223372036854775807\t007",
            &[
                at(0, 19, Number(9223372036854775807)),
                at(20, 41, Number(-9223372036854775807)),
                at(42, 45, Number(7)),
            ],
        ),
        ("'a\rb'", &[at(0, 5, Text)]),
        ("⍝ a\rb'\r\r\n ", &[at(9, 11, LineEnd)]),
        (" \t\n", &[at(2, 3, LineEnd)]),
        ("_∆z9⍙", &[at(0, 9, Name)]),
        (A_63, &[at(0, 63, Name)]),
        (DELTA_63, &[at(0, 189, Name)]),
        (
            "''5A",
            &[at(0, 2, Text), at(2, 3, Number(5)), at(3, 4, Name)],
        ),
        ("''''⍝", &[at(0, 4, Text)]),
    ];
    for (text, want) in accepted {
        let found = List::from_vec(tokens(rt.alloc(), text.as_bytes())?);
        assert_eq!(rt; found.as_slice(), want, "{text}");
        assert_eq!(rt; found.into_vec().len(), want.len(), "{text}");
    }
    Ok(())
}

#[test]
fn every_sign(rt: HostRuntime) -> Result<(), Fail> {
    let spelled = tokens(rt.alloc(), SPELLED.as_bytes())?;
    let mut place: u64 = 0;
    assert_eq!(rt; spelled.len(), 47);
    for (token, (sign, meant)) in spelled.iter().zip(SPELLED.chars().zip(MEANT.chars())) {
        let end = place.wrapping_add(sign.len_utf8() as u64);
        assert_eq!(rt; *token, at(place, end, Symbol(meant)), "{sign}");
        place = end;
    }
    Ok(())
}

#[test]
fn refused_texts(rt: HostRuntime) -> Result<(), Fail> {
    let refused: [(&[u8], u8, u64); 33] = [
        (b"'abc", 3, 0),
        (b"A 'abc\n'", 3, 2),
        (b"'''", 3, 0),
        (b"'a\r\n", 3, 0),
        (b"A\rB", 2, 1),
        (b"\r", 2, 0),
        ("5 ¯ 5".as_bytes(), 2, 2),
        ("¯¯5".as_bytes(), 2, 0),
        ("1¯".as_bytes(), 2, 1),
        (b"9223372036854775808", 4, 0),
        ("1 ¯9223372036854775808".as_bytes(), 4, 2),
        (b"99999999999999999999999", 4, 0),
        (DELTA_64.as_bytes(), 5, 0),
        ("⎕X".as_bytes(), 2, 0),
        ("A⎕NUMSX".as_bytes(), 2, 1),
        ("⎕NUM".as_bytes(), 2, 0),
        ("⎕∆".as_bytes(), 2, 0),
        (b"A#", 2, 1),
        ("A⊥".as_bytes(), 2, 1),
        ("é".as_bytes(), 2, 0),
        ("\u{1f600}".as_bytes(), 2, 0),
        ("\u{feff}#".as_bytes(), 2, 3),
        ("A\u{feff}".as_bytes(), 2, 1),
        (b"A # '", 2, 2),
        (b"#\xff", 2, 0),
        (b"A\xff", 1, 1),
        (b"'a\xff'", 1, 2),
        (b"'a\xff", 3, 0),
        (b"'a\xff\n'", 3, 0),
        (b"'a\xff''b", 1, 2),
        (b"\xff'", 1, 0),
        (b"\xe2\x8d\x9d \xff", 1, 4),
        (b"A\xc1\x81", 1, 1),
    ];
    for (text, number, place) in refused {
        assert_eq!(rt;
            refusal_of(rt.alloc(), text),
            Some(Refusal { number, place }),
            "{text:?}"
        );
    }
    Ok(())
}
