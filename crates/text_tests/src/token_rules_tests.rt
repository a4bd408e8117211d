use std::alloc::{AllocError, Global};
use std::test::Fail;
use token_rules::{Token, TokenReader, is_delim, is_var, next_token, tokens_partition};

#[test]
fn delimiters_by_the_table(rt: HostRuntime) {
    let of_tokens = b"+-.0123456789ABCDEFGHIJKLMNOPQRSTUVWXYZ\\_abcdefghijklmnopqrstuvwxyz";
    for byte in 0..=255u8 {
        assert!(rt; is_delim(byte) == !of_tokens.contains(&byte), "at {byte}");
    }
}

#[test]
fn laws_hold() {
    tokens_partition();
}

// Whether the bytes are a variable after the byte `prev`, where they may be a token.
fn variable(prev: Option<u8>, token: &[u8]) -> Option<bool> {
    if token.is_empty() || token.iter().any(|b| is_delim(*b)) {
        return None;
    }
    Some(is_var(prev, token))
}

const VARIABLES_BY_THEIR: &[(Option<u8>, &[u8], Option<bool>)] = &[
    (Some(b' '), b"a", Some(false)),
    (Some(b' '), b"be", Some(true)),
    (Some(b' '), b"foo", Some(false)),
    (Some(b'='), b"foo", Some(true)),
    (Some(b'='), b"_", Some(false)),
    (Some(b'='), b"a", Some(true)),
    (Some(b':'), b"foo", Some(false)),
    (None, b"0", Some(true)),
    (Some(b'='), b"-1", Some(true)),
    (None, b"-0", Some(true)),
    (None, b"007", Some(true)),
    (None, b"+5", Some(true)),
    (None, b"0.335", Some(true)),
    (None, b"172.128.0.41", Some(true)),
    (None, b"1.", Some(true)),
    (None, b".", Some(false)),
    (None, b"+-.\\_", Some(false)),
    (Some(b'='), b"+-.\\_", Some(false)),
    (None, b"bad", Some(true)),
    (None, b"cafe", Some(true)),
    (None, b"BeAD", Some(true)),
    (None, b"f", Some(false)),
    (Some(b'='), b"f", Some(true)),
    (None, b"fg", Some(false)),
    (None, b"be-", Some(false)),
    (None, b"task_12", Some(true)),
    (None, b"Task", Some(false)),
    (None, b"ff", Some(true)),
    (None, b"z9", Some(true)),
    (None, b"", None),
    (None, b"a b", None),
    (None, b"\x80", None),
];

#[test]
fn variables_by_their_bytes(rt: HostRuntime) {
    for &(prev, token, want) in VARIABLES_BY_THEIR {
        assert!(rt; variable(prev, token) == want, "at {token:?}");
    }
}

// All tokens of a text.
fn tokens_of(alloc: Global, body: &[u8]) -> Result<Vec<Token>, AllocError> {
    let mut tokens = Vec::new(alloc);
    let mut from = 0;
    while let Some(token) = next_token(body, from) {
        tokens.push(token)?;
        from = token.end;
    }
    Ok(tokens)
}

// Whether a reader gives the tokens of a text that are found one by one.
fn reads_alike(body: &[u8]) -> bool {
    let mut reader = TokenReader::new(body);
    let mut from = 0;
    while let Some(token) = next_token(body, from) {
        if reader.next_from(from) != Some(token) {
            return false;
        }
        from = token.end;
    }
    reader.next_from(from).is_none()
}

const TOKENS_OF_TEXTS: &[(&[u8], &[(usize, usize, bool)])] = &[
    (b"", &[]),
    (b" \x80=\xFF", &[]),
    (
        b"x=foo foo bad to",
        &[
            (0, 1, false),
            (2, 5, true),
            (6, 9, false),
            (10, 13, true),
            (14, 16, false),
        ],
    ),
    (b"=a", &[(1, 2, true)]),
    (b"a==b", &[(0, 1, false), (3, 4, true)]),
    (b"task_12", &[(0, 7, true)]),
    (b"\xC3\xBC7\xFFf", &[(2, 3, true), (4, 5, false)]),
    (
        b"[Node:172.128.0.41, id=container_15]",
        &[
            (1, 5, false),
            (6, 18, true),
            (20, 22, false),
            (23, 35, true),
        ],
    ),
];

// Whether the tokens are these.
fn are(tokens: &[Token], wants: &[(usize, usize, bool)]) -> bool {
    let mut rest = tokens;
    for want in wants {
        let [token, more @ ..] = rest else {
            return false;
        };
        if (token.start, token.end, token.variable) != *want {
            return false;
        }
        rest = more;
    }
    rest.is_empty()
}

// Whether the tokens of a text are these.
fn are_of(alloc: Global, body: &[u8], wants: &[(usize, usize, bool)]) -> Result<bool, AllocError> {
    let tokens = tokens_of(alloc, body)?;
    Ok(are(tokens.as_slice(), wants))
}

#[test]
fn tokens_of_texts(rt: HostRuntime) -> Result<(), Fail> {
    for &(body, wants) in TOKENS_OF_TEXTS {
        if !are_of(rt.alloc(), body, wants)? {
            return Err(Fail::from(body));
        }
    }
    Ok(())
}

// Texts with tokens at the bounds of 64 bytes: up to them, over them, and longer.
const LONG_TEXTS: &[&[u8]] = &[
    b"",
    b"a1",
    b"0123456789012345678901234567890123456789012345678901234567890123",
    b"                                                               x=ab  7",
    b"                                                                x=ab 7",
    b"cafe                                                     id=container_15, it is be- f, e",
    b"path=/var/log/app-0123456789abcdefghijklmnopqrstuvwxyzABCDEFGHIJKLMNOPQRSTUVWXYZ_0123.log",
    b"0123456789abcdef0123456789abcdef0123456789abcdef0123456789abcdef0123456789abcdef",
    b"\xC3\xBC+-.\\_ request 550e8400-e29b-41d4-a716-446655440000 user=anna took 12.5 ms, [deadbeef]",
];

#[test]
fn a_reader_gives_the_same_tokens(rt: HostRuntime) {
    for &body in LONG_TEXTS {
        assert!(rt; reads_alike(body), "at {body:?}");
    }
    for &(body, _wants) in TOKENS_OF_TEXTS {
        assert!(rt; reads_alike(body), "at {body:?}");
    }
}
