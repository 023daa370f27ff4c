//! The tokens of short texts.
use dd_tokens::tokens;
use std::test::Fail;

/// Texts, each with the lengths of its tokens and the offset at which the cutting stops. The offset is the length of the text
/// if all of the text can be cut into tokens, blanks and comments.
const CUTS: &[(&[u8], &[u32], u32)] = &[
    (b"", &[], 0),
    (b"Ap[o1q3]", &[1, 1, 1, 1, 1, 1, 1, 1], 8),
    (b"o.up = 10 -> -5", &[1, 1, 2, 1, 2, 2, 2], 15),
    (b"a <-> b != c", &[1, 3, 1, 2, 1], 12),
    (b"a -->b\nc--", &[1, 1], 10),
    (b"a <-->", &[1], 2),
    (b"x 007", &[1], 2),
    (b"x -0", &[1], 2),
    (b"x -- \xc3\n", &[1], 5),
    (b"xX", &[1], 1),
];

#[test]
fn cuts(rt: HostRuntime) -> Result<(), Fail> {
    for (bytes, lengths, stop) in CUTS {
        let cut = tokens(rt.alloc(), bytes)?;
        assert_eq!(rt; (cut.stop, cut.list.len()), (*stop, lengths.len()));
        for (token, length) in cut.list.as_slice().iter().zip(*lengths) {
            assert_eq!(rt; token.length, *length);
        }
    }
    Ok(())
}
