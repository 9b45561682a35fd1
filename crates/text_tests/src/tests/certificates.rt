//! Texts of certificates.
use cert_text::{Body, Cert, CertError, read_cert, write_cert};
use std::alloc::{AllocError, Global};
use std::test::Fail;

const GOOD: &[u8] =
    b"unr 1\ntop u\nclock clk\ncycles 0\npoints s\nclaims 3\nS u #1\nreached 0\nstart 000\nin 0\nend\nS u #2\nreached 0\nstart 000\nin 0\nend\nS u #3\nexcluded 1\nl all -u.q u.r\nstep 1 1 0\n5 0 3 4 0\nhit 1 0\n7 0 6 2 3 5 0\nend\n";

// A certificate of open and reached claims, with all kinds of words that GOOD lacks.
const OPEN: &[u8] =
    b"unr 1\ntop u\nclock clk\ncycles 0\npoints s\nclaims 3\nS u #1\nopen 2 1\nl 1 u.q -u.r\nstep 1 2 2\n9 1 -2 0 3 4 0\n9 d 3 4 0\nhit 0 0\nend\nS u #2\nopen 0 0\nend\nS u #3\nreached 12\nstart -\nin 01\nend\n";

// Of branch arms alone, and of both kinds.
const ARMS: &[u8] =
    b"unr 1\ntop u\nclock clk\ncycles 0\npoints b\nclaims 1\nB u #1 else\nopen 0 0\nend\n";

const BOTH: &[u8] = b"unr 1\ntop u\nclock clk\ncycles 0\npoints sb\nclaims 0\n";

// The first seven lines of a certificate with one claim.
const FRONT: &[u8] = b"unr 1\ntop u\nclock clk\ncycles 0\npoints s\nclaims 1\nS u #3\n";

// What stands behind them, with the first bad line, or 0 where there is none.
const BODIES: [(&[u8], u64); 19] = [
    (b"open 1 0\nhit 2 1\n7 2 0 6 2 0\n8 0 7 0\nend\n", 0),
    (b"open 0 0\nend\n", 0),
    (b"reached 0\nstart 02\n", 9),
    (b"open 0 1\n", 8),
    (b"open 0 0\nhit 1 0\n", 9),
    (b"excluded 1\nl 1 u.q\n", 9),
    (b"open 2 1\nl 1\n", 9),
    (b"open 2 1\nl 1 --u.q\n", 9),
    (b"open 2 1\nl 01 u.q\n", 9),
    (b"open 2 1\nl 0 u.q\nstep 2 0 0\n", 10),
    (b"open 1 0\nend\n", 9),
    (b"open 1 0\nhit 0 1\n", 9),
    (b"open 1 0\nhit 2 1\n7 2 3 0 6 0\n", 10),
    (b"open 1 0\nhit 2 1\n7 0 6 0\n8 0 7 0\n", 11),
    (b"open 1 0\nhit 1 1\n7 d 6 0\n", 10),
    (b"open 1 0\nhit 1 0\n7 0 -6 0\n", 10),
    (b"open 1 0\nhit 1 0\n7 0 0 0\n", 10),
    (b"open 1 0\nhit 1 0\n7 0 6 0\n8 0 6 0\n", 11),
    (b"open 1 0\nhit 1 0\n7 0 6 0\n", 11),
];

// Texts that are no certificates, each with its first bad line.
const BAD: [(&[u8], u64); 9] = [
    (b"", 1),
    (b"unr 1\ntop  t\n", 2),
    (b"unr 1\ntop t\nclock clk", 3),
    (b"unr 1\ntop t\nclock clk\nhold a 1\n", 4),
    (b"unr 1\ntop t\nclock clk\ncycles 0\npoints bs\n", 5),
    (b"unr 1\ntop t\nclock clk\ncycles 0\npoints sbrt\n", 5),
    (
        b"unr 1\ntop t\nclock clk\ncycles 0\npoints s\nclaims 01\n",
        6,
    ),
    (
        b"unr 1\ntop t\nclock clk\ncycles 0\npoints s\nclaims 1\nR t #1 only 0\n",
        7,
    ),
    (
        b"unr 1\ntop t\nclock clk\ncycles 0\npoints s\nclaims 0\nend\n",
        7,
    ),
];

// 0 where there is none.
fn bad_line(answer: Result<Cert, CertError>) -> u64 {
    match answer {
        Err(CertError::BadCert { line }) => line,
        _ => 0,
    }
}

fn behind_front(alloc: Global, body: &[u8]) -> Result<Vec<u8>, AllocError> {
    let mut text = Vec::from_slice(alloc, FRONT)?;
    text.extend_from_slice(body)?;
    Ok(text)
}

// How many lemmas a claim that a point is excluded has, and 0 of another claim.
fn lemma_count(body: &Body) -> usize {
    match body {
        Body::Excluded(ladder) => ladder.lemmas.len(),
        _ => 0,
    }
}

#[test]
fn reads(rt: HostRuntime) -> Result<(), Fail> {
    let cert = read_cert(rt.alloc(), GOOD)?;
    let mut excluded_at = 0;
    for claim in cert.claims.as_slice() {
        if lemma_count(&claim.body) == 1 {
            excluded_at = claim.line;
        }
    }
    assert_eq!(rt; excluded_at, 17);
    for (text, line) in BAD {
        assert_eq!(rt; bad_line(read_cert(rt.alloc(), text)), line);
    }
    for (body, line) in BODIES {
        let text = behind_front(rt.alloc(), body)?;
        let answer = read_cert(rt.alloc(), text.as_slice());
        assert!(rt; !matches!(&answer, Err(CertError::Memory)));
        assert_eq!(rt; bad_line(answer), line);
    }
    Ok(())
}

#[test]
fn writes(rt: HostRuntime) -> Result<(), Fail> {
    for text in [GOOD, OPEN, ARMS, BOTH] {
        let cert = read_cert(rt.alloc(), text)?;
        assert_eq!(rt; write_cert(rt.alloc(), &cert)?.as_slice(), text);
    }
    Ok(())
}
