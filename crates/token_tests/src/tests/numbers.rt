//! Values of numbers.
use std::test::Fail;
use vlog_tokens::number_of;

const NUMBERS: [(&[u8], Option<(u8, u128, u128)>); 12] = [
    (b"4'hFF", Some((4, 15, 0))),
    (b"4294967295", Some((32, 4294967295, 0))),
    (b"4294967296", None),
    (b"8'hF_f", Some((8, 255, 0))),
    (b"129'b0", None),
    (b"0'b0", None),
    (b"8'dx", None),
    (b"8'b?1", Some((8, 1, 254))),
    (b"'oz7", Some((32, 7, 4294967288))),
    (b"4'b0z", Some((4, 0, 1))),
    (b"1_6'hz0", Some((16, 0, 65520))),
    (b"8'dz", None),
];

#[test]
fn numbers_have_values(rt: HostRuntime) -> Result<(), Fail> {
    for (text, wanted) in NUMBERS {
        let found = number_of(text).map(|n| (n.width, n.value, n.wild));
        assert!(rt; found == wanted);
    }
    Ok(())
}
