use crate::checks::same;
use arrayvec::ArrayVec;
use mls_label::{CatSet, *};

/// The octets of a bitmap, how many runs and categories it has, and the octets as it is written: worked by hand from the order of
/// the bits.
const BITMAPS: &[(&[u8], usize, u32, &[u8])] = &[
    (&[], 0, 0, &[]),
    (&[0x50, 0, 0], 2, 2, &[0x50]),
    (&[0x01, 0xff, 0x80], 1, 10, &[0x01, 0xff, 0x80]),
    (&[0xaa], 4, 4, &[0xaa]),
    (&[0, 0, 0x01], 1, 1, &[0, 0, 0x01]),
    (&[0x0f, 0xff, 0xff, 0xf0], 1, 24, &[0x0f, 0xff, 0xff, 0xf0]),
    (&[0x81, 0x7e, 0x18], 4, 10, &[0x81, 0x7e, 0x18]),
];

#[test]
fn a_bitmap_is_read_and_written_again(rt: HostRuntime) {
    let mut cats = CatSet::empty();
    for &(bitmap, runs, count, text) in BITMAPS {
        read_bitmap(bitmap, &mut cats);
        same(&rt, bitmap, (cats.runs(), cats.count()), (runs, count));
        let octets = octets_of(&cats);
        assert!(rt; octets <= 8);
        let mut out: ArrayVec<u8, 8> = ArrayVec::new();
        write_bitmap(&cats, octets, &mut out);
        same(&rt, bitmap, out.as_slice(), text);
    }
}
