//! What the exports answer, called as they are.

use crate::told::{Fault, Head};
use crate::{
    futskheri_bands_of_headers, futskheri_count_bands, futskheri_decode, futskheri_decode_bands,
    futskheri_decode_bands_over, futskheri_decode_over, futskheri_encode, futskheri_encode_bands,
    futskheri_greatest_size, futskheri_header, futskheri_reason_name,
};
use std::alloc::Global;
use std::process::Abort;

/// The number is the wanted one, in the case that `at` names. A test is proved to be safe before it
/// runs, and a call costs that proof a twentieth of what the macro costs.
fn same(rt: &impl Abort, at: &str, found: u64, wanted: u64) {
    assert_eq!(rt; found, wanted, "{at}");
}

/// The bytes are the wanted ones, in the case that `at` names.
fn same_bytes(rt: &impl Abort, at: &str, found: &[u8], wanted: &[u8]) {
    assert_eq!(rt; found, wanted, "{at}");
}

/// The rows, the columns and the depths of a raster.
type Shape = (u32, u32, u32);

/// What a blob is made of: the number of a type, a shape, the values and the mask.
#[derive(Clone, Copy)]
struct Given<'a> {
    kind: u32,
    shape: Shape,
    values: &'a [u8],
    mask: &'a [u8],
}

/// The status where arrays are encoded without an error, and the size that is told.
fn encode(alloc: Global, given: Given, version: u32, blob: &mut [u8]) -> (u32, u64) {
    let (rows, cols, depth) = given.shape;
    let mut size = 0;
    let status = futskheri_encode(
        alloc,
        given.kind,
        rows,
        cols,
        depth,
        version,
        0,
        given.values,
        given.mask,
        blob,
        &mut size,
    );
    (status, size)
}

const NO_FAULT: Fault = Fault {
    place: 0,
    reason: 0,
    stated: 0,
    found: 0,
};

/// The status where a blob is decoded, and the place and the reason that are told.
fn decode(alloc: Global, blob: &[u8], values: &mut [u8], mask: &mut [u8]) -> (u32, u64, u32) {
    let mut fault = NO_FAULT;
    let status = futskheri_decode(alloc, blob, values, mask, &mut fault);
    (status, fault.place, fault.reason)
}

/// The same where the values are laid into the arrays at once.
fn decode_over(blob: &[u8], values: &mut [u8], mask: &mut [u8]) -> (u32, u64, u32) {
    let mut fault = NO_FAULT;
    let status = futskheri_decode_over(blob, values, mask, &mut fault);
    (status, fault.place, fault.reason)
}

/// How many bytes a blob has that is nothing but its header and the length of its mask, which is
/// nothing, too: one of pixels that are all alike.
fn least_size(version: u32) -> u64 {
    if version == 3 { 66 } else { 70 }
}

/// The blob gives back these values and this mask, by both ways of decoding it.
fn gives_back(rt: &impl Abort, alloc: Global, blob: &[u8], values: &[u8], mask: &[u8]) {
    assert!(rt; values.len() <= 40 && mask.len() <= 40);
    let mut back = [7; 40];
    let mut back_mask = [7; 40];
    let back = &mut back[..values.len()];
    let back_mask = &mut back_mask[..mask.len()];
    let (status, ..) = decode(alloc, blob, back, back_mask);
    same(rt, "decoded", u64::from(status), 0);
    same_bytes(rt, "values", back, values);
    same_bytes(rt, "mask", back_mask, mask);
    back.fill(7);
    back_mask.fill(7);
    let (status, ..) = decode_over(blob, back, back_mask);
    same(rt, "decoded over", u64::from(status), 0);
    same_bytes(rt, "values laid over", back, values);
    same_bytes(rt, "mask laid over", back_mask, mask);
}

/// The arrays have a blob that gives back these values and this mask; and it is as short as one of
/// pixels that are all alike, or not.
fn comes_back(
    rt: &impl Abort,
    alloc: Global,
    given: Given,
    version: u32,
    is_short: bool,
    back: (&[u8], &[u8]),
) {
    let mut blob = [0; 200];
    let (status, size) = encode(alloc, given, version, &mut blob);
    same(rt, "encoded", u64::from(status), 0);
    let found = size == least_size(version);
    same(rt, "short", u64::from(found), u64::from(is_short));
    gives_back(rt, alloc, &blob, back.0, back.1);
}

/// The arrays come back by both versions, where there is one depth, and else by version 4.
fn come_back(rt: &impl Abort, alloc: Global, given: Given, is_short: bool, back: (&[u8], &[u8])) {
    comes_back(rt, alloc, given, 4, is_short, back);
    if given.shape.2 == 1 {
        comes_back(rt, alloc, given, 3, is_short, back);
    }
}

/// The number of a type, a shape, whether the pixels are all alike, the values, of which every
/// pixel is valid, and the mask that comes back.
const WHOLE: &[(u32, Shape, bool, &[u8], &[u8])] = &[
    // One value.
    (0, (4, 2, 1), true, &[0x80; 8], b"\xff"),
    (1, (1, 8, 1), true, &[0x00; 8], b"\xff"),
    (1, (2, 1, 3), true, &[0xc8; 6], b"\xc0"),
    (2, (1, 2, 1), true, b"\xfd\xff\xfd\xff", b"\xc0"),
    (
        3,
        (1, 2, 2),
        true,
        b"\x01\x02\x01\x02\x01\x02\x01\x02",
        b"\xc0",
    ),
    (
        4,
        (2, 1, 1),
        true,
        b"\x00\x00\x00\x80\x00\x00\x00\x80",
        b"\xc0",
    ),
    (5, (1, 8, 1), true, &[0xff; 32], b"\xff"),
    // A last value that is another.
    (
        0,
        (4, 2, 1),
        false,
        b"\x80\x80\x80\x80\x80\x80\x80\x7f",
        b"\xff",
    ),
    (
        1,
        (1, 8, 1),
        false,
        b"\x00\x00\x00\x00\x00\x00\x00\x01",
        b"\xff",
    ),
    (1, (2, 1, 3), false, b"\xc8\xc8\xc8\xc8\xc8\xc9", b"\xc0"),
    (2, (1, 2, 1), false, b"\xfd\xff\xfd\xfe", b"\xc0"),
    (
        3,
        (1, 2, 2),
        false,
        b"\x01\x02\x01\x02\x01\x02\x01\x03",
        b"\xc0",
    ),
    (
        4,
        (2, 1, 1),
        false,
        b"\x00\x00\x00\x80\x00\x00\x00\x81",
        b"\xc0",
    ),
    (
        5,
        (1, 8, 1),
        false,
        b"\xff\xff\xff\xff\xff\xff\xff\xff\xff\xff\xff\xff\xff\xff\xff\xff\xff\xff\xff\xff\
        \xff\xff\xff\xff\xff\xff\xff\xff\xff\xff\xff\xfe",
        b"\xff",
    ),
];

#[test]
fn values_come_back(rt: HostRuntime) {
    for (kind, shape, is_short, values, mask) in WHOLE {
        let given = Given {
            kind: *kind,
            shape: *shape,
            values,
            mask: b"",
        };
        come_back(&rt, rt.alloc(), given, *is_short, (*values, *mask));
    }
}

/// The number of a type, a shape, whether the valid pixels are all alike, the values and the mask,
/// and those that come back.
const MASKED: &[(u32, Shape, bool, &[u8], &[u8], &[u8], &[u8])] = &[
    // A mask of no pixel, and one of the last alone.
    (
        1,
        (3, 3, 1),
        true,
        b"\x01\x02\x03\x04\x05\x06\x07\x08\x09",
        b"\x00\x00",
        &[0x00; 9],
        b"\x00\x00",
    ),
    (
        1,
        (3, 3, 1),
        true,
        b"\x01\x02\x03\x04\x05\x06\x07\x08\x09",
        b"\x00\x7f",
        &[0x00; 9],
        b"\x00\x00",
    ),
    (
        1,
        (3, 3, 1),
        false,
        b"\x01\x02\x03\x04\x05\x06\x07\x08\x09",
        b"\x00\x80",
        b"\x00\x00\x00\x00\x00\x00\x00\x00\x09",
        b"\x00\x80",
    ),
    (
        3,
        (1, 2, 2),
        true,
        b"\x01\x02\x03\x04\x05\x06\x07\x08",
        b"\x00",
        &[0x00; 8],
        b"\x00",
    ),
    // A third pixel that is not valid, and bits behind the last.
    (
        1,
        (2, 2, 1),
        false,
        b"\x01\x02\x09\xc8",
        b"\xdf",
        b"\x01\x02\x00\xc8",
        b"\xd0",
    ),
];

#[test]
fn masked_values_come_back(rt: HostRuntime) {
    for (kind, shape, is_short, values, mask, back, back_mask) in MASKED {
        let given = Given {
            kind: *kind,
            shape: *shape,
            values,
            mask,
        };
        come_back(&rt, rt.alloc(), given, *is_short, (*back, *back_mask));
    }
}

/// The blob of the one value 7, worked by hand, and four bytes behind it.
const SEVEN: [u8; 70] =
    *b"\x4c\x65\x72\x63\x32\x20\x03\x00\x00\x00\xc0\x66\x45\x59\x01\x00\x00\x00\x01\x00\x00\x00\
    \x01\x00\x00\x00\x08\x00\x00\x00\x42\x00\x00\x00\x01\x00\x00\x00\x00\x00\x00\x00\x00\x00\
    \xe0\x3f\x00\x00\x00\x00\x00\x00\x1c\x40\x00\x00\x00\x00\x00\x00\x1c\x40\x00\x00\x00\x00\
    \x05\x05\x05\x05";

/// One value 7, with this mask, has that blob, which has no room in a byte less.
fn is_seven(rt: &impl Abort, alloc: Global, mask: &[u8]) {
    let given = Given {
        kind: 1,
        shape: (1, 1, 1),
        values: b"\x07",
        mask,
    };
    let mut blob = [5; 70];
    let (status, size) = encode(alloc, given, 3, &mut blob);
    same(rt, "encoded", u64::from(status), 0);
    same(rt, "size", size, 66);
    same_bytes(rt, "blob, and what stands behind it", &blob, &SEVEN);
    let mut short = [5; 65];
    let (status, size) = encode(alloc, given, 3, &mut short);
    same(rt, "no room", u64::from(status), 9);
    same(rt, "wanted", size, 66);
    same_bytes(rt, "what is left", &short, &[5; 65]);
}

#[test]
fn one_value_has_the_blob_that_was_worked_by_hand(rt: HostRuntime) {
    for mask in [b"".as_slice(), b"\x80", b"\xff"] {
        is_seven(&rt, rt.alloc(), mask);
    }
}

/// The arrays have one blob, whether these values stand there or those, which are others at invalid
/// pixels alone.
fn have_one_blob(rt: &impl Abort, alloc: Global, given: Given, version: u32, others: &[u8]) {
    let mut blob = [5; 200];
    let (status, size) = encode(alloc, given, version, &mut blob);
    same(rt, "encoded", u64::from(status), 0);
    let mut again = [5; 200];
    let other = Given {
        values: others,
        ..given
    };
    let (status, size_again) = encode(alloc, other, version, &mut again);
    same(rt, "encoded with others", u64::from(status), 0);
    same(rt, "size", size_again, size);
    same_bytes(rt, "blob", &again, &blob);
}

/// The number of a type, a shape, a mask, values, and others at invalid pixels.
const OTHERS: &[(u32, Shape, &[u8], &[u8], &[u8])] = &[
    (
        0,
        (2, 4, 1),
        b"\xb5",
        b"\x01\x00\x03\x04\x00\x06\x00\x08",
        b"\x01\xff\x03\x04\x80\x06\x7f\x08",
    ),
    (
        1,
        (2, 4, 1),
        b"\xb5",
        b"\x01\x00\x03\x04\x00\x06\x00\x08",
        b"\x01\xff\x03\x04\x80\x06\x7f\x08",
    ),
    (
        2,
        (2, 2, 1),
        b"\x90",
        b"\x01\x02\x00\x00\x00\x00\x07\x08",
        b"\x01\x02\xff\x7f\x00\x80\x07\x08",
    ),
    (
        3,
        (1, 2, 2),
        b"\x40",
        b"\x00\x00\x00\x00\x05\x00\x07\x08",
        b"\xff\xff\x00\x80\x05\x00\x07\x08",
    ),
    (
        1,
        (8, 8, 1),
        b"\xbf\xff\xff\xff\xff\xff\xff\xff",
        b"\x03\x00\x03\x03\x03\x03\x03\x03\x03\x04\x03\x03\x03\x03\x03\x03\x03\x03\x03\x03\
        \x03\x03\x03\x03\x03\x03\x03\x03\x03\x03\x03\x03\x03\x03\x03\x03\x03\x03\x03\x03\
        \x03\x03\x03\x03\x03\x03\x03\x03\x03\x03\x03\x03\x03\x03\x03\x03\x03\x03\x03\x03\
        \x03\x03\x03\x03",
        b"\x03\xc8\x03\x03\x03\x03\x03\x03\x03\x04\x03\x03\x03\x03\x03\x03\x03\x03\x03\x03\
        \x03\x03\x03\x03\x03\x03\x03\x03\x03\x03\x03\x03\x03\x03\x03\x03\x03\x03\x03\x03\
        \x03\x03\x03\x03\x03\x03\x03\x03\x03\x03\x03\x03\x03\x03\x03\x03\x03\x03\x03\x03\
        \x03\x03\x03\x03",
    ),
];

#[test]
fn bytes_at_invalid_pixels_are_not_read(rt: HostRuntime) {
    for (kind, shape, mask, values, others) in OTHERS {
        for version in [3, 4] {
            if version == 4 || shape.2 == 1 {
                let given = Given {
                    kind: *kind,
                    shape: *shape,
                    values,
                    mask,
                };
                have_one_blob(&rt, rt.alloc(), given, version, others);
            }
        }
    }
}

/// Arrays of other lengths than a blob of four values asks for are told, and the fault of a blob
/// that is cut.
fn expect_faults(rt: &impl Abort, blob: &[u8; 200]) {
    let (status, ..) = decode_over(blob, &mut [7; 5], &mut [7]);
    same(rt, "a value too many", u64::from(status), 3);
    let (status, place, reason) = decode_over(&blob[..80], &mut [7; 4], &mut [7]);
    same(rt, "cut", u64::from(status), 1);
    same(rt, "place of the cut", place, 80);
    same(rt, "reason of the cut", u64::from(reason), 1);
}

/// Two rows and columns, of which the third pixel is not valid: the blob is not longer than what is
/// said of its shape; it has no room in three bytes; and arrays of other lengths, and a blob that
/// is cut, are told.
#[test]
fn a_raster_out_and_in(rt: HostRuntime) {
    let alloc = rt.alloc();
    let given = Given {
        kind: 1,
        shape: (2, 2, 1),
        values: &[1, 2, 9, 200],
        mask: b"\xdf",
    };
    let (mut blob, mut short) = ([0; 200], [5; 3]);
    let (status, size) = encode(alloc, given, 4, &mut blob);
    same(&rt, "encoded", u64::from(status), 0);
    let is_small = size <= futskheri_greatest_size(1, 2, 2, 1);
    same(&rt, "not above the greatest size", u64::from(is_small), 1);
    let (status, wanted) = encode(alloc, given, 4, &mut short);
    same(&rt, "no room", u64::from(status), 9);
    same(&rt, "wanted", wanted, size);
    same_bytes(&rt, "the three bytes", &short, &[5; 3]);
    expect_faults(&rt, &blob);
}

/// The status where the blob of four values with this mask is decoded without one, and the values
/// that stand there then.
fn decode_values(rt: &impl Abort, alloc: Global, mask: &[u8]) -> (u32, [u8; 4]) {
    let given = Given {
        kind: 1,
        shape: (2, 2, 1),
        values: &[1, 2, 9, 200],
        mask,
    };
    let mut blob = [0; 200];
    let (status, _) = encode(alloc, given, 4, &mut blob);
    same(rt, "encoded", u64::from(status), 0);
    let mut values = [7; 4];
    let (status, ..) = decode(alloc, &blob, &mut values, &mut []);
    (status, values)
}

#[test]
fn no_mask_is_wanted_where_every_pixel_is_valid(rt: HostRuntime) {
    let (status, values) = decode_values(&rt, rt.alloc(), b"");
    same(&rt, "every pixel is valid", u64::from(status), 0);
    same_bytes(&rt, "values", &values, &[1, 2, 9, 200]);
    let (status, values) = decode_values(&rt, rt.alloc(), b"\xdf");
    same(&rt, "one is not", u64::from(status), 3);
    same_bytes(&rt, "what is left", &values, &[7; 4]);
}

/// More than 65,535 pixels, and more than 4,096 rows.
#[test]
fn a_large_raster_out_and_in(rt: HostRuntime) {
    let alloc = rt.alloc();
    let mut values = Vec::new(alloc);
    let mut state: u32 = 1;
    for _ in 0..100_000 {
        state = state.wrapping_mul(1_103_515_245).wrapping_add(12345);
        values.push((state >> 24) as u8).expect(&rt, "memory");
    }
    let mut blob = vec![in alloc; 0; 200_000].expect(&rt, "memory");
    let given = Given {
        kind: 1,
        shape: (5000, 20, 1),
        values: &values,
        mask: b"",
    };
    let (status, _) = encode(alloc, given, 4, blob.as_mut_slice());
    same(&rt, "encoded", u64::from(status), 0);
    let mut back = vec![in alloc; 7; 100_000].expect(&rt, "memory");
    let mut mask = vec![in alloc; 0; 12_500].expect(&rt, "memory");
    let (status, ..) = decode(alloc, &blob, back.as_mut_slice(), mask.as_mut_slice());
    same(&rt, "decoded", u64::from(status), 0);
    same_bytes(&rt, "values", &back, &values);
}

/// The status of a look at a header, and the place that is told.
fn look(blob: &[u8]) -> (u32, u64) {
    let mut fault = NO_FAULT;
    let mut head = Head {
        step: 0,
        least: 0,
        greatest: 0,
        version: 0,
        kind: 0,
        rows: 0,
        cols: 0,
        depth: 0,
        valid: 0,
        side: 0,
        size: 0,
        checksum: 0,
    };
    let status = futskheri_header(blob, &mut head, &mut fault);
    (status, fault.place)
}

#[test]
fn bytes_that_are_no_blob(rt: HostRuntime) {
    let (status, place) = look(b"Lerc2");
    same(&rt, "cut", u64::from(status), 1);
    same(&rt, "place of the cut", place, 5);
    let blob = b"Lerc2 \x05\0\0\0";
    let (status, place, reason) = decode(rt.alloc(), blob, &mut [], &mut []);
    same(&rt, "version 5", u64::from(status), 1);
    same(&rt, "place of the version", place, 6);
    same(&rt, "reason", u64::from(reason), 3);
}

/// A reason has a name of this length, which leaves these bytes of what stood in the array.
fn expect_name(rt: &impl Abort, reason: u32, before: &[u8; 12], length: u64, after: &[u8; 12]) {
    let mut name = *before;
    let found = futskheri_reason_name(reason, &mut name) as u64;
    same(rt, "the length of a name", found, length);
    same_bytes(rt, "a name", &name, after);
}

#[test]
fn names_of_reasons(rt: HostRuntime) {
    expect_name(&rt, 3, b"............", 10, b"BadVersion..");
    expect_name(&rt, 0, b"BadVersion..", 0, b"BadVersion..");
    expect_name(&rt, 31, b"BadVersion..", 8, b"Leftoveron..");
}

/// Two bands of one row of u8: their columns and depths, their values and masks, and those that
/// come back.
#[derive(Clone, Copy)]
struct TwoBands<'a> {
    cols: u32,
    depth: u32,
    values: &'a [u8],
    masks: &'a [u8],
    back: &'a [u8],
    back_masks: &'a [u8],
}

/// The status where two bands are encoded without an error, and the size that is told.
fn encode_two(alloc: Global, bands: TwoBands, version: u32, blobs: &mut [u8]) -> (u32, u64) {
    let mut size = 0;
    let status = futskheri_encode_bands(
        alloc,
        1,
        1,
        bands.cols,
        bands.depth,
        2,
        version,
        0,
        bands.values,
        bands.masks,
        blobs,
        &mut size,
    );
    (status, size)
}

/// The tile has two blobs, also as its headers say, and is told where it is cut.
fn expect_two(rt: &impl Abort, alloc: Global, tile: &[u8]) {
    assert!(rt; !tile.is_empty());
    let mut bands = 0;
    let mut fault = NO_FAULT;
    let status = futskheri_count_bands(alloc, tile, &mut bands, &mut fault);
    same(rt, "counted", u64::from(status), 0);
    same(rt, "bands", u64::from(bands), 2);
    bands = 0;
    let status = futskheri_bands_of_headers(tile, &mut bands, &mut fault);
    same(rt, "counted by headers", u64::from(status), 0);
    same(rt, "bands of headers", u64::from(bands), 2);
    let cut = tile.len() - 1;
    let status = futskheri_bands_of_headers(&tile[..cut], &mut bands, &mut fault);
    same(rt, "cut", u64::from(status), 1);
    same(rt, "place of the cut", fault.place, cut as u64);
    same(rt, "reason of the cut", u64::from(fault.reason), 1);
}

/// The tile has these bands.
fn expect_bands(rt: &impl Abort, alloc: Global, tile: &[u8], bands: TwoBands) {
    let mut values = [7; 4];
    let mut masks = [7; 2];
    let mut fault = NO_FAULT;
    let status = futskheri_decode_bands(alloc, tile, 2, &mut values, &mut masks, &mut fault);
    same(rt, "decoded", u64::from(status), 0);
    same_bytes(rt, "values", &values, bands.back);
    same_bytes(rt, "masks", &masks, bands.back_masks);
    let status = futskheri_decode_bands(alloc, tile, 3, &mut values, &mut masks, &mut fault);
    same(rt, "three are asked for", u64::from(status), 3);
    let status = futskheri_decode_bands(alloc, tile, 2, &mut values, &mut [], &mut fault);
    let wanted = if bands.masks.is_empty() { 0 } else { 3 };
    same(rt, "without masks", u64::from(status), wanted);
}

/// The same, laid into the arrays at once.
fn expect_bands_over(rt: &impl Abort, tile: &[u8], bands: TwoBands) {
    let mut values = [7; 4];
    let mut masks = [7; 2];
    let mut fault = NO_FAULT;
    let status = futskheri_decode_bands_over(tile, 2, &mut values, &mut masks, &mut fault);
    same(rt, "decoded over", u64::from(status), 0);
    same_bytes(rt, "values over", &values, bands.back);
    same_bytes(rt, "masks over", &masks, bands.back_masks);
    let status = futskheri_decode_bands_over(tile, 2, &mut values, &mut [], &mut fault);
    same(rt, "over without masks", u64::from(status), 3);
}

/// The two bands come back by the version.
fn two_come_back(rt: &impl Abort, alloc: Global, bands: TwoBands, version: u32) {
    let mut blobs = [0; 400];
    let (status, size) = encode_two(alloc, bands, version, &mut blobs);
    same(rt, "encoded", u64::from(status), 0);
    assert!(rt; size <= 400);
    let tile = &blobs[..size as usize];
    expect_two(rt, alloc, tile);
    expect_bands(rt, alloc, tile, bands);
    expect_bands_over(rt, tile, bands);
}

/// Two columns, of which the second is not valid, with one mask for both bands.
const COLUMNS: TwoBands<'static> = TwoBands {
    cols: 2,
    depth: 1,
    values: b"\x01\x09\xc8\x09",
    masks: b"\x80",
    back: b"\x01\x00\xc8\x00",
    back_masks: b"\x80\x80",
};

/// Two depths of one pixel, with no mask.
const DEPTHS: TwoBands<'static> = TwoBands {
    cols: 1,
    depth: 2,
    values: b"\x01\x02\xc8\x64",
    masks: b"",
    back: b"\x01\x02\xc8\x64",
    back_masks: b"\x80\x80",
};

#[test]
fn bands_out_and_in(rt: HostRuntime) {
    two_come_back(&rt, rt.alloc(), COLUMNS, 3);
    two_come_back(&rt, rt.alloc(), COLUMNS, 4);
}

#[test]
fn bands_of_two_depths_out_and_in(rt: HostRuntime) {
    two_come_back(&rt, rt.alloc(), DEPTHS, 4);
    let mut blobs = [5; 400];
    let (status, size) = encode_two(rt.alloc(), DEPTHS, 3, &mut blobs);
    same(&rt, "version 3", u64::from(status), 8);
    same(&rt, "size", size, 0);
    same_bytes(&rt, "what is left", &blobs, &[5; 400]);
}
