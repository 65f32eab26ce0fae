//! Calls on the bytes of UTF-8.

use regress_base::bytesearch::ByteBitmap;
use regress_base::codepointset::CODE_POINT_MAX;
use regress_base::util::{
    add_utf8_first_bytes_to_bitmap, is_utf8_continuation, to_char_sat, utf8_first_byte, utf8_w2,
    utf8_w3, utf8_w4,
};
use test_notation::Call;

/// Makes the call with this name, and returns whether there is one.
pub(crate) fn response(call: &mut Call, name: &str) -> bool {
    match name {
        "first_bytes" => first_bytes(call),
        "characters" => characters(call),
        "continuing" => continuing(call),
        "decode" => decode(call),
        "first_bytes_of" => first_bytes_of(call),
        _ => return false,
    }
    true
}

/// Reports the first byte of each code point.
fn first_bytes(call: &mut Call) {
    for point in &call.points() {
        call.report(&first_byte(*point));
    }
}

/// Reports the character for each number.
fn characters(call: &mut Call) {
    for number in &call.numbers() {
        call.report(&u32::from(to_char_sat(*number)));
    }
}

/// Reports which of the bytes are continuation bytes.
fn continuing(call: &mut Call) {
    for byte in &call.bytes() {
        if is_utf8_continuation(*byte) {
            call.report(byte);
        }
    }
}

/// Returns the first byte of a code point; past the last code point 255, which begins none.
pub(crate) fn first_byte(point: u32) -> u8 {
    if point <= CODE_POINT_MAX {
        utf8_first_byte(point)
    } else {
        0xFF
    }
}

/// Reports the code point that two, three or four bytes encode.
fn decode(call: &mut Call) {
    let bytes = call.bytes();
    let point = call.read(decoded(&bytes), 0);
    call.report(&point);
}

fn decoded(bytes: &[u8]) -> Option<u32> {
    match *bytes {
        [b0 @ 0xC0..=0xDF, b1 @ 0x80..=0xBF] => Some(utf8_w2(b0, b1)),
        [b0 @ 0xE0..=0xEF, b1 @ 0x80..=0xBF, b2 @ 0x80..=0xBF] => Some(utf8_w3(b0, b1, b2)),
        [
            b0 @ 0xF0..=0xF7,
            b1 @ 0x80..=0xBF,
            b2 @ 0x80..=0xBF,
            b3 @ 0x80..=0xBF,
        ] => { Some(utf8_w4(b0, b1, b2, b3)) }
        _ => None,
    }
}

/// Reports the first bytes of an interval, and their number.
fn first_bytes_of(call: &mut Call) {
    let interval = call.interval();
    let mut bitmap = ByteBitmap::default();
    add_utf8_first_bytes_to_bitmap(interval, &mut bitmap);
    call.show(&bitmap);
    call.report(&bitmap.count_bits());
}
