//! Calls on byte sets and searches.

use regress_base::bytesearch::{
    AsciiBitmap, ByteArraySet, ByteBitmap, ByteSearcher, ByteSet, EmptyString, Needle,
    SmallArraySet, charset_contains,
};
use test_notation::{Call, Fault, Promise};

/// Makes the call with this name, and returns whether there is one.
pub(crate) fn response(call: &mut Call, name: &str) -> bool {
    match name {
        "find" => find(call),
        "positions" => positions(call),
        "bitmap" => bitmap(call),
        "bitor" => join(call),
        "ascii" => ascii(call),
        "small" => members_of_small(call),
        "char_set" => members_of_four(call),
        _ => return false,
    }
    true
}

/// Reports where a search finds the first member in a text.
fn find(call: &mut Call) {
    let kind = call.field();
    let members = call.bytes();
    let text = call.bytes();
    match search(kind, &members, &text) {
        Some(position) => call.show(&position),
        None => call.fail(Fault::Line),
    }
}

/// Runs a search of one kind. Arrays and small sets are selected by the number of members.
fn search(kind: &str, members: &[u8], text: &[u8]) -> Option<Option<usize>> {
    match kind {
        "bitmap" => Some(ByteBitmap::new(members).find_in(text)),
        "complement" => Some(ByteBitmap::new(members).bitnot().find_in(text)),
        "needle" => Some(Needle::new(members).find_in(text)),
        "empty" => Some(EmptyString {}.find_in(text)),
        "array" => search_array(members, text),
        "small" => search_small(members, text),
        "wrapped" => search_wrapped(members, text),
        _ => None,
    }
}

fn search_array(members: &[u8], text: &[u8]) -> Option<Option<usize>> {
    match *members {
        [a] => Some(ByteSearcher::find_in(&[a], text)),
        [a, b] => Some(ByteSearcher::find_in(&[a, b], text)),
        [a, b, c] => Some(ByteSearcher::find_in(&[a, b, c], text)),
        _ => None,
    }
}

fn search_small(members: &[u8], text: &[u8]) -> Option<Option<usize>> {
    match *members {
        [a, b] => Some(SmallArraySet::find_in([a, b], text)),
        [a, b, c] => Some(SmallArraySet::find_in([a, b, c], text)),
        [a, b, c, d] => Some(SmallArraySet::find_in([a, b, c, d], text)),
        _ => None,
    }
}

fn search_wrapped(members: &[u8], text: &[u8]) -> Option<Option<usize>> {
    match *members {
        [a, b] => Some(ByteArraySet([a, b]).find_in(text)),
        [a, b, c, d] => Some(ByteArraySet([a, b, c, d]).find_in(text)),
        _ => None,
    }
}

/// Checks that the last member is found at each position of each text of at most 67 bytes that contains no other
/// member, also if it occurs once more later, and that it is not found if it is missing.
fn positions(call: &mut Call) {
    let kind = call.field();
    let members = call.bytes();
    let member = call.read(members.last().copied(), 0);
    for length in 0..=67 {
        for position in 0..=length {
            for other in [position, position + 3] {
                let text = text_with(member, position, other);
                let found = search(kind, &members, &text[..length]);
                let first = if position < length {
                    Some(position)
                } else {
                    None
                };
                call.check(found == Some(first), Promise::FoundFirst);
            }
        }
    }
    call.say("at each position");
}

/// Returns a text of zeros with a byte at two positions, if they are inside the text.
fn text_with(byte: u8, position: usize, other: usize) -> [u8; 67] {
    let mut text = [0; 67];
    if position < 67 {
        text[position] = byte;
    }
    if other < 67 {
        text[other] = byte;
    }
    text
}

/// Reports a bitmap, the number of its members and, if there are at most four, these, padded with zeros.
fn bitmap(call: &mut Call) {
    let bitmap = ByteBitmap::new(&call.bytes());
    let count = bitmap.count_bits();
    call.show(&bitmap);
    call.report(&count);
    if count <= 4 {
        call.show(&bitmap.as_array::<4>());
    }
}

/// Reports the union of two bitmaps, its complement, and whether the two were equal.
fn join(call: &mut Call) {
    let mut joined = ByteBitmap::new(&call.bytes());
    let other = ByteBitmap::new(&call.bytes());
    let same = joined == other;
    joined.bitor(&other);
    let mut outside = ByteBitmap::default();
    outside.bitor(&joined);
    outside.bitnot();
    call.show(&joined);
    call.show(&outside);
    call.report(&same);
}

/// Reports a bitmap of ASCII, and the bytes that are not in it.
fn ascii(call: &mut Call) {
    let mut bitmap = AsciiBitmap::default();
    for byte in &call.bytes() {
        if *byte > 127 {
            call.fail(Fault::Line);
        } else {
            bitmap.set(*byte);
        }
    }
    let mut outside = ByteBitmap::default();
    for byte in 0..=u8::MAX {
        if !ByteSet::contains(&bitmap, byte) {
            outside.set(byte);
        }
    }
    call.show(&bitmap);
    call.show(&outside);
}

/// Reports which of the bytes are in a small set; with four members, in its wrapped form too.
fn members_of_small(call: &mut Call) {
    let set = call.bytes();
    for byte in &call.bytes() {
        match is_in_small(&set, *byte) {
            Some(true) => call.report(byte),
            Some(false) => {}
            None => call.fail(Fault::Line),
        }
    }
}

fn is_in_small(set: &[u8], byte: u8) -> Option<bool> {
    match *set {
        [a, b] => Some(SmallArraySet::contains([a, b], byte)),
        [a, b, c] => Some(SmallArraySet::contains([a, b, c], byte)),
        [a, b, c, d] => Some(
            SmallArraySet::contains([a, b, c, d], byte)
                && ByteArraySet([a, b, c, d]).contains(byte),
        ),
        _ => None,
    }
}

/// Reports which of the numbers are in a set of four code points.
fn members_of_four(call: &mut Call) {
    let set = call.numbers();
    let [a, b, c, d] = *set.as_slice() else {
        call.fail(Fault::Line);
        return;
    };
    for number in &call.numbers() {
        if charset_contains(&[a, b, c, d], *number) {
            call.report(number);
        }
    }
}
