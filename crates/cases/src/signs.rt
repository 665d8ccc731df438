// Bytes as signs, so that a text stands in a line. A `/` stands for an LF in what is read and written; in what is read `\`, `^`
// and `~` stand for a CR, a NUL and a byte of 255.
fn stored(sign: u8) -> u8 {
    match sign {
        b'/' => b'\n',
        b'\\' => b'\r',
        b'^' => 0,
        b'~' => 255,
        byte => byte,
    }
}

// The text that the signs stand for, as much as there is room for.
pub(crate) fn text_in<'a>(signs: &[u8], room: &'a mut [u8]) -> &'a [u8] {
    let length = signs.len().min(room.len());
    let text = &mut room[..length];
    for (byte, sign) in text.iter_mut().zip(signs) {
        *byte = stored(*sign);
    }
    text
}

pub(crate) fn shown(byte: u8) -> u8 {
    if byte == b'\n' { b'/' } else { byte }
}
