// The lines of the input: `SET KEY PLAINTEXT CIPHERTEXT`, each number of sixteen hexadecimal digits; or `boxes`.
use crate::hex::number;

// The vector of a line, with the name of its set.
#[derive(Clone, Copy)]
pub(crate) struct Vector<'a> {
    pub(crate) set: &'a [u8],
    pub(crate) key: [u8; 8],
    pub(crate) plain: [u8; 8],
    pub(crate) cipher: [u8; 8],
}

// What a line asks for.
#[derive(Clone, Copy)]
pub(crate) enum Line<'a> {
    Comment,
    Boxes,
    Vector(Vector<'a>),
    Other,
}

// A line that is empty counts as a comment.
pub(crate) fn line_of(line: &[u8]) -> Line<'_> {
    match line {
        [] | [b'#', ..] => Line::Comment,
        b"boxes" => Line::Boxes,
        _ => vector_of(line).map_or(Line::Other, Line::Vector),
    }
}

fn vector_of(line: &[u8]) -> Option<Vector<'_>> {
    let mut fields = line.split(|&c| c == b' ');
    let set = fields.next().filter(|set| !set.is_empty())?;
    let key = number(fields.next()?)?;
    let plain = number(fields.next()?)?;
    let cipher = number(fields.next()?)?;
    match fields.next() {
        None => Some(Vector {
            set,
            key,
            plain,
            cipher,
        }),
        Some(_) => None,
    }
}
